ghost use Rattle.std.specs.Prelude.{◌≡◌};
ghost use Rattle.zk_units.specs.Protocols.{over_tcp, over_udp, protocol_at};

use zk_base::Proto;

/// A protocol whose messages are read.
#[derive(Clone, Copy, Debug, PartialEq, Eq)]
pub enum Protocol {
    /// HTTP/1.0 and HTTP/1.1 (RFC 9112).
    Http,
    /// DNS (RFC 1035).
    Dns,
}

/// What a connection speaks, by the port of its responder: 53 is DNS; 80, 81, 631, 1080, 3128, 8000,
/// 8080 and 8888 are HTTP, over TCP alone.
#[tactic(auto, unfolding(crate::specs::Protocols::protocol_at))]
pub fn protocol_at(proto: Proto, port: u16) -> Option<Protocol>
    ensures { result ≡ protocol_at proto port }
{
    match proto {
        Proto::Tcp => over_tcp(port),
        Proto::Udp => over_udp(port),
    }
}

fn over_tcp(port: u16) -> Option<Protocol>
    ensures { result ≡ over_tcp port }
{
    match port {
        53 => Some(Protocol::Dns),
        80 | 81 | 631 | 1080 | 3128 | 8000 | 8080 | 8888 => Some(Protocol::Http),
        _ => None,
    }
}

fn over_udp(port: u16) -> Option<Protocol>
    ensures { result ≡ over_udp port }
{
    match port {
        53 => Some(Protocol::Dns),
        _ => None,
    }
}
