ghost use Rattle.std.specs.Prelude.{◌≡◌, ◌≤◌, length, MatchOption, Some, None};
ghost use Rattle.zk_link_ip.specs.Views.{packet};
ghost use Rattle.zk_traffic.specs.Datagram.{carrying, is_fragment, packet_in};
ghost use Rattle.zk_traffic.specs.Taken.{datagram_from};

use crate::datagram::Datagram;
use crate::options::Options;
use zk_link_ip::{Ip4, ip_part};

/// The IPv4 packet in a frame, where its header is well-formed and its checksum, where that is
/// judged, right.
pub fn packet_in<'a>(options: &Options, link: u16, frame: &'a [u8]) -> Option<Ip4<'a>>
    ensures { MatchOption result (packet_in options.now link frame.now ≡ None)
        (λ ip. packet_in options.now link frame.now ≡ Some (packet ip).now) }
{
    let part = ip_part(link, frame)?;
    match Ip4::read(part, options.check) {
        Ok(ip) => Some(ip),
        Err(_) => None,
    }
}

/// Whether a packet is a part of a datagram.
pub fn is_fragment(ip: &Ip4<'_>) -> bool
    ensures { result ≡ is_fragment (packet ip.now).now }
{
    ip.more() || ip.offset() != 0
}

/// The datagram of which the packet is a part, or the whole: of the datagram's payload this was
/// captured, and it has `full_len` bytes.
#[inline(always)]
pub fn carrying<'a>(
    options: &Options,
    ip: &Ip4<'_>,
    payload: &'a [u8],
    full_len: usize,
) -> Datagram<'a>
    requires captured { length payload.now ≤ full_len }
    requires limit { full_len ≤ 65535 }
    ensures { datagram_from result ≡ carrying options.now (packet ip.now).now payload.now full_len }
{
    Datagram {
        src: ip.src(),
        dst: ip.dst(),
        protocol: ip.protocol(),
        payload,
        full_len,
        ip_len: (ip.header_len() + full_len) as u32,
        judged: options.check,
    }
}
