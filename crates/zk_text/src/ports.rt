ghost use Rattle.std.specs.Prelude.{◌≡◌, ◌<◌, ◌≤◌, ◌↔◌, ◌++◌, ◌+◌, decimal, drop, length, IfOk, IsErr, IsOk, OnErr, OnOk};
ghost use Rattle.zk_text.specs.Port.{port_text, proto_name};

use crate::Short;
use crate::backward::Backward;
use crate::front::write_front;
use zk_base::Proto;

/// The length of the longest text of `port_text`, in bytes: that of 65535/tcp.
pub const PORT_TEXT_MAX: usize = 9;

/// Writes a port and its protocol, as `80/tcp`, to the front of a buffer, and answers the length in
/// bytes. `Short` comes exactly where the text is longer than the buffer.
pub fn port_text(port: u16, proto: Proto, out: &mut [u8]) -> Result<usize, Short>
    ensures len { IfOk result (λ len. len ≡ length (port_text port proto)) }
    ensures text { OnOk result (out.new ≡ port_text port proto ++ drop (length (port_text port proto)) out.old) }
    ensures short { IsErr result ↔ (length out.old < length (port_text port proto)) }
    ensures err { OnErr result (out.new ≡ out.old) }
    ensures bound { length (port_text port proto) ≤ PORT_TEXT_MAX }
    ensures room { PORT_TEXT_MAX ≤ length out.old → IsOk result }
{
    let mut text = Backward::new();
    text.put(proto_name(proto));
    text.put_byte(b'/');
    text.put_decimal(u64::from(port));
    write_front(text.text(), out)
}

/// The name of a protocol, as ports and the lines of connections have it.
pub fn proto_name(proto: Proto) -> &'static [u8]
    ensures name { result.now ≡ proto_name proto }
    ensures len { length result.now ≡ 3 }
{
    match proto {
        Proto::Tcp => b"tcp",
        Proto::Udp => b"udp",
    }
}
