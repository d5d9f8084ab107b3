ghost use Rattle.std.specs.Prelude.{◌≡◌, ◌≤◌, ◌++◌, decimal, OnErr, OnOk};
ghost use Rattle.std.specs.Fmt.{signed_decimal};
ghost use Rattle.zk_base.specs.declared.network.Addr.TheVariants.{V4};
ghost use Rattle.zk_text.specs.Address.{addr_text, subnet_text};
ghost use Rattle.zk_text.specs.Port.{port_text};
ghost use Rattle.zk_text.specs.Span.{span_decimal};

use std::alloc::AllocError;
use zk_base::{Addr, Proto};
use zk_text::{
    ADDR_TEXT_MAX, COUNT_TEXT_MAX, INT_TEXT_MAX, PORT_TEXT_MAX, SPAN_TEXT_MAX, SUBNET_TEXT_MAX,
    addr_text, count_text, int_text, port_text, span_text, subnet_text,
};

/// Adds the decimal digits of a number, as `print` writes a `count` (Zeek manual, Types, count). Where
/// memory is wanting nothing is added.
pub fn push_count(out: &mut Vec<u8>, n: u64) -> Result<(), AllocError>
    ensures ok { OnOk result (out.new.items ≡ out.old.items ++ decimal n) }
    ensures err { OnErr result (out.new.items ≡ out.old.items) }
{
    let mut text = [0; COUNT_TEXT_MAX];
    let Ok(len) = count_text(n, &mut text) else {
        unreachable!()
    };
    out.extend_from_slice(&text[..len])
}

/// Adds the decimal digits of a number that may be negative, as `print` writes an `int` (Zeek manual,
/// Types, int). Where memory is wanting nothing is added.
pub fn push_int(out: &mut Vec<u8>, n: i64) -> Result<(), AllocError>
    ensures ok { OnOk result (out.new.items ≡ out.old.items ++ signed_decimal n) }
    ensures err { OnErr result (out.new.items ≡ out.old.items) }
{
    let mut text = [0; INT_TEXT_MAX];
    let Ok(len) = int_text(n, &mut text) else {
        unreachable!()
    };
    out.extend_from_slice(&text[..len])
}

/// Adds a number of microseconds as seconds with six decimals, the form in which `print` writes a
/// `time` here (Zeek itself writes it otherwise). Where memory is wanting nothing is added.
pub fn push_span(out: &mut Vec<u8>, n: i64) -> Result<(), AllocError>
    ensures ok { OnOk result (out.new.items ≡ out.old.items ++ span_decimal n) }
    ensures err { OnErr result (out.new.items ≡ out.old.items) }
{
    let mut text = [0; SPAN_TEXT_MAX];
    let Ok(len) = span_text(n, &mut text) else {
        unreachable!()
    };
    out.extend_from_slice(&text[..len])
}

/// Adds an address, as `print` writes an `addr` (Zeek manual, Types, addr). Where memory is wanting
/// nothing is added.
pub fn push_addr(out: &mut Vec<u8>, address: Addr) -> Result<(), AllocError>
    ensures ok { OnOk result (out.new.items ≡ out.old.items ++ addr_text address) }
    ensures err { OnErr result (out.new.items ≡ out.old.items) }
{
    let mut text = [0; ADDR_TEXT_MAX];
    let Ok(len) = addr_text(address, &mut text) else {
        unreachable!()
    };
    out.extend_from_slice(&text[..len])
}

/// Adds an IPv4 prefix and its width, as `print` writes a `subnet` (Zeek manual, Types, subnet). Where
/// memory is wanting nothing is added.
pub fn push_subnet(out: &mut Vec<u8>, prefix: u32, width: u8) -> Result<(), AllocError>
    ensures ok { OnOk result (out.new.items ≡ out.old.items ++ subnet_text (V4 prefix) width) }
    ensures err { OnErr result (out.new.items ≡ out.old.items) }
{
    let mut text = [0; SUBNET_TEXT_MAX];
    let Ok(len) = subnet_text(Addr::V4(prefix), width, &mut text) else {
        unreachable!()
    };
    out.extend_from_slice(&text[..len])
}

/// Adds a port and its protocol, as `print` writes a `port` (Zeek manual, Types, port). Where memory is
/// wanting nothing is added.
pub fn push_port(out: &mut Vec<u8>, port: u16, proto: Proto) -> Result<(), AllocError>
    ensures ok { OnOk result (out.new.items ≡ out.old.items ++ port_text port proto) }
    ensures err { OnErr result (out.new.items ≡ out.old.items) }
{
    let mut text = [0; PORT_TEXT_MAX];
    let Ok(len) = port_text(port, proto, &mut text) else {
        unreachable!()
    };
    out.extend_from_slice(&text[..len])
}
