use std::test::Fail;
use zk_base::Addr;
use zk_text::{ADDR_TEXT_MAX, SPAN_TEXT_MAX, addr_text, span_text};

/// Addresses with the texts that RFC 5952 gives them in its sections 4 and 5, and the IPv4 form.
const ADDRESSES: [(Addr, &str); 8] = [
    (Addr::V4(0x0a00_0050), "10.0.0.80"),
    (Addr::V4(u32::MAX), "255.255.255.255"),
    (
        Addr::V6(0x2001_0db8_0000_0000_0001_0000_0000_0001),
        "2001:db8::1:0:0:1",
    ),
    (
        Addr::V6(0x2001_0db8_0000_0001_0001_0001_0001_0001),
        "2001:db8:0:1:1:1:1:1",
    ),
    (
        Addr::V6(0x2001_0db8_aaaa_bbbb_cccc_dddd_eeee_aaaa),
        "2001:db8:aaaa:bbbb:cccc:dddd:eeee:aaaa",
    ),
    (Addr::V6(1), "::1"),
    (Addr::V6(0), "::"),
    (Addr::V6(0xffff_c000_0201), "::ffff:c000:201"),
];

#[test]
fn addresses_print_in_their_recommended_form(rt: HostRuntime) -> Result<(), Fail> {
    for (addr, text) in &ADDRESSES {
        let mut out = [b'?'; ADDR_TEXT_MAX];
        let len = addr_text(*addr, &mut out)?;
        assert!(rt; &out[..len] == text.as_bytes(), "{text}");
    }
    Ok(())
}

/// Numbers of microseconds with what `format(Decimal(n).scaleb(-6), ".6f")` gives in Python.
const SPANS: [(i64, &str); 8] = [
    (0, "0.000000"),
    (1_999_999, "1.999999"),
    (-1, "-0.000001"),
    (1_700_000_000_020_000, "1700000000.020000"),
    (i64::MIN, "-9223372036854.775808"),
    (i64::MAX, "9223372036854.775807"),
    (-60_000_000, "-60.000000"),
    (300_000_001, "300.000001"),
];

#[test]
fn spans_print_as_seconds_with_six_decimals(rt: HostRuntime) -> Result<(), Fail> {
    for (n, text) in &SPANS {
        let mut out = [b'?'; SPAN_TEXT_MAX];
        let len = span_text(*n, &mut out)?;
        assert!(rt; &out[..len] == text.as_bytes(), "{text}");
    }
    Ok(())
}
