use std::alloc::Global;
use std::test::Fail;
use zk_base::{Bytes, Mem, Proto};
use zk_token::{LexFault, tokens};
use zk_tree::{Sign, TokenKind};

/// What a row of the table expects at a place.
#[derive(Clone, Copy, Debug)]
enum Expected {
    Name(&'static [u8]),
    Number(u64),
    Port(u16, Proto),
    Address(u32),
    Subnet(u32, u8),
    String(&'static [u8]),
    Attribute(&'static [u8]),
    Load(&'static [u8]),
    Sign(Sign),
}

/// The kind of token that is expected.
fn kind(alloc: Global, expected: Expected) -> Result<TokenKind, Mem> {
    Ok(match expected {
        Expected::Name(name) => TokenKind::Name(Bytes::copy_of(alloc, name)?),
        Expected::Number(number) => TokenKind::Number(number),
        Expected::Port(port, proto) => TokenKind::Port { port, proto },
        Expected::Address(address) => TokenKind::Address(address),
        Expected::Subnet(prefix, width) => TokenKind::Subnet { prefix, width },
        Expected::String(bytes) => TokenKind::String(Bytes::copy_of(alloc, bytes)?),
        Expected::Attribute(name) => TokenKind::Attribute(Bytes::copy_of(alloc, name)?),
        Expected::Load(file) => TokenKind::Load(Bytes::copy_of(alloc, file)?),
        Expected::Sign(sign) => TokenKind::Sign(sign),
    })
}

/// Texts with their tokens, each with its place.
const READ: [(&[u8], &[(Expected, u64)]); 10] = [
    (
        b"a::b:c",
        &[
            (Expected::Name(b"a::b"), 0),
            (Expected::Sign(Sign::Colon), 4),
            (Expected::Name(b"c"), 5),
        ],
    ),
    (
        b"_a1 ::b a:: b\t# c\r\nd",
        &[
            (Expected::Name(b"_a1"), 0),
            (Expected::Sign(Sign::Colon), 4),
            (Expected::Sign(Sign::Colon), 5),
            (Expected::Name(b"b"), 6),
            (Expected::Name(b"a"), 8),
            (Expected::Sign(Sign::Colon), 9),
            (Expected::Sign(Sign::Colon), 10),
            (Expected::Name(b"b"), 12),
            (Expected::Name(b"d"), 19),
        ],
    ),
    (
        b"80/tcp 80 /tcp",
        &[
            (Expected::Port(80, Proto::Tcp), 0),
            (Expected::Number(80), 7),
            (Expected::Sign(Sign::Slash), 10),
            (Expected::Name(b"tcp"), 11),
        ],
    ),
    (
        b"010.0.255.1 1.2.3.256",
        &[
            (Expected::Address(0x0a00_ff01), 0),
            (Expected::Address(0x0102_0319), 12),
            (Expected::Number(6), 20),
        ],
    ),
    (
        b"1.2.3.4/8 1.2.3.4/33 1.2.3.4/32 255.255.255.255/0",
        &[
            (Expected::Subnet(0x0100_0000, 8), 0),
            (Expected::Subnet(0, 3), 10),
            (Expected::Number(3), 19),
            (Expected::Subnet(0x0102_0304, 32), 21),
            (Expected::Subnet(0, 0), 32),
        ],
    ),
    (
        b"\"\\x2F \\\"\\n#\\t\\r\\\\\\xfE\"",
        &[(Expected::String(b"/ \"\n#\t\r\\\xfe"), 0)],
    ),
    (
        b"&log&a::b &&c",
        &[
            (Expected::Attribute(b"log"), 0),
            (Expected::Attribute(b"a::b"), 4),
            (Expected::Sign(Sign::And), 10),
            (Expected::Name(b"c"), 12),
        ],
    ),
    (
        b"@load \t base/conn#;\r\n@load\t@load",
        &[
            (Expected::Load(b"base/conn#;"), 0),
            (Expected::Load(b"@load"), 21),
        ],
    ),
    (
        b"!in !in( !int !in_",
        &[
            (Expected::Sign(Sign::NotIn), 0),
            (Expected::Sign(Sign::NotIn), 4),
            (Expected::Sign(Sign::OpenParenthesis), 7),
            (Expected::Sign(Sign::Not), 9),
            (Expected::Name(b"int"), 10),
            (Expected::Sign(Sign::Not), 14),
            (Expected::Name(b"in_"), 15),
        ],
    ),
    (
        b"+++=--=-+*/%|||",
        &[
            (Expected::Sign(Sign::PlusPlus), 0),
            (Expected::Sign(Sign::PlusEqual), 2),
            (Expected::Sign(Sign::MinusMinus), 4),
            (Expected::Sign(Sign::Equal), 6),
            (Expected::Sign(Sign::Minus), 7),
            (Expected::Sign(Sign::Plus), 8),
            (Expected::Sign(Sign::Star), 9),
            (Expected::Sign(Sign::Slash), 10),
            (Expected::Sign(Sign::Percent), 11),
            (Expected::Sign(Sign::Or), 12),
            (Expected::Sign(Sign::Bar), 14),
        ],
    ),
];

#[test]
fn each_form_of_token_is_read_with_its_place(rt: HostRuntime) -> Result<(), Fail> {
    let alloc = rt.alloc();
    for (n, (text, expected)) in READ.iter().enumerate() {
        let read = tokens(alloc, text)?;
        assert!(rt; read.len() == expected.len(), "in row {n}");
        for (token, (wanted, place)) in read.as_slice().iter().zip(expected.iter()) {
            let same = token.kind == kind(alloc, *wanted)?;
            assert!(rt; same && token.place == *place, "in row {n}");
        }
    }
    Ok(())
}

/// Texts with their first fault.
const REFUSED: [(&[u8], LexFault); 9] = [
    (b"a ~", LexFault::BadByte { place: 2 }),
    (b"1.2.3.4.5", LexFault::BadByte { place: 7 }),
    (b"& a", LexFault::BadByte { place: 0 }),
    (b"@load \t\r\nx", LexFault::BadByte { place: 0 }),
    (
        b"print \"fine\\n\", \"a\\q\";",
        LexFault::BadByte { place: 18 },
    ),
    (b"global x = \"a", LexFault::OpenString { place: 11 }),
    (b"x = \"x\\qy;\n\"", LexFault::OpenString { place: 4 }),
    (b"1 18446744073709551616", LexFault::BigNumber { place: 2 }),
    (
        b"1.2.3.4/99999999999999999999999",
        LexFault::BigNumber { place: 9 },
    ),
];

#[test]
fn the_first_fault_is_told_with_its_place(rt: HostRuntime) -> Result<(), Fail> {
    let alloc = rt.alloc();
    for (n, (text, fault)) in REFUSED.iter().enumerate() {
        assert!(rt; tokens(alloc, text).err() == Some(*fault), "in row {n}");
    }
    Ok(())
}
