use std::alloc::Global;
use std::test::Fail;
use zk_dns::{Answer, AnswerKind, DnsFault, DnsRecord, Message};

/// A query for the address of www.example.com.
const QUERY: &[u8] = &[
    0x12, 0x34, 0x01, 0x00, 0x00, 0x01, 0x00, 0x00, 0x00, 0x00, 0x00, 0x00, 0x03, 0x77, 0x77, 0x77,
    0x07, 0x65, 0x78, 0x61, 0x6d, 0x70, 0x6c, 0x65, 0x03, 0x63, 0x6f, 0x6d, 0x00, 0x00, 0x01, 0x00,
    0x01,
];

/// Its reply: another name, and the address of that.
const REPLY: &[u8] = &[
    0x12, 0x34, 0x81, 0x80, 0x00, 0x01, 0x00, 0x02, 0x00, 0x00, 0x00, 0x00, 0x03, 0x77, 0x77, 0x77,
    0x07, 0x65, 0x78, 0x61, 0x6d, 0x70, 0x6c, 0x65, 0x03, 0x63, 0x6f, 0x6d, 0x00, 0x00, 0x01, 0x00,
    0x01, 0xc0, 0x0c, 0x00, 0x05, 0x00, 0x01, 0x00, 0x00, 0x01, 0x2c, 0x00, 0x02, 0xc0, 0x10, 0xc0,
    0x10, 0x00, 0x01, 0x00, 0x01, 0x00, 0x00, 0x01, 0x2c, 0x00, 0x04, 0x5d, 0xb8, 0xd8, 0x22,
];

/// A reply with an answer of each kind.
const KINDS: &[u8] = &[
    0x12, 0x34, 0x85, 0x83, 0x00, 0x01, 0x00, 0x0a, 0x00, 0x00, 0x00, 0x00, 0x03, 0x77, 0x77, 0x77,
    0x07, 0x65, 0x78, 0x61, 0x6d, 0x70, 0x6c, 0x65, 0x03, 0x63, 0x6f, 0x6d, 0x00, 0x00, 0x01, 0x00,
    0x01, 0x00, 0x00, 0x01, 0x00, 0x01, 0x00, 0x00, 0x01, 0x2c, 0x00, 0x04, 0x0a, 0x00, 0x00, 0x07,
    0x00, 0x00, 0x1c, 0x00, 0x01, 0x00, 0x00, 0x01, 0x2c, 0x00, 0x10, 0x20, 0x01, 0x0d, 0xb8, 0x00,
    0x00, 0x00, 0x00, 0x00, 0x00, 0x00, 0x00, 0x00, 0x00, 0x00, 0x01, 0x00, 0x00, 0x02, 0x00, 0x01,
    0x00, 0x00, 0x01, 0x2c, 0x00, 0x02, 0xc0, 0x0c, 0x00, 0x00, 0x05, 0x00, 0x01, 0x00, 0x00, 0x01,
    0x2c, 0x00, 0x03, 0x01, 0x43, 0x00, 0x00, 0x00, 0x0c, 0x00, 0x01, 0x00, 0x00, 0x01, 0x2c, 0x00,
    0x01, 0x00, 0x00, 0x00, 0x0f, 0x00, 0x01, 0x00, 0x00, 0x01, 0x2c, 0x00, 0x0a, 0x00, 0x0a, 0x04,
    0x6d, 0x61, 0x69, 0x6c, 0x01, 0x61, 0x00, 0x00, 0x00, 0x10, 0x00, 0x01, 0x00, 0x00, 0x01, 0x2c,
    0x00, 0x06, 0x02, 0x61, 0x62, 0x00, 0x01, 0x2c, 0x00, 0x00, 0x06, 0x00, 0x01, 0x00, 0x00, 0x01,
    0x2c, 0x00, 0x1a, 0x01, 0x61, 0x00, 0x01, 0x62, 0x00, 0x00, 0x00, 0x00, 0x01, 0x00, 0x00, 0x00,
    0x02, 0x00, 0x00, 0x00, 0x03, 0x00, 0x00, 0x00, 0x04, 0x00, 0x00, 0x00, 0x05, 0x00, 0x00, 0x29,
    0x00, 0x01, 0x00, 0x00, 0x01, 0x2c, 0x00, 0x03, 0x78, 0x79, 0x7a, 0x00, 0x00, 0x01, 0x00, 0x03,
    0x00, 0x00, 0x01, 0x2c, 0x00, 0x03, 0x31, 0x32, 0x33,
];

/// What the data of an answer is to say.
#[derive(Clone, Copy)]
enum Want {
    A(u32),
    Aaaa(u128),
    Name(&'static [u8]),
    Mx(u16, &'static [u8]),
    Txt(&'static [&'static [u8]]),
    Soa(&'static [u8], &'static [u8], [u32; 5]),
    Other,
}

fn says(what: &AnswerKind, want: &Want) -> bool {
    match (what, want) {
        (AnswerKind::A(address), Want::A(wanted)) => *address == *wanted,
        (AnswerKind::Aaaa(address), Want::Aaaa(wanted)) => *address == *wanted,
        (AnswerKind::Name(name), Want::Name(wanted)) => name.as_slice() == *wanted,
        (AnswerKind::Mx { preference, name }, Want::Mx(number, wanted)) => {
            *preference == *number && name.as_slice() == *wanted
        }
        (AnswerKind::Txt(strings), Want::Txt(wanted)) => {
            strings.len() == wanted.len()
                && strings
                    .as_slice()
                    .iter()
                    .zip(wanted.iter())
                    .all(|(string, wanted)| string.as_slice() == *wanted)
        }
        (
            AnswerKind::Soa {
                mname,
                rname,
                serial,
                refresh,
                retry,
                expire,
                minimum,
            },
            Want::Soa(first, second, numbers),
        ) => {
            mname.as_slice() == *first
                && rname.as_slice() == *second
                && [*serial, *refresh, *retry, *expire, *minimum] == *numbers
        }
        (AnswerKind::Other, Want::Other) => true,
        _ => false,
    }
}

/// The type, the class, the TTL and the data of an answer.
type Row = (u16, u16, u32, Want);

fn record_of(alloc: Global, bytes: &[u8]) -> Result<Box<DnsRecord>, Fail> {
    let record = Message::read(bytes)?.to_record(alloc)?;
    Ok(Box::new(alloc, record)?)
}

#[test]
fn a_query_is_told_field_by_field(rt: HostRuntime) -> Result<(), Fail> {
    let told = record_of(rt.alloc(), QUERY)?;
    assert!(rt; (told.id, told.opcode, told.rcode) == (4660, 0, 0));
    assert!(rt;
        (told.qr, told.aa, told.tc, told.rd, told.ra) == (false, false, false, true, false)
    );
    assert!(rt; told.counts == [1, 0, 0, 0]);
    assert!(rt; (told.questions.len(), told.answers.len()) == (1, 0));
    for question in told.questions.as_slice() {
        assert!(rt; question.name.as_slice() == b"www.example.com".as_slice());
        assert!(rt; (question.qtype, question.qclass) == (1, 1));
    }
    Ok(())
}

/// What tshark prints of the answers of `KINDS`.
const ANSWERS: [Row; 10] = [
    (1, 1, 300, Want::A(0x0a00_0007)),
    (
        28,
        1,
        300,
        Want::Aaaa(0x2001_0db8_0000_0000_0000_0000_0000_0001),
    ),
    (2, 1, 300, Want::Name(b"www.example.com")),
    (5, 1, 300, Want::Name(b"c")),
    (12, 1, 300, Want::Name(b".")),
    (15, 1, 300, Want::Mx(10, b"mail.a")),
    (16, 1, 300, Want::Txt(&[b"ab", b"", b","])),
    (6, 1, 300, Want::Soa(b"a", b"b", [1, 2, 3, 4, 5])),
    (41, 1, 300, Want::Other),
    (1, 3, 300, Want::Other),
];

/// Whether an answer about the root is what its row says.
fn is_told(answer: &Answer, row: &Row) -> bool {
    let (rtype, rclass, ttl, want) = row;
    (answer.rtype, answer.rclass, answer.ttl) == (*rtype, *rclass, *ttl)
        && answer.name.as_slice() == b".".as_slice()
        && says(&answer.what, want)
}

#[test]
fn answers_are_those_that_tshark_prints(rt: HostRuntime) -> Result<(), Fail> {
    let told = record_of(rt.alloc(), KINDS)?;
    assert!(rt; told.counts == [1, 10, 0, 0]);
    assert!(rt; (told.qr, told.aa, told.rd, told.ra, told.rcode) == (true, true, true, true, 3));
    assert!(rt; told.answers.len() == ANSWERS.len());
    for (answer, row) in told.answers.as_slice().iter().zip(ANSWERS.iter()) {
        assert!(rt; is_told(answer, row), "in type {}", row.0);
    }
    Ok(())
}

#[test]
fn a_part_is_named_by_its_place(rt: HostRuntime) -> Result<(), Fail> {
    let message = Message::read(REPLY)?;
    let mut questions = message.questions();
    let Some(question) = questions.next() else {
        panic!(&rt; "the question is missing");
    };
    let name = message.name_out(rt.alloc(), question.name)?;
    assert!(rt; name.as_slice() == b"www.example.com".as_slice());
    Ok(())
}

/// Messages that can't be read, each with its fault.
const FAULTS: [(&[u8], DnsFault); 14] = [
    // the header ends early
    (
        b"\x124\x01\x00\x00\x01\x00\x00\x00\x00\x00",
        DnsFault::Short { place: 11 },
    ),
    // a label passes the end
    (
        b"\x124\x01\x00\x00\x01\x00\x00\x00\x00\x00\x00\x05ab",
        DnsFault::Short { place: 15 },
    ),
    // data passes the end
    (
        b"\x124\x81\x80\x00\x00\x00\x01\x00\x00\x00\x00\x00\x00\x01\x00\x01\x00\x00\x01,\x00\x0412",
        DnsFault::Short { place: 25 },
    ),
    // a length byte 10 behind a label
    (
        b"\x124\x01\x00\x00\x01\x00\x00\x00\x00\x00\x00\x03www\x80\x00\x01\x00\x01",
        DnsFault::Label { place: 16 },
    ),
    // a length byte 01 in data
    (
        b"\x124\x81\x80\x00\x00\x00\x01\x00\x00\x00\x00\x00\x00\x02\x00\x01\x00\x00\x01,\x00\x03\x01a\x7f",
        DnsFault::Label { place: 25 },
    ),
    // a pointer to its own run, behind a label
    (
        b"\x124\x01\x00\x00\x01\x00\x00\x00\x00\x00\x00\x01a\xc0\x0c\x00\x01\x00\x01",
        DnsFault::Pointer { place: 14 },
    ),
    // a pointer onward
    (
        b"\x124\x01\x00\x00\x01\x00\x00\x00\x00\x00\x00\xc0\x12\x00\x01\x00\x01\x00",
        DnsFault::Pointer { place: 12 },
    ),
    // 256 bytes of name
    (
        b"\x124\x01\x00\x00\x01\x00\x00\x00\x00\x00\x00?aaaaaaaaaaaaaaaaaaaaaaaaaaaaaaaaaaaaaaaaaaaaaaaaaaaaaaaaaaaaaaa?aaaaaaaaaaaaaaaaaaaaaaaaaaaaaaaaaaaaaaaaaaaaaaaaaaaaaaaaaaaaaaa?aaaaaaaaaaaaaaaaaaaaaaaaaaaaaaaaaaaaaaaaaaaaaaaaaaaaaaaaaaaaaaa>aaaaaaaaaaaaaaaaaaaaaaaaaaaaaaaaaaaaaaaaaaaaaaaaaaaaaaaaaaaaaa\x00\x00\x01\x00\x01",
        DnsFault::Name { place: 204 },
    ),
    // an address of 3 bytes
    (
        b"\x124\x81\x80\x00\x00\x00\x01\x00\x00\x00\x00\x00\x00\x01\x00\x01\x00\x00\x01,\x00\x03123",
        DnsFault::Data { place: 23 },
    ),
    // a byte behind a name
    (
        b"\x124\x81\x80\x00\x00\x00\x01\x00\x00\x00\x00\x00\x00\x02\x00\x01\x00\x00\x01,\x00\x04\x01a\x00b",
        DnsFault::Data { place: 23 },
    ),
    // a name that passes its data
    (
        b"\x124\x81\x80\x00\x00\x00\x01\x00\x00\x00\x00\x00\x00\x05\x00\x01\x00\x00\x01,\x00\x02\x01a\x00",
        DnsFault::Data { place: 23 },
    ),
    // a mail exchange without a name
    (
        b"\x124\x81\x80\x00\x00\x00\x01\x00\x00\x00\x00\x00\x00\x0f\x00\x01\x00\x00\x01,\x00\x02\x00\x01",
        DnsFault::Data { place: 23 },
    ),
    // a string that passes its data
    (
        b"\x124\x81\x80\x00\x00\x00\x01\x00\x00\x00\x00\x00\x00\x10\x00\x01\x00\x00\x01,\x00\x03\x03ab",
        DnsFault::Data { place: 23 },
    ),
    // a byte behind the last record
    (
        b"\x124\x01\x00\x00\x01\x00\x00\x00\x00\x00\x00\x00\x00\x01\x00\x01\xff",
        DnsFault::Trailing { place: 17 },
    ),
];

#[test]
fn each_fault_is_told_with_its_place(rt: HostRuntime) {
    for (n, (bytes, fault)) in FAULTS.iter().enumerate() {
        assert!(rt; Message::read(bytes).err() == Some(*fault), "in row {n}");
    }
}

/// Messages that can be read.
const READ: [&[u8]; 5] = [
    // 255 bytes of name
    b"\x124\x01\x00\x00\x01\x00\x00\x00\x00\x00\x00?aaaaaaaaaaaaaaaaaaaaaaaaaaaaaaaaaaaaaaaaaaaaaaaaaaaaaaaaaaaaaaa?aaaaaaaaaaaaaaaaaaaaaaaaaaaaaaaaaaaaaaaaaaaaaaaaaaaaaaaaaaaaaaa?aaaaaaaaaaaaaaaaaaaaaaaaaaaaaaaaaaaaaaaaaaaaaaaaaaaaaaaaaaaaaaa=aaaaaaaaaaaaaaaaaaaaaaaaaaaaaaaaaaaaaaaaaaaaaaaaaaaaaaaaaaaaa\x00\x00\x01\x00\x01",
    // the root
    b"\x124\x01\x00\x00\x01\x00\x00\x00\x00\x00\x00\x00\x00\x01\x00\x01",
    // an address of 3 bytes in class 3
    b"\x124\x81\x80\x00\x00\x00\x01\x00\x00\x00\x00\x00\x00\x01\x00\x03\x00\x00\x01,\x00\x03123",
    // data of another type
    b"\x124\x81\x80\x00\x00\x00\x01\x00\x00\x00\x00\x00\x00)\x00\x01\x00\x00\x01,\x00\x03xyz",
    // a pointer to the owner of its record
    b"\x124\x81\x80\x00\x00\x00\x01\x00\x00\x00\x00\x00\x00\x02\x00\x01\x00\x00\x01,\x00\x02\xc0\x0c",
];

#[test]
fn a_name_of_255_bytes_and_data_of_another_class_are_read(rt: HostRuntime) {
    for (n, bytes) in READ.iter().enumerate() {
        assert!(rt; Message::read(bytes).is_ok(), "in row {n}");
    }
}
