use std::test::Fail;
use zk_base::{ByteQueue, Bytes, Ending, Moment, ScriptKind, Word, is_right_checksum, word_sum};

#[test]
fn bytes_are_added_compared_and_given_back(rt: HostRuntime) -> Result<(), Fail> {
    let alloc = rt.alloc();
    let mut bytes = Bytes::copy_of(alloc, b"dns")?;
    bytes.clear();
    bytes.append(b"web.pcap")?;
    let same = Bytes::from(Vec::from_slice(alloc, b"web.pcap")?);
    assert!(rt; bytes == same);
    assert!(rt; Word::from(bytes).as_slice() == b"web.pcap".as_slice());
    Ok(())
}

#[test]
fn bytes_are_taken_in_the_order_in_which_they_were_added(rt: HostRuntime) -> Result<(), Fail> {
    let mut queue = ByteQueue::new(rt.alloc());
    queue.reserve(5)?;
    queue.append(b"abcd");
    queue.push(b'e');
    queue.take(1);
    assert!(rt; queue.as_slice() == b"bcde".as_slice());
    Ok(())
}

// The bytes, their sum and their checksum are those of RFC 1071, section 3.
#[test]
fn the_standards_example_sums_as_it_says(rt: HostRuntime) {
    let bytes = [0x00, 0x01, 0xf2, 0x03, 0xf4, 0xf5, 0xf6, 0xf7];
    assert!(rt; word_sum(&bytes) == 0x2ddf0);
    assert!(rt; word_sum(&bytes[..7]) == 0x2ddf0 - 0xf7);
    let checksum = 0xffff - 0xddf2;
    assert!(rt; is_right_checksum(0x2ddf0 + checksum));
}

#[test]
fn each_ending_has_its_status(rt: HostRuntime) {
    let alloc = rt.alloc();
    let rows = [
        (Ending::Done, 0),
        (Ending::Usage { word: 2 }, 1),
        (
            Ending::ScriptRefused {
                file: Bytes::new(alloc),
                place: 3,
                kind: ScriptKind::NoTree,
            },
            2,
        ),
        (
            Ending::CaptureRefused {
                name: Bytes::new(alloc),
                place: 20,
            },
            3,
        ),
        (
            Ending::CutShort {
                name: Bytes::new(alloc),
                place: 24,
            },
            4,
        ),
        (Ending::ReadFault, 5),
        (Ending::WriteFault, 6),
        (Ending::NoMemory, 7),
        (Ending::Flood { moment: Moment(0) }, 8),
        (
            Ending::NoInput {
                name: Bytes::new(alloc),
            },
            9,
        ),
    ];
    for (ending, status) in rows {
        assert!(rt; ending.status() == status);
    }
}
