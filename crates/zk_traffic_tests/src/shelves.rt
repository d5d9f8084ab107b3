use std::alloc::Global;
use std::test::Fail;
use zk_base::{Bytes, Got, MemShelf, Shelf, Started, Wrote};

/// What each of seven calls in a row answers, in a letter, and `-` for a call that can't be made.
fn answers_of(shelf: &mut MemShelf) -> [u8; 7] {
    let mut answers = [b'-'; 7];
    let started = shelf.start(b"greeting");
    answers[0] = started_letter(started);
    if started == Started::Open {
        let mut buf = [0; 8];
        answers[1] = match shelf.read(&mut buf) {
            Got::Bytes(_) => b'B',
            Got::End => b'E',
            Got::Failed => b'F',
        };
    }
    answers[2] = wrote_letter(shelf.create(b"log"));
    if shelf.output(b"log").is_some() {
        answers[3] = wrote_letter(shelf.append(b"log", b"12345"));
    }
    answers[4] = wrote_letter(shelf.say(b"hello"));
    answers[5] = wrote_letter(shelf.complain(b"mistake"));
    answers[6] = started_letter(shelf.start(b"letter"));
    answers
}

fn started_letter(started: Started) -> u8 {
    match started {
        Started::Open => b'O',
        Started::Absent => b'A',
        Started::Failed => b'F',
        Started::NoMemory => b'N',
    }
}

fn wrote_letter(wrote: Wrote) -> u8 {
    match wrote {
        Wrote::Done => b'D',
        Wrote::Failed => b'F',
        Wrote::NoMemory => b'N',
    }
}

/// The calls that fail, what each call answers, the output, what is said and complained, and
/// the number of the last call.
type Row = (
    &'static [u64],
    &'static [u8; 7],
    Option<&'static [u8]>,
    &'static [u8],
    &'static [u8],
    u64,
);

const ROWS: [Row; 6] = [
    (&[], b"OBDDDDA", Some(b"12345"), b"hello", b"mistake", 7),
    (&[1], b"F-DDDDA", Some(b"12345"), b"hello", b"mistake", 6),
    (&[2], b"OFDDDDA", Some(b"12345"), b"hello", b"mistake", 7),
    (&[4], b"OBDFDDA", Some(b"12"), b"hello", b"mistake", 7),
    (&[5], b"OBDDFDA", Some(b"12345"), b"he", b"mistake", 7),
    (&[6, 4, 5], b"OBDFFFA", Some(b"12"), b"he", b"mis", 7),
];

/// The inputs of a shelf that has one.
pub fn one_input(alloc: Global, name: &[u8], content: &[u8]) -> Result<Vec<(Bytes, Bytes)>, Fail> {
    let name = Bytes::copy_of(alloc, name)?;
    let content = Bytes::copy_of(alloc, content)?;
    Ok(vec![in alloc; (name, content)]?)
}

/// A shelf with a greeting, at which the calls of these numbers fail.
fn greeting(alloc: Global, fails: &[u64]) -> Result<Box<MemShelf>, Fail> {
    let fails = Vec::from_slice(alloc, fails)?;
    let inputs = one_input(alloc, b"greeting", b"good day")?;
    let shelf = MemShelf::new(alloc, inputs, fails)?;
    Ok(Box::new(alloc, shelf)?)
}

/// Whether a shelf is left as its row says.
fn is_left(shelf: &MemShelf, row: &Row) -> bool {
    let (_, _, output, said, complained, calls) = row;
    shelf.output(b"log") == *output
        && shelf.said() == *said
        && shelf.complained() == *complained
        && shelf.calls() == *calls
}

#[test]
fn the_calls_that_are_told_fail_and_halve_their_pieces(rt: HostRuntime) -> Result<(), Fail> {
    for row in &ROWS {
        let mut shelf = greeting(rt.alloc(), row.0)?;
        assert!(rt; answers_of(&mut shelf) == *row.1);
        assert!(rt; is_left(&shelf, row));
    }
    Ok(())
}
