use std::alloc::Global;
use std::env::{Env, FillError};
use std::test::Fail;
use zk_base::Word;
use zk_system::{ArgumentFault, words};

/// Arguments that stand in for those of the system.
#[derive(Drop)]
struct Given<'a>(&'a [&'a [u8]]);

impl Env for Given<'_> {
    fn arg(&self, i: usize, buf: &mut [u8]) -> Result<usize, FillError> {
        let Some(argument) = self.0.get(i) else {
            return Err(FillError::NotPresent);
        };
        if buf.len() < argument.len() {
            return Err(FillError::TooLong);
        }
        buf[..argument.len()].copy_from_slice(argument);
        Ok(argument.len())
    }

    fn var(&self, _name: &str, _buf: &mut [u8]) -> Result<usize, FillError> {
        Err(FillError::NotPresent)
    }

    fn var_at(&self, _i: usize, _buf: &mut [u8]) -> Result<usize, FillError> {
        Err(FillError::NotPresent)
    }
}

/// Whether these are the words of arguments.
fn gives(alloc: Global, arguments: &[&[u8]], wanted: &[&[u8]]) -> Result<bool, ArgumentFault> {
    let words = words(&(Given(arguments), alloc))?;
    Ok(are(&words, wanted))
}

fn are(words: &[Word], wanted: &[&[u8]]) -> bool {
    for (word, wanted) in words.iter().zip(wanted) {
        if word.as_slice() != *wanted {
            return false;
        }
    }
    words.len() == wanted.len()
}

#[test]
fn the_name_is_dropped_and_words_are_texts(rt: HostRuntime) -> Result<(), Fail> {
    let alloc = rt.alloc();
    let file = "ü.pcap".as_bytes();
    let some = gives(alloc, &[b"zeekoff", b"list", file], &[b"list", file]);
    assert!(rt; matches!(some, Ok(true)));
    let none = gives(alloc, &[], &[]);
    assert!(rt; matches!(none, Ok(true)));
    let broken = gives(alloc, &[b"zeekoff", b"list", b"\xff.pcap"], &[]);
    assert!(rt; matches!(broken, Err(ArgumentFault::NotText)));
    assert!(rt; ArgumentFault::NotText.status() == 10);
    Ok(())
}
