ghost use Rattle.std.specs.Prelude.{◌≡◌, ◌<◌, ◌++◌, length, Ok, IfOk, IsOk};
ghost use Rattle.std.specs.Str.{str_to_ascii_lowercase};
ghost use Rattle.zk_dns.specs.Name.{run_at, whole};
ghost use Rattle.zk_dns.specs.Skips.{AreSkips};
ghost use Rattle.zk_dns.specs.Text.{HasName, labels_behind, text_at, text_with};

use crate::name::target_at;
use crate::skips::skip;
use std::alloc::Global;
use zk_base::{Bytes, Mem};

/// The name at a place as text: its labels in ASCII lower case, joined by dots; the root is a dot.
/// `skips` cuts chains of pointers short.
pub fn name_text(alloc: Global, bytes: &[u8], skips: &[u16], place: usize) -> Result<Bytes, Mem>
    requires name { HasName bytes.now place }
    requires skips { AreSkips bytes.now skips.now }
    ensures { IfOk result (λ text. text_at bytes.now place ≡ Ok text) }
{
    let mut text = Vec::new(alloc);
    let mut start = place;
    loop {
        let ending = push_labels(&mut text, bytes, start)?;
        if bytes[ending] == 0 {
            break;
        }
        start = skip(skips, target_at(bytes, ending));
    }
    if text.is_empty() {
        text.push(b'.')?;
    }
    Ok(Bytes::from(text))
}

/// Adds the labels of the run at a place, and gives the place of what ends it.
fn push_labels(text: &mut Vec<u8>, bytes: &[u8], start: usize) -> Result<usize, Mem>
    requires { IsOk (run_at bytes.now (whole bytes.now) 0 start) }
    ensures text { IfOk result (λ ending.
        labels_behind text.old.items (run_at bytes.now (whole bytes.now) 0 start) ≡ Ok (text.new.items, ending)) }
    ensures within { IfOk result (λ ending. ending < length bytes.now) }
{
    let mut place = start;
    while let len @ 1..=63 = bytes[place] {
        let behind = place + 1 + usize::from(len);
        push_label(text, &bytes[place + 1..behind])?;
        place = behind;
    }
    Ok(place)
}

/// Adds a label in lower case, behind a dot where it is not the first.
fn push_label(text: &mut Vec<u8>, label: &[u8]) -> Result<(), Mem>
    ensures { IfOk result (λ _. text.new.items ≡ text_with text.old.items label.now) }
{
    if text.is_empty() {
        return push_lowercase(text, label);
    }
    text.push(b'.')?;
    push_lowercase(text, label)
}

/// Adds a label in ASCII lower case.
fn push_lowercase(text: &mut Vec<u8>, label: &[u8]) -> Result<(), Mem>
    ensures { IfOk result (λ _. text.new.items ≡ text.old.items ++ str_to_ascii_lowercase label.now) }
{
    for byte in label {
        text.push(byte.to_ascii_lowercase())?;
    }
    Ok(())
}
