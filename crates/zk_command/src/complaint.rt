ghost use Rattle.std.specs.Prelude.{◌≡◌, ◌++◌, codes, decimal, IfOk};
ghost use Rattle.zk_text.specs.Span.{span_decimal};
ghost use Rattle.zk_base.specs.Ending.{kind_name};
ghost use Rattle.zk_command.specs.Complaint.{complaint_of, line};

use std::alloc::{AllocError, Global};
use zk_base::{Ending, ScriptKind};
use zk_value::{push_count, push_span};

/// What is complained of an ending on standard error: a line, or nothing where the run has ended well, or
/// was stopped by an input, by an output or for want of memory.
pub fn complaint_of(alloc: Global, ending: &Ending) -> Result<Vec<u8>, AllocError>
    ensures { IfOk result (λ text. text.items ≡ complaint_of ending.now) }
{
    match ending {
        Ending::Done | Ending::ReadFault | Ending::WriteFault | Ending::NoMemory => {
            Ok(Vec::new(alloc))
        }
        Ending::Usage { word } => usage(alloc, *word),
        Ending::ScriptRefused { file, place, kind } => {
            script_refused(alloc, file.as_slice(), *place, *kind)
        }
        Ending::NoInput { name } => no_input(alloc, name.as_slice()),
        Ending::CaptureRefused { name, place } => {
            at_byte(alloc, name.as_slice(), b" refused at byte ", *place)
        }
        Ending::CutShort { name, place } => {
            at_byte(alloc, name.as_slice(), b" cut at byte ", *place)
        }
        Ending::Flood { moment } => flood(alloc, moment.0),
    }
}

/// What each complaint begins with.
fn begun(alloc: Global) -> Result<Vec<u8>, AllocError>
    ensures { IfOk result (λ text. text.items ≡ codes "zeekoff: ") }
{
    Vec::from_slice(alloc, b"zeekoff: ")
}

fn usage(alloc: Global, word: usize) -> Result<Vec<u8>, AllocError>
    ensures { IfOk result (λ text. text.items ≡ line (codes "word " ++ decimal word ++ codes " is not understood")) }
{
    let mut text = begun(alloc)?;
    text.extend_from_slice(b"word ")?;
    push_count(&mut text, word as u64)?;
    text.extend_from_slice(b" is not understood\n")?;
    Ok(text)
}

fn script_refused(
    alloc: Global,
    file: &[u8],
    place: u64,
    kind: ScriptKind,
) -> Result<Vec<u8>, AllocError>
    ensures { IfOk result (λ text. text.items
        ≡ line (file.now ++ codes ", byte " ++ decimal place ++ codes ": " ++ kind_name kind)) }
{
    let mut text = begun(alloc)?;
    text.extend_from_slice(file)?;
    text.extend_from_slice(b", byte ")?;
    push_count(&mut text, place)?;
    text.extend_from_slice(b": ")?;
    text.extend_from_slice(kind.name())?;
    text.push(b'\n')?;
    Ok(text)
}

fn no_input(alloc: Global, name: &[u8]) -> Result<Vec<u8>, AllocError>
    ensures { IfOk result (λ text. text.items ≡ line (codes "no file " ++ name.now)) }
{
    let mut text = begun(alloc)?;
    text.extend_from_slice(b"no file ")?;
    text.extend_from_slice(name)?;
    text.push(b'\n')?;
    Ok(text)
}

/// What is said of a file at a byte.
fn at_byte(alloc: Global, name: &[u8], what: &[u8], place: u64) -> Result<Vec<u8>, AllocError>
    ensures { IfOk result (λ text. text.items ≡ line (name.now ++ what.now ++ decimal place)) }
{
    let mut text = begun(alloc)?;
    text.extend_from_slice(name)?;
    text.extend_from_slice(what)?;
    push_count(&mut text, place)?;
    text.push(b'\n')?;
    Ok(text)
}

fn flood(alloc: Global, moment: i64) -> Result<Vec<u8>, AllocError>
    ensures { IfOk result (λ text. text.items ≡ line (codes "flood at " ++ span_decimal moment)) }
{
    let mut text = begun(alloc)?;
    text.extend_from_slice(b"flood at ")?;
    push_span(&mut text, moment)?;
    text.push(b'\n')?;
    Ok(text)
}
