use std::alloc::Global;
use std::test::Fail;
use zk_base::{Bytes, Mem, SureShelf, Word};
use zk_top::run;

/// A run over inputs, and all that comes of it.
#[derive(Clone, Copy)]
pub struct Case<'a> {
    /// The words of the command line, with blanks between them.
    pub line: &'a [u8],
    /// The inputs that there are, by name.
    pub inputs: &'a [(&'a [u8], &'a [u8])],
    pub status: u8,
    pub said: &'a [u8],
    pub complained: &'a [u8],
    /// Files by name with all that they hold, in parts; one without parts isn't there.
    pub files: &'a [(&'a [u8], &'a [&'a [u8]])],
}

/// What of a run isn't as its case has it.
#[derive(Clone, Copy, Debug, PartialEq, Eq)]
pub enum Part {
    Status(u8),
    Said,
    Complained,
    /// A file, by its number among those of the case.
    File(usize),
}

/// The words of a command line, which blanks separate.
pub fn words(alloc: Global, line: &[u8]) -> Result<Vec<Word>, Mem> {
    let mut words = Vec::new(alloc);
    if line.is_empty() {
        return Ok(words);
    }
    for word in line.split(|byte| *byte == b' ') {
        words.push(Word::from(Bytes::copy_of(alloc, word)?))?;
    }
    Ok(words)
}

/// Inputs with these names and bytes.
pub fn inputs(alloc: Global, files: &[(&[u8], &[u8])]) -> Result<Vec<(Bytes, Bytes)>, Mem> {
    let mut inputs = Vec::new(alloc);
    for (name, bytes) in files {
        inputs.push((Bytes::copy_of(alloc, name)?, Bytes::copy_of(alloc, bytes)?))?;
    }
    Ok(inputs)
}

/// Whether a file holds parts one behind another, or isn't there where there are none.
fn holds(file: Option<&[u8]>, parts: &[&[u8]]) -> bool {
    let Some(mut rest) = file else {
        return parts.is_empty();
    };
    for part in parts {
        match rest.strip_prefix(*part) {
            Some(behind) => rest = behind,
            None => return false,
        }
    }
    rest.is_empty() && !parts.is_empty()
}

/// What a run leaves that isn't as its case has it, if anything.
fn differing(shelf: &SureShelf, status: u8, case: &Case) -> Option<Part> {
    if status != case.status {
        return Some(Part::Status(status));
    }
    if shelf.said() != case.said {
        return Some(Part::Said);
    }
    if shelf.complained() != case.complained {
        return Some(Part::Complained);
    }
    for (n, (name, parts)) in case.files.iter().enumerate() {
        if !holds(shelf.output(name), parts) {
            return Some(Part::File(n));
        }
    }
    None
}

/// Carries out a case over inputs, and tells what isn't as it has it, if anything.
fn difference(alloc: Global, files: &[(&[u8], &[u8])], case: &Case) -> Result<Option<Part>, Mem> {
    let words = words(alloc, case.line)?;
    let mut shelf = SureShelf::new(alloc, inputs(alloc, files)?)?;
    let ending = run(alloc, &words, &mut shelf);
    Ok(differing(&shelf, ending.status(), case))
}

/// That a case comes out over inputs as it says. It is that of a row.
pub fn comes_out_over(
    alloc: Global,
    files: &[(&[u8], &[u8])],
    case: &Case,
    row: usize,
) -> Result<(), Fail> {
    match difference(alloc, files, case)? {
        None => Ok(()),
        Some(part) => Err(Fail::new(format_args!("{part:?} in row {row}"))),
    }
}

/// The same over its own inputs.
pub fn comes_out(alloc: Global, case: &Case, row: usize) -> Result<(), Fail> {
    comes_out_over(alloc, case.inputs, case, row)
}

/// That each of these cases comes out as it says.
pub fn each_comes_out(alloc: Global, cases: &[Case]) -> Result<(), Fail> {
    for (n, case) in cases.iter().enumerate() {
        comes_out(alloc, case, n)?;
    }
    Ok(())
}
