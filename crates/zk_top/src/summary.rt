ghost use Rattle.std.specs.Prelude.{◌≡◌, ◌++◌, codes, decimal, IfOk, OnOk};
ghost use Rattle.zk_io.specs.Said.{line_end};
ghost use Rattle.zk_top.specs.Summary.{and_one, and_row, no_rows, summary_line, summary_text};

use std::alloc::{AllocError, Global};
use zk_base::Mem;
use zk_value::push_count;

/// How many rows the logs of the default scripts have got.
#[derive(Clone, Copy, Debug, PartialEq, Eq)]
pub struct RowCounts {
    pub conn: u64,
    pub dns: u64,
    pub http: u64,
}

impl RowCounts {
    /// Before the first row.
    pub fn new() -> RowCounts
        ensures { result ≡ no_rows }
    {
        RowCounts {
            conn: 0,
            dns: 0,
            http: 0,
        }
    }

    /// With one more row, of a path. A count past 2^64 - 1 isn't held.
    pub fn and_row(self, path: &[u8]) -> Result<RowCounts, Mem>
        ensures { IfOk result (λ counts. counts ≡ and_row self path.now) }
    {
        Ok(RowCounts {
            conn: and_one(self.conn, path, b"conn")?,
            dns: and_one(self.dns, path, b"dns")?,
            http: and_one(self.http, path, b"http")?,
        })
    }
}

/// A count of the rows of one path, after a row.
fn and_one(count: u64, path: &[u8], counted: &[u8]) -> Result<u64, Mem>
    ensures { IfOk result (λ more. more ≡ and_one counted.now count path.now) }
{
    if path != counted {
        return Ok(count);
    }
    match count.checked_add(1) {
        Some(more) => Ok(more),
        None => Err(Mem),
    }
}

/// What is said of a run over a capture that was made by rule: its packets and bytes, and the rows.
pub fn summary_text(
    alloc: Global,
    packets: u64,
    bytes: u64,
    rows: RowCounts,
) -> Result<Vec<u8>, AllocError>
    ensures { IfOk result (λ text. text.items ≡ summary_text packets bytes rows) }
{
    let mut text = Vec::new(alloc);
    push_line(&mut text, b"packets ", packets)?;
    push_line(&mut text, b"bytes ", bytes)?;
    push_line(&mut text, b"conn ", rows.conn)?;
    push_line(&mut text, b"dns ", rows.dns)?;
    push_line(&mut text, b"http ", rows.http)?;
    Ok(text)
}

/// Adds a line: a word with a blank behind it, and a number.
fn push_line(text: &mut Vec<u8>, word: &[u8], number: u64) -> Result<(), AllocError>
    ensures { OnOk result (text.new.items ≡ text.old.items ++ summary_line word.now number) }
{
    text.extend_from_slice(word)?;
    push_count(text, number)?;
    text.push(b'\n')?;
    Ok(())
}
