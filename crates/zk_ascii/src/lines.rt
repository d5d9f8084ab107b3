ghost use Rattle.std.specs.Prelude.{◌≡◌, ◌∷◌, ◌++◌, IfOk, OnOk};
ghost use Rattle.std.specs.List.{flat_map};
ghost use Rattle.zk_ascii.specs.Dates.{HasDate, stamp};
ghost use Rattle.zk_ascii.specs.Text.{header_text, close_text};

use crate::dates::stamp;
use std::alloc::{AllocError, Global};
use zk_base::{Bytes, Mem, Moment};
use zk_value::Column;

/// The lines that begin the log of a path (Zeek manual, Log Files): its separators, its words for what is
/// empty or unset, the path, when it was opened, and the names and types of its columns. A log
/// without columns has the bare words `#fields` and `#types`.
pub fn header(alloc: Global, path: &[u8], columns: &[Column], opened: Moment) -> Result<Bytes, Mem>
    requires { HasDate opened }
    ensures { IfOk result (λ bytes. bytes ≡ header_text path.now columns.now opened) }
{
    let mut out = Vec::new(alloc);
    out.extend_from_slice(b"#separator \\x09\n#set_separator\t,\n#empty_field\t(empty)\n")?;
    out.extend_from_slice(b"#unset_field\t-\n#path\t")?;
    out.extend_from_slice(path)?;
    out.extend_from_slice(b"\n#open\t")?;
    out.extend_from_slice(&stamp(opened))?;
    out.extend_from_slice(b"\n#fields")?;
    push_names(&mut out, columns)?;
    out.extend_from_slice(b"\n#types")?;
    push_kinds(&mut out, columns)?;
    out.extend_from_slice(b"\n")?;
    Ok(Bytes::from(out))
}

/// The line that ends a log: when it was closed.
pub fn close(alloc: Global, at: Moment) -> Result<Bytes, Mem>
    requires { HasDate at }
    ensures { IfOk result (λ bytes. bytes ≡ close_text at) }
{
    let mut out = Vec::new(alloc);
    out.extend_from_slice(b"#close\t")?;
    out.extend_from_slice(&stamp(at))?;
    out.extend_from_slice(b"\n")?;
    Ok(Bytes::from(out))
}

/// Adds the names of columns, each behind a tab.
fn push_names(out: &mut Vec<u8>, columns: &[Column]) -> Result<(), AllocError>
    ensures { OnOk result (out.new.items ≡ out.old.items ++ flat_map (λ column. 9 ∷ column.name) columns.now) }
{
    for column in columns {
        out.push(b'\t')?;
        out.extend_from_slice(column.name.as_slice())?;
    }
    Ok(())
}

/// Adds the names of the types of columns, each behind a tab.
fn push_kinds(out: &mut Vec<u8>, columns: &[Column]) -> Result<(), AllocError>
    ensures { OnOk result (out.new.items ≡ out.old.items ++ flat_map (λ column. 9 ∷ column.kind) columns.now) }
{
    for column in columns {
        out.push(b'\t')?;
        out.extend_from_slice(column.kind.as_slice())?;
    }
    Ok(())
}
