ghost use Rattle.std.specs.Prelude.{◌≡◌, ◌∷◌, ◌++◌, IfOk, OnOk};
ghost use Rattle.std.specs.List.{flat_map};
ghost use Rattle.zk_text.specs.Escape.{escaped};
ghost use Rattle.zk_ascii.specs.Text.{row_text, cells_text, cell_text, atom_text, string_text, atoms_text, element_text};

use std::alloc::Global;
use zk_base::{Bytes, Mem};
use zk_text::escape_into;
use zk_value::{Atom, Cell};

/// What stands for an empty string, set or vector.
const EMPTY: &[u8] = b"(empty)";

/// No byte takes more than this many bytes in the text of a string.
const ESCAPE_LEN: usize = 4;

/// The line of a row: the texts of its cells, with tabs between them (Zeek manual, Log Files).
pub fn row(alloc: Global, cells: &[Cell]) -> Result<Bytes, Mem>
    ensures { IfOk result (λ bytes. bytes ≡ row_text cells.now) }
{
    let mut out = Vec::new(alloc);
    push_cells(alloc, &mut out, cells)?;
    out.extend_from_slice(b"\n")?;
    Ok(Bytes::from(out))
}

/// Adds the texts of cells, with tabs between them.
fn push_cells(alloc: Global, out: &mut Vec<u8>, cells: &[Cell]) -> Result<(), Mem>
    ensures { OnOk result (out.new.items ≡ out.old.items ++ cells_text cells.now) }
{
    let [first, rest @ ..] = cells else {
        return Ok(());
    };
    push_cell(alloc, out, first)?;
    for cell in rest {
        out.push(b'\t')?;
        push_cell(alloc, out, cell)?;
    }
    Ok(())
}

/// Adds the text of a cell.
fn push_cell(alloc: Global, out: &mut Vec<u8>, cell: &Cell) -> Result<(), Mem>
    ensures { OnOk result (out.new.items ≡ out.old.items ++ cell_text cell.now) }
{
    match cell {
        Cell::Unset => Ok(out.extend_from_slice(b"-")?),
        Cell::One(atom) => push_atom(alloc, out, atom),
        Cell::Many(atoms) => push_atoms(alloc, out, atoms.as_slice()),
    }
}

/// Adds the text of a value that stands alone.
fn push_atom(alloc: Global, out: &mut Vec<u8>, atom: &Atom) -> Result<(), Mem>
    ensures { OnOk result (out.new.items ≡ out.old.items ++ atom_text atom.now) }
{
    match atom {
        Atom::Text(string) => push_string(alloc, out, string.as_slice()),
        Atom::Plain(text) => Ok(out.extend_from_slice(text.as_slice())?),
    }
}

/// Adds the text of a string that stands alone.
fn push_string(alloc: Global, out: &mut Vec<u8>, string: &[u8]) -> Result<(), Mem>
    ensures { OnOk result (out.new.items ≡ out.old.items ++ string_text string.now) }
{
    match string {
        [] => Ok(out.extend_from_slice(EMPTY)?),
        [_, ..] => push_escaped(alloc, out, string, false),
    }
}

/// Adds the texts of the elements of a set or a vector, with commas between them.
fn push_atoms(alloc: Global, out: &mut Vec<u8>, atoms: &[Atom]) -> Result<(), Mem>
    ensures { OnOk result (out.new.items ≡ out.old.items ++ atoms_text atoms.now) }
{
    let [first, rest @ ..] = atoms else {
        return Ok(out.extend_from_slice(EMPTY)?);
    };
    push_element(alloc, out, first)?;
    for atom in rest {
        out.push(b',')?;
        push_element(alloc, out, atom)?;
    }
    Ok(())
}

/// Adds the text of an element of a set or a vector.
fn push_element(alloc: Global, out: &mut Vec<u8>, atom: &Atom) -> Result<(), Mem>
    ensures { OnOk result (out.new.items ≡ out.old.items ++ element_text atom.now) }
{
    match atom {
        Atom::Text(string) => push_escaped(alloc, out, string.as_slice(), true),
        Atom::Plain(text) => Ok(out.extend_from_slice(text.as_slice())?),
    }
}

/// Adds a string as cells have it.
fn push_escaped(alloc: Global, out: &mut Vec<u8>, string: &[u8], in_set: bool) -> Result<(), Mem>
    ensures { OnOk result (out.new.items ≡ out.old.items ++ escaped in_set string.now) }
{
    let Some(room) = string.len().checked_mul(ESCAPE_LEN) else {
        return Err(Mem);
    };
    let mut text = vec![in alloc; 0_u8; room]?;
    let Ok(len) = escape_into(string, in_set, &mut text) else {
        unreachable!()
    };
    out.extend_from_slice(&text[..len])?;
    Ok(())
}
