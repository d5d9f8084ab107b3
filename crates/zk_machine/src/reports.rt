ghost use Rattle.std.specs.Prelude.{◌≡◌, [], ◌∷◌, Some, unwrap_or, slice_get, filter_map, IfOk, OnOk, map};
ghost use Rattle.zk_lower.specs.Code.{types_in};
ghost use Rattle.zk_lower.specs.Leaves.{column_of};
ghost use Rattle.zk_lower.specs.View.{code_of};
ghost use Rattle.zk_typed.specs.Dispatch as dispatch;
ghost use Rattle.zk_typed.specs.Log as log;
ghost use Rattle.zk_machine.specs.Reports.{report_meant, report_values};
ghost use Rattle.zk_machine.specs.State.{cell_of, line_in, row_in, world_of};

use crate::world::World;
use std::alloc::Global;
use zk_base::{Bytes, Mem, Moment};
use zk_lower::Code;
use zk_tree::Place;
use zk_typed::FaultKind;
use zk_value::{Atom, Cell, Column, Out, Series, SharedBytes, push_count, push_span};

/// The name of a fault, as a row of the log `reporter` tells it.
pub fn fault_name(kind: FaultKind) -> &'static [u8]
    ensures { result.now ≡ dispatch.fault_name kind }
{
    match kind {
        FaultKind::NoIndex => b"NoIndex",
        FaultKind::NoField => b"NoField",
        FaultKind::Unset => b"Unset",
        FaultKind::ZeroDivisor => b"ZeroDivisor",
        FaultKind::Overflow => b"Overflow",
        FaultKind::Depth => b"Depth",
        FaultKind::TooLong => b"TooLong",
    }
}

/// The name of a file, where the code has it.
fn file_name(code: &Code, number: usize) -> &[u8]
    ensures { result.now ≡ unwrap_or (slice_get (types_in (code_of code.now)).files number) [] }
{
    match code.files.as_slice().get(number) {
        Some(name) => name.as_slice(),
        None => &[],
    }
}

/// A place as a person reads it: the file and the byte.
fn place_text(alloc: Global, code: &Code, place: Place) -> Result<Bytes, Mem>
    ensures { IfOk result (λ text. text ≡ dispatch.place_text (types_in (code_of code.now)) place) }
{
    let mut text = Vec::from_slice(alloc, file_name(code, place.file))?;
    text.extend_from_slice(b", byte ")?;
    push_count(&mut text, place.byte)?;
    Ok(Bytes::from(text))
}

/// A column of the log `reporter`.
fn reporter_column(alloc: Global, name: &[u8], kind: &[u8]) -> Result<Column, Mem>
    ensures { IfOk result (λ column. column_of column ≡ dispatch.reporter_column name.now kind.now) }
{
    Ok(Column {
        name: SharedBytes::copy_of(alloc, name)?,
        kind: SharedBytes::copy_of(alloc, kind)?,
        wire: false,
    })
}

/// The columns of the log `reporter` (Zeek manual, Reporter framework).
fn reporter_columns(alloc: Global) -> Result<Vec<Column>, Mem>
    ensures { IfOk result (λ columns. map column_of columns.items ≡ dispatch.reporter_columns) }
{
    Ok(vec![in alloc;
        reporter_column(alloc, b"ts", b"time")?,
        reporter_column(alloc, b"level", b"enum")?,
        reporter_column(alloc, b"message", b"string")?,
        reporter_column(alloc, b"location", b"string")?,
    ]?)
}

/// A cell with the text of a value.
fn plain_cell(text: Vec<u8>) -> Cell
    ensures { cell_of result ≡ log.One (log.Plain text.items) }
{
    Cell::One(Atom::Plain(Bytes::from(text)))
}

/// A cell with a string.
fn text_cell(text: SharedBytes) -> Cell
    ensures { cell_of result ≡ log.One (log.Text text) }
{
    Cell::One(Atom::Text(text))
}

/// The row of the log `reporter` that tells of a body at a place.
fn report_row(
    alloc: Global,
    code: &Code,
    message: &[u8],
    place: Place,
    time: Moment,
) -> Result<Out, Mem>
    ensures row { IfOk result (λ out. row_in out ≡ Some (report_meant (types_in (code_of code.now)) message.now place time)) }
    ensures no_line { IfOk result (λ out. filter_map line_in (out ∷ []) ≡ []) }
{
    let cells = report_cells(alloc, code, message, place, time)?;
    let columns = reporter_columns(alloc)?;
    Ok(Out::Row {
        path: Bytes::copy_of(alloc, b"reporter")?,
        columns: Series::from(columns),
        cells: Series::from(cells),
        at: time,
    })
}

/// The cells of that row.
fn report_cells(
    alloc: Global,
    code: &Code,
    message: &[u8],
    place: Place,
    time: Moment,
) -> Result<Vec<Cell>, Mem>
    ensures { IfOk result (λ cells. map cell_of cells.items ≡ report_values (types_in (code_of code.now)) message.now place time) }
{
    let mut at = Vec::new(alloc);
    push_span(&mut at, time.0)?;
    let at = plain_cell(at);
    let level = plain_cell(Vec::from_slice(alloc, b"Reporter::ERROR")?);
    let message = text_cell(SharedBytes::copy_of(alloc, message)?);
    let location = text_cell(SharedBytes::of(place_text(alloc, code, place)?)?);
    Ok(vec![in alloc; at, level, message, location]?)
}

impl World {
    /// Tells of a body that did not run to its end by a row of the log `reporter`.
    pub fn report(&mut self, code: &Code, message: &[u8], place: Place) -> Result<(), Mem>
        ensures { OnOk result (world_of self.new ≡ dispatch.reported (types_in (code_of code.now)) message.now place (world_of self.old)) }
    {
        let row = report_row(self.alloc, code, message, place, self.time)?;
        self.out.push_back(row)?;
        Ok(())
    }
}
