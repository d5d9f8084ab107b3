ghost use Rattle.std.specs.Prelude.{◌≡◌, ◌++◌, ◌∷◌, [], Some, map, filter_map, slice_get, IfOk, OnOk};
ghost use Rattle.std.specs.Option.{option_map};
ghost use Rattle.zk_lower.specs.Code.{types_in};
ghost use Rattle.zk_lower.specs.Leaves.{column_of, leaf_of};
ghost use Rattle.zk_lower.specs.View.{code_of};
ghost use Rattle.zk_tree.specs.declared.place.Place.{Place as At};
ghost use Rattle.zk_typed.specs.Columns as columns;
ghost use Rattle.zk_typed.specs.Objects as objects;
ghost use Rattle.zk_typed.specs.Logs as logs;
ghost use Rattle.zk_typed.specs.Program.{Program};
ghost use Rattle.zk_value.specs.Plain.{value_of, key_of, field_of};
ghost use Rattle.zk_table.specs.Lent.{object_of};
ghost use Rattle.zk_machine.specs.Comes.{Comes};
ghost use Rattle.zk_machine.specs.Rows.{row_meant};
ghost use Rattle.zk_machine.specs.Running.{stream_in};
ghost use Rattle.zk_machine.specs.State.{atom_of, cell_of, line_in, row_in, state_of, world_of};

use crate::frames::Write;
use crate::halt::Halt;
use crate::onward::path_of;
use crate::state::State;
use crate::world::World;
use std::alloc::Global;
use zk_base::{Bytes, Mem};
use zk_builtin::push_value;
use zk_lower::{Code, Leaf};
use zk_streams::Filter;
use zk_table::{Heap, Lent};
use zk_value::{Atom, Cell, Column, Key, Out, Series, Value, push_count};

/// The element at a place.
fn at<T: Copy>(all: &[T], place: u32) -> Option<T>
    ensures { result ≡ slice_get all.now place }
{
    match all.get(place as usize) {
        Some(one) => Some(*one),
        None => None,
    }
}

/// The list's elements at these places.
fn picked<T: Copy>(alloc: Global, all: &[T], places: &[u32]) -> Result<Vec<T>, Mem>
    ensures { IfOk result (λ picked. picked.items ≡ logs.picked all.now places.now) }
{
    let mut picked = Vec::with_capacity(alloc, places.len())?;
    for place in places {
        if let Some(one) = at(all, *place) {
            picked.push(one)?;
        }
    }
    Ok(picked)
}

/// The text of most values other than strings takes no more bytes, so that it takes its memory in one go.
const TEXT_LEN: usize = 24;

/// A value in a cell: a string's bytes, a port's number alone, and the text of any other value.
fn atom(alloc: Global, value: &Value) -> Result<Atom, Mem>
    ensures { IfOk result (λ atom. atom_of atom ≡ columns.atom (value_of value.now)) }
{
    match value {
        Value::String(bytes) => Ok(Atom::Text(bytes.clone()?)),
        Value::Port { port, .. } => {
            let mut text = Vec::with_capacity(alloc, TEXT_LEN)?;
            push_count(&mut text, u64::from(*port))?;
            Ok(Atom::Plain(Bytes::from(text)))
        }
        _ => {
            let mut text = Vec::with_capacity(alloc, TEXT_LEN)?;
            push_value(&mut text, value)?;
            Ok(Atom::Plain(Bytes::from(text)))
        }
    }
}

/// The items of a vector in a cell.
fn item_atoms(alloc: Global, items: &[Value]) -> Result<Vec<Atom>, Mem>
    ensures { IfOk result (λ atoms. map atom_of atoms.items ≡ map columns.atom (key_of items.now)) }
{
    let mut atoms = Vec::with_capacity(alloc, items.len())?;
    for item in items {
        atoms.push(atom(alloc, item)?)?;
    }
    Ok(atoms)
}

/// Adds the first value of a key.
fn push_first(alloc: Global, atoms: &mut Vec<Atom>, key: &[Value]) -> Result<(), Mem>
    ensures { OnOk result (map atom_of atoms.new.items ≡ map atom_of atoms.old.items ++ columns.first_atoms (key_of key.now ∷ [])) }
{
    match key {
        [value, ..] => {
            atoms.push(atom(alloc, value)?)?;
            Ok(())
        }
        [] => Ok(()),
    }
}

/// The members of a set in a cell: the first value of each key.
fn key_atoms(alloc: Global, keys: &[Key]) -> Result<Vec<Atom>, Mem>
    ensures { IfOk result (λ atoms. map atom_of atoms.items ≡ columns.first_atoms (map key_of keys.now)) }
{
    let mut atoms = Vec::with_capacity(alloc, keys.len())?;
    for key in keys {
        push_first(alloc, &mut atoms, key.as_slice())?;
    }
    Ok(atoms)
}

/// The cell of an object.
fn object_cell(alloc: Global, object: Option<Lent<'_>>) -> Result<Cell, Mem>
    ensures { IfOk result (λ cell. cell_of cell ≡ columns.object_cell (option_map object_of object.entry)) }
{
    match object {
        Some(lent) => match lent {
            Lent::Record { .. } => Ok(Cell::Unset),
            Lent::Vector(items) => Ok(Cell::Many(Series::from(item_atoms(alloc, items)?))),
            Lent::Table(table) => {
                let keys = table.keys()?;
                Ok(Cell::Many(Series::from(key_atoms(alloc, &keys)?)))
            }
        },
        None => Ok(Cell::Unset),
    }
}

/// The cell of a field that may have a value.
fn value_cell(alloc: Global, heap: &Heap, value: Option<&Value>) -> Result<Cell, Mem>
    ensures { IfOk result (λ cell. cell_of cell ≡ columns.value_cell heap.now.objects (option_map (λ one. value_of one.now) value.entry)) }
{
    match value {
        Some(value) => match value {
            Value::Object(number) => object_cell(alloc, heap.object(*number)),
            _ => Ok(Cell::One(atom(alloc, value)?)),
        },
        None => Ok(Cell::Unset),
    }
}

/// A field of what a value names, where both are there.
fn field_behind<'a>(heap: &'a Heap, value: Option<&'a Value>, number: u32) -> Option<&'a Value>
    ensures { option_map (λ one. value_of one.now) result ≡ objects.in_field number (columns.fields_behind heap.now.objects (option_map (λ one. value_of one.now) value.entry)) }
{
    let Value::Object(object) = value? else {
        return None;
    };
    match heap.object(*object)? {
        Lent::Record { fields, .. } => fields.get(number as usize)?.as_ref(),
        Lent::Vector(_) => None,
        Lent::Table(_) => None,
    }
}

/// The value that fields lead to from a record, where each of them has one.
fn value_at<'a>(heap: &'a Heap, path: &[u32], from: &'a Value) -> Option<&'a Value>
    ensures { option_map (λ one. value_of one.now) result ≡ columns.value_at heap.now.objects path.now (Some (value_of from.now)) }
{
    let mut value = Some(from);
    for number in path {
        value = field_behind(heap, value, *number);
    }
    value
}

/// The cells of a record.
fn cells(alloc: Global, heap: &Heap, leaves: &[&Leaf], row: &Value) -> Result<Vec<Cell>, Mem>
    ensures { IfOk result (λ cells. map cell_of cells.items ≡ map (λ leaf. columns.value_cell heap.now.objects (columns.value_at heap.now.objects leaf.now.path.items (Some (value_of row.now)))) leaves.now) }
{
    let mut cells = Vec::with_capacity(alloc, leaves.len())?;
    for leaf in leaves {
        cells.push(value_cell(alloc, heap, value_at(heap, &leaf.path, row))?)?;
    }
    Ok(cells)
}

/// The columns of leaves, whose texts are shared.
fn columns_of(alloc: Global, leaves: &[&Leaf]) -> Result<Vec<Column>, Mem>
    ensures { IfOk result (λ columns. map column_of columns.items ≡ map (λ leaf. column_of leaf.now.column) leaves.now) }
{
    let mut columns = Vec::with_capacity(alloc, leaves.len())?;
    for leaf in leaves {
        columns.push(leaf.column.clone()?)?;
    }
    Ok(columns)
}

/// References to leaves.
fn lent(alloc: Global, leaves: &[Leaf]) -> Result<Vec<&Leaf>, Mem>
    ensures { IfOk result (λ lent. map (λ leaf. leaf.now) lent.items ≡ leaves.now) }
{
    let mut lent = Vec::with_capacity(alloc, leaves.len())?;
    for leaf in leaves {
        lent.push(leaf)?;
    }
    Ok(lent)
}

/// The leaves of the columns that a filter keeps.
fn kept<'a>(
    alloc: Global,
    leaves: &'a [Leaf],
    write: &Write,
    filter: &Filter,
) -> Result<Vec<&'a Leaf>, Mem>
    ensures { IfOk result (λ kept. map (λ leaf. leaf_of leaf.now) kept.items ≡ logs.picked (logs.picked (map leaf_of leaves.now) write.now.stream.columns) filter.now.columns) }
{
    let all = lent(alloc, leaves)?;
    let of_stream = picked(alloc, &all, write.stream.columns.as_slice())?;
    let kept = picked(alloc, &of_stream, filter.columns.as_slice())?;
    Ok(kept)
}

/// The row of a record as it is now, for a filter of a write.
fn row_of(world: &World, write: &Write, filter: &Filter, leaves: &[Leaf]) -> Result<Out, Mem>
    ensures row { IfOk result (λ out. (types : Program) → map leaf_of leaves.now ≡ logs.log_leaves types write.now.log → row_in out ≡ Some (row_meant types (stream_in write.now) filter.now (value_of write.now.row) (world_of world.now))) }
    ensures no_line { IfOk result (λ out. filter_map line_in (out ∷ []) ≡ []) }
{
    let alloc = world.alloc;
    let kept = kept(alloc, leaves, write, filter)?;
    Ok(Out::Row {
        path: Bytes::copy_of(alloc, path_of(write, filter))?,
        columns: Series::from(columns_of(alloc, &kept)?),
        cells: Series::from(cells(alloc, &world.heap, &kept, &write.row)?),
        at: world.time,
    })
}

impl State {
    /// Writes the row of a record as it is now, for a filter.
    pub fn write_row(&mut self, code: &Code, write: &Write, filter: &Filter) -> Result<(), Halt>
        ensures { (place : At) → Comes (λ _. tt) place result (logs.write_row (types_in (code_of code.now)) (stream_in write.now) filter.now (value_of write.now.row) (state_of self.old)) (state_of self.new) }
    {
        let world = &mut self.world;
        let row = row_of(world, write, filter, code.leaves_of(write.log))?;
        world.out.push_back(row)?;
        Ok(())
    }
}
