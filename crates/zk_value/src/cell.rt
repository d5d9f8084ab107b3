use crate::series::Series;
use crate::shared::SharedBytes;
use std::alloc::AllocError;
use zk_base::Bytes;

/// A column of a log (Zeek manual, Logging Framework): its name, the name of its type, and whether its
/// field is marked `&wire`. The rows of a log share these texts.
#[derive(Debug, PartialEq, Eq, Drop)]
pub struct Column {
    pub name: SharedBytes,
    pub kind: SharedBytes,
    pub wire: bool,
}

/// Another handle to the same texts.
impl Clone for Column {
    ghost use Rattle.std.specs.Prelude.{◌≡◌};

    ghost is_clone = { λ column copy. copy ≡ column };

    fn clone(&self) -> Result<Column, AllocError> {
        Ok(Column {
            name: self.name.clone()?,
            kind: self.kind.clone()?,
            wire: self.wire,
        })
    }
}

/// A value in a cell.
#[derive(Debug, PartialEq, Eq, Drop)]
pub enum Atom {
    /// A string, which shares its bytes with the value.
    Text(SharedBytes),
    /// The text of any other value as `print` writes it, but of a port its number alone.
    Plain(Bytes),
}

/// A cell of a row: what a field of a record held when the row was written.
#[derive(Debug, PartialEq, Eq, Drop)]
pub enum Cell {
    /// The field had no value.
    Unset,
    /// A value.
    One(Atom),
    /// The elements of a set or a vector, in order.
    Many(Series<Atom>),
}
