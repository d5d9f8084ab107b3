use crate::cell::{Cell, Column};
use crate::series::Series;
use zk_base::{Bytes, Moment};

/// What a script gives out.
#[derive(Debug, PartialEq, Eq, Drop)]
pub enum Out {
    /// A printed line, without its end.
    Line(Bytes),
    /// A row for the log of a path: its columns, a cell for each, and network time.
    Row {
        path: Bytes,
        columns: Series<Column>,
        cells: Series<Cell>,
        at: Moment,
    },
}
