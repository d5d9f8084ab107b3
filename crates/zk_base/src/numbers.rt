// Numbers by which crates name what another one holds. Some of these crates are still to come.

/// A connection instance, numbered from 1 over the capture.
#[derive(Clone, Copy, Debug, PartialEq, Eq)]
pub struct ConnNo(pub u64);

/// An object of the script store: a record, a vector, a set or a table.
#[derive(Clone, Copy, Debug, PartialEq, Eq)]
pub struct ObjectNo(pub u64);

/// An event handler of a program.
#[derive(Clone, Copy, Debug, PartialEq, Eq)]
pub struct HandlerNo(pub u32);

/// An event of a program.
#[derive(Clone, Copy, Debug, PartialEq, Eq)]
pub struct EventNo(pub u32);

/// A hook of a program.
#[derive(Clone, Copy, Debug, PartialEq, Eq)]
pub struct HookNo(pub u32);

/// A record type of a program.
#[derive(Clone, Copy, Debug, PartialEq, Eq)]
pub struct RecordNo(pub u32);

/// The enum word that names a log stream.
#[derive(Clone, Copy, Debug, PartialEq, Eq)]
pub struct LogId(pub u32);
