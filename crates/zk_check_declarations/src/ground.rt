use crate::heights::Depths;
use crate::source::Source;
use crate::values::Values;
use std::alloc::Global;
use zk_scope::Names;

/// What the rules of declarations stand on.
#[derive(Clone, Copy)]
pub struct Ground<'a> {
    pub alloc: Global,
    pub names: &'a Names<'a>,
    /// The scripts, whose names these are, and the types of their globals and constants.
    pub source: &'a Source<'a>,
    /// How deep the record types nest.
    pub depths: &'a Depths,
    /// The values that names are given.
    pub values: &'a Values<'a>,
}
