ghost use Rattle.std.specs.Prelude.{◌≡◌, ◌≤◌, ◌^◌, Option, List, ℕ, IfOk, IfSome, IfNone};
ghost use Rattle.zk_typed.specs.Logs.{is_named, first_filter, all_columns};

use std::alloc::Global;
use std::marker::Model;
use zk_base::{Bytes, HookNo, Mem, Sequence};

/// A filter of a stream: where it names no path or policy, those of its stream count. Contracts see
/// its parts.
#[derive(Debug, Drop)]
pub struct Filter {
    pub name: Bytes,
    pub path: Option<Bytes>,
    pub policy: Option<HookNo>,
    /// The columns that it keeps, by their places among the columns of the stream, from 0.
    pub columns: Sequence<u32>,
}

impl Model for Filter {
    ghost use Rattle.zk_typed.specs.Log.{Filter as Plain};

    ghost Value = { Plain };

    ghost view = { λ filter. record { name = filter.name; path = filter.path; policy = filter.policy; columns = filter.columns } };
}

/// The name of the filter that a new stream has.
const DEFAULT: &[u8] = b"default";

impl Filter {
    /// The filter of a new stream with so many columns: it keeps them all.
    pub fn first(alloc: Global, columns: &[u32]) -> Result<Filter, Mem>
        ensures { IfOk result (λ filter. filter ≡ first_filter columns.now) }
    {
        Ok(Filter {
            name: Bytes::copy_of(alloc, DEFAULT)?,
            path: None,
            policy: None,
            columns: Sequence::from(places_of(alloc, columns)?),
        })
    }

    /// Whether it has a name.
    pub fn is_named(&self, name: &[u8]) -> bool
        ensures { result ≡ is_named name.now self.now }
    {
        self.name.as_slice() == name
    }

    /// A copy.
    pub fn copy(&self, alloc: Global) -> Result<Filter, Mem>
        ensures { IfOk result (λ copy. copy ≡ self.now) }
    {
        Ok(Filter {
            name: Bytes::copy_of(alloc, self.name.as_slice())?,
            path: copy_of_path(alloc, &self.path)?,
            policy: self.policy,
            columns: Sequence::from(Vec::from_slice(alloc, self.columns.as_slice())?),
        })
    }
}

/// A copy of a path, where there is one.
fn copy_of_path(alloc: Global, path: &Option<Bytes>) -> Result<Option<Bytes>, Mem>
    ensures { IfOk result (λ copy. copy ≡ path.now) }
{
    match path {
        None => Ok(None),
        Some(path) => Ok(Some(Bytes::copy_of(alloc, path.as_slice())?)),
    }
}

/// The number of what stands at a place of a list: none past the numbers of 32 bits.
fn number_at(place: usize) -> Option<u32>
    ensures some { IfSome result (λ number. number ≡ place) }
    ensures none { IfNone result (2 ^ 32 ≤ place) }
{
    u32::try_from(place).ok()
}

/// The places of columns, from 0.
fn places_of(alloc: Global, columns: &[u32]) -> Result<Vec<u32>, Mem>
    ensures { IfOk result (λ places. places.items ≡ all_columns 0 columns.now) }
{
    let mut places = Vec::new(alloc);
    for place in 0..columns.len() {
        let Some(place) = number_at(place) else {
            return Err(Mem);
        };
        places.push(place)?;
    }
    Ok(places)
}
