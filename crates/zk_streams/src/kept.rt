ghost use Rattle.std.specs.Prelude.{◌≡◌, ◌==◌, position, IfOk, OnOk, OnErr};
ghost use Rattle.zk_typed.specs.Logs.{is_named, has_filter, with_filter, without_filter};

use crate::filter::Filter;
use std::alloc::Global;
use std::marker::Model;
use zk_base::{Bytes, EventNo, HookNo, LogId, Mem, Sequence};

/// A stream, as a script makes it: the event of its rows, the path and the policy of filters that name
/// none, and the columns.
#[derive(Debug, Drop)]
pub struct LogStream {
    pub event: Option<EventNo>,
    pub path: Bytes,
    pub policy: Option<HookNo>,
    /// The fields of its record type that are logged, by their places among all of its fields.
    pub columns: Sequence<u32>,
}

/// A stream with its filters, in the order in which they were added. No two have one name.
#[derive(Debug, Drop)]
pub struct Kept {
    id: LogId,
    stream: LogStream,
    filters: Vec<Filter>,
}

impl Model for Kept {
    ghost use Rattle.zk_typed.specs.Log.{Stream as Plain};

    ghost Value = { Plain };

    ghost use Rattle.zk_streams.specs.Kept.{stream_in, HasNamesOnce};

    ghost view = { stream_in };

    ghost invariant = { λ kept. HasNamesOnce kept.filters.items };
}

impl Kept {
    ghost use Rattle.zk_streams.specs.Streams.{stream_from, log_stream_in};

    /// A new stream, with the filter `default` for all columns.
    pub fn new(alloc: Global, id: LogId, stream: LogStream) -> Result<Kept, Mem>
        ensures { IfOk result (λ kept. kept ≡ stream_from id stream) }
    {
        let first = Filter::first(alloc, stream.columns.as_slice())?;
        let filters = vec![in alloc; first]?;
        Ok(Kept {
            id,
            stream,
            filters,
        })
    }

    /// Whether it is the stream of a log.
    pub fn is_of(&self, id: LogId) -> bool
        ensures { result ≡ (self.now.id.0 == id.0) }
    {
        self.id.0 == id.0
    }

    /// The stream without its filters, lent.
    pub fn stream(&self) -> &LogStream
        ensures { result.now ≡ log_stream_in self.now }
    {
        &self.stream
    }

    /// A copy of its filters.
    pub fn filters(&self, alloc: Global) -> Result<Vec<Filter>, Mem>
        ensures { IfOk result (λ filters. filters.items ≡ self.now.filters) }
    {
        let mut filters = Vec::with_capacity(alloc, self.filters.len())?;
        for filter in &self.filters {
            filters.push(filter.copy(alloc)?)?;
        }
        Ok(filters)
    }

    /// Whether it has a filter of a name.
    pub fn has(&self, name: &[u8]) -> bool
        ensures { result ≡ has_filter name.now self.now }
    {
        self.filters.iter().any(|filter| filter.is_named(name))
    }

    /// Puts a filter in the place of the one that has its name, or behind the others. At `Mem` nothing is
    /// changed.
    pub fn put(&mut self, filter: Filter) -> Result<(), Mem>
        ensures ok { OnOk result (self.new ≡ with_filter filter self.old) }
        ensures err { OnErr result (self.new ≡ self.old) }
    {
        match place_of(&self.filters, filter.name.as_slice()) {
            Some(place) => {
                self.filters[place] = filter;
                Ok(())
            }
            None => Ok(self.filters.push(filter)?),
        }
    }

    /// Takes the filter of a name away, and answers whether there was one.
    pub fn remove(&mut self, name: &[u8]) -> bool
        ensures there { result ≡ has_filter name.now self.old }
        ensures removed { self.new ≡ without_filter name.now self.old }
    {
        match place_of(&self.filters, name) {
            Some(place) => {
                let _ = self.filters.remove(place);
                true
            }
            None => false,
        }
    }
}

/// The place of the filter of a name.
fn place_of(filters: &[Filter], name: &[u8]) -> Option<usize>
    ensures { result ≡ position (is_named name.now) filters.now }
{
    filters.iter().position(|filter| filter.is_named(name))
}
