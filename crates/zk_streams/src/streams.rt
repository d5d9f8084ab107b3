ghost use Rattle.std.specs.Prelude.{◌≡◌, [], is_some, is_none, position, IfOk, OnOk, OnErr};
ghost use Rattle.std.specs.Option.{option_map};
ghost use Rattle.zk_typed.specs.Logs.{stream_of, with_filter, without_filter};
ghost use Rattle.zk_streams.specs.Streams.{created, changed, filters_of, has_at, is_of, log_stream_in};

use crate::filter::Filter;
use crate::kept::{Kept, LogStream};
use std::alloc::Global;
use std::marker::Model;
use zk_base::{LogId, Mem};

/// The streams that were made, in order, each with its filters in the order in which they were added.
/// No two are of one log. Contracts see that list.
#[derive(Debug, Drop)]
pub struct Streams {
    alloc: Global,
    kept: Vec<Kept>,
}

impl Model for Streams {
    ghost use Rattle.std.specs.Prelude.{List};
    ghost use Rattle.zk_typed.specs.Log.{Stream as Plain};
    ghost use Rattle.zk_streams.specs.Streams.{HasLogsOnce};

    ghost Value = { List Plain };

    ghost view = { λ streams. streams.kept.items };

    ghost invariant = { λ streams. HasLogsOnce streams.kept.items };
}

impl Streams {
    /// No streams. No memory is taken.
    pub fn new(alloc: Global) -> Streams
        ensures { result ≡ [] }
    {
        Streams {
            alloc,
            kept: Vec::new(alloc),
        }
    }

    /// Makes the stream of a log, which gets the filter `default` with all columns, and answers whether
    /// there was none. At `Mem` nothing is changed.
    pub fn create(&mut self, id: LogId, stream: LogStream) -> Result<bool, Mem>
        ensures none { IfOk result (λ none. none ≡ is_none (stream_of id self.old)) }
        ensures ok { OnOk result (self.new ≡ created id stream self.old) }
        ensures err { OnErr result (self.new ≡ self.old) }
    {
        if place_of(&self.kept, id).is_some() {
            return Ok(false);
        }
        let kept = Kept::new(self.alloc, id, stream)?;
        self.kept.push(kept)?;
        Ok(true)
    }

    /// Adds a filter to the stream of a log, in the place of the one that has its name, and answers
    /// whether there is that stream. At `Mem` nothing is changed.
    pub fn add_filter(&mut self, id: LogId, filter: Filter) -> Result<bool, Mem>
        ensures there { IfOk result (λ there. there ≡ is_some (stream_of id self.old)) }
        ensures ok { OnOk result (self.new ≡ changed id (with_filter filter) self.old) }
        ensures err { OnErr result (self.new ≡ self.old) }
    {
        match place_of(&self.kept, id) {
            Some(place) => {
                self.kept[place].put(filter)?;
                Ok(true)
            }
            None => Ok(false),
        }
    }

    /// Takes the filter of a name away from the stream of a log, and answers whether there was one. No
    /// memory is taken.
    pub fn remove_filter(&mut self, id: LogId, name: &[u8]) -> bool
        ensures there { result ≡ has_at id name.now self.old }
        ensures removed { self.new ≡ changed id (without_filter name.now) self.old }
    {
        match place_of(&self.kept, id) {
            Some(place) => self.kept[place].remove(name),
            None => false,
        }
    }

    /// The stream of a log, lent. None where it is not there.
    pub fn stream(&self, id: LogId) -> Option<&LogStream>
        ensures { option_map (λ stream. stream.now) result ≡ option_map log_stream_in (stream_of id self.now) }
    {
        Some(self.kept_of(id)?.stream())
    }

    /// A copy of the filters of the stream of a log, in order. There are none where it is not there.
    pub fn filters(&self, id: LogId) -> Result<Vec<Filter>, Mem>
        ensures { IfOk result (λ filters. filters.items ≡ filters_of id self.now) }
    {
        match self.kept_of(id) {
            Some(kept) => kept.filters(self.alloc),
            None => Ok(Vec::new(self.alloc)),
        }
    }

    /// Whether the stream of a log has a filter of a name.
    pub fn has(&self, id: LogId, name: &[u8]) -> bool
        ensures { result ≡ has_at id name.now self.now }
    {
        match self.kept_of(id) {
            Some(kept) => kept.has(name),
            None => false,
        }
    }

    /// The stream of a log with its filters, lent.
    fn kept_of(&self, id: LogId) -> Option<&Kept>
        ensures { option_map (λ kept. kept.now) result ≡ stream_of id self.now }
    {
        self.kept.iter().find(|kept| kept.is_of(id))
    }
}

/// The place of the stream of a log.
fn place_of(kept: &[Kept], id: LogId) -> Option<usize>
    ensures { result ≡ position (is_of id) kept.now }
{
    kept.iter().position(|kept| kept.is_of(id))
}
