ghost use Rattle.std.specs.Prelude.{◌≡◌, ◌∷◌, ℕ, List, [], Option, IfOk, OnOk};
ghost use Rattle.zk_base.specs.declared.numbers.RecordNo.{RecordNo as Number};
ghost use Rattle.zk_typed.specs.LogCalls.{one_type};
ghost use Rattle.zk_scope.specs.Streams.{created_lent, created_of, of_log};

use crate::created::{Created, with_stream};
use crate::whole::Whole;
use indexmap::IndexMap;
use std::alloc::Global;
use zk_base::{Mem, RecordNo};

/// The record types of logs, by the whole names of these.
#[derive(Drop)]
pub struct LogTypes {
    by_word: IndexMap<Whole, Option<Option<RecordNo>>>,
}

impl LogTypes {
    ghost use Rattle.zk_scope.specs.Streams.{AreTypes};

    /// Of no logs.
    fn new(alloc: Global) -> LogTypes
        ensures { AreTypes result [] }
    {
        LogTypes {
            by_word: IndexMap::new(alloc),
        }
    }

    /// Adds what a stream says of its log that stands before those that were added.
    fn add(&mut self, alloc: Global, one: &Created) -> Result<(), Mem>
        ensures { OnOk result ((created : List (List ℕ × Option Number)) → AreTypes self.old created → AreTypes self.new (created_of one.now ∷ created)) }
    {
        let word = Whole::copy_of(alloc, &one.word)?;
        let told = with_stream(one.columns, self.by_word.get(&word).copied());
        self.by_word.insert(word, told)?;
        Ok(())
    }

    /// What the calls of `create_stream` say of logs.
    pub fn of(alloc: Global, created: &[Created]) -> Result<LogTypes, Mem>
        ensures { IfOk result (λ types. AreTypes types (created_lent created.now)) }
    {
        let mut types = LogTypes::new(alloc);
        for index in (0..created.len()).rev() {
            types.add(alloc, &created[index])?;
        }
        Ok(types)
    }

    /// The type of a log by its whole name.
    pub fn log_type(&self, alloc: Global, word: &[u8]) -> Result<Option<Option<RecordNo>>, Mem>
        ensures { IfOk result (λ told. (created : List (List ℕ × Option Number)) → AreTypes self.now created → told ≡ one_type (of_log word.now created)) }
    {
        let word = Whole::copy_of(alloc, word)?;
        match self.by_word.get(&word) {
            Some(told) => Ok(*told),
            None => Ok(None),
        }
    }
}
