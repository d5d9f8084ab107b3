ghost use Rattle.std.specs.Prelude.{◌≡◌, ◌++◌, ◌∷◌, [], ℕ, List, IfOk, OnOk, IfErr};
ghost use Rattle.zk_base.specs.Shelf.{Outside};
ghost use Rattle.zk_events.specs.Run.{Stage, New, Begun, Ended, progress_at};
ghost use Rattle.zk_events.specs.Standing.{end_of};
ghost use Rattle.zk_lower.specs.Lowering.{lowered};
ghost use Rattle.zk_lower.specs.Told.{Told};
ghost use Rattle.zk_lower.specs.View as lower;
ghost use Rattle.zk_traffic.specs.declared.item.Item.{Item as ItemData};
ghost use Rattle.zk_typed.specs.Program.{Program};
ghost use Rattle.zk_io.specs.Reading.{SameInput};
ghost use Rattle.zk_top.specs.Sink.{Beginning, CanTake, HasTaken, TakesSome};
ghost use Rattle.zk_top.specs.Writing.{no_output};

use crate::sink::Sink;
use sqlite_items::Boxed;
use std::alloc::Global;
use zk_base::{Mem, Moment, Shelf};
use zk_events::{Engine, ItemEnd, lines_given, lines_stay};
use zk_lower::Code;
use zk_outcome::Stop;
use zk_traffic::Item;

/// A program that runs over the items of a capture, and what it gives out.
#[derive(Drop)]
pub struct Player {
    engine: Engine,
    pub sink: Sink,
}

impl Player {
    ghost use Rattle.zk_top.specs.Replay.{Gives, Plays, output_at};

    /// A program before its beginning, and where its output goes. Each body has so many units.
    pub fn new(alloc: Global, code: Boxed<Code>, budget: u64, sink: Sink) -> Result<Player, Mem>
        ensures plays { IfOk result (λ player. (first : Beginning) (program : Program) (now : Outside) → lower.code_of code ≡ lowered program
            → HasTaken first no_output sink now → Plays first program budget New player now) }
        ensures sink { IfOk result (λ player. player.sink ≡ sink) }
    {
        Ok(Player {
            engine: Engine::new(alloc, code.into_inner(), budget)?,
            sink,
        })
    }

    /// Begins the run.
    pub fn start<S: Shelf>(&mut self, shelf: &mut S) -> Result<ItemEnd, Stop>
        requires ready { CanTake self.old.sink (S.outside shelf.old) }
        ensures end { IfOk result (λ end. (first : Beginning) (program : Program) (budget : ℕ) → Plays first program budget New self.old (S.outside shelf.old)
            → end ≡ end_of (progress_at program budget (Begun []))) }
        ensures plays { OnOk result ((first : Beginning) (program : Program) (budget : ℕ) → Plays first program budget New self.old (S.outside shelf.old)
            → Plays first program budget (Begun []) self.new (S.outside shelf.new)) }
        ensures ready { OnOk result (CanTake self.new.sink (S.outside shelf.new)) }
        ensures stopped { IfErr result (λ stop. (first : Beginning) (program : Program) (budget : ℕ) → Plays first program budget New self.old (S.outside shelf.old)
            → TakesSome (output_at program budget (Begun [])) first stop (S.outside shelf.new)) }
        ensures input { OnOk result (SameInput (S.outside shelf.old) (S.outside shelf.new)) }
    {
        let end = self.engine.start()?;
        self.give_all(shelf)?;
        Ok(end)
    }

    /// Takes the next item.
    pub fn take_item<S: Shelf>(&mut self, shelf: &mut S, item: &Item) -> Result<ItemEnd, Stop>
        requires ready { CanTake self.old.sink (S.outside shelf.old) }
        ensures end { IfOk result (λ end. (first : Beginning) (program : Program) (budget : ℕ) (items : List ItemData) → Plays first program budget (Begun items) self.old (S.outside shelf.old)
            → end ≡ end_of (progress_at program budget (Begun (items ++ item.now ∷ [])))) }
        ensures plays { OnOk result ((first : Beginning) (program : Program) (budget : ℕ) (items : List ItemData) → Plays first program budget (Begun items) self.old (S.outside shelf.old)
            → Plays first program budget (Begun (items ++ item.now ∷ [])) self.new (S.outside shelf.new)) }
        ensures ready { OnOk result (CanTake self.new.sink (S.outside shelf.new)) }
        ensures stopped { IfErr result (λ stop. (first : Beginning) (program : Program) (budget : ℕ) (items : List ItemData) → Plays first program budget (Begun items) self.old (S.outside shelf.old)
            → TakesSome (output_at program budget (Begun (items ++ item.now ∷ []))) first stop (S.outside shelf.new)) }
        ensures input { OnOk result (SameInput (S.outside shelf.old) (S.outside shelf.new)) }
    {
        lines_stay();
        let end = self.engine.item(item)?;
        self.give_all(shelf)?;
        Ok(end)
    }

    /// Ends the run at the last network time.
    pub fn finish<S: Shelf>(&mut self, shelf: &mut S, last: Moment) -> Result<ItemEnd, Stop>
        requires ready { CanTake self.old.sink (S.outside shelf.old) }
        ensures end { IfOk result (λ end. (first : Beginning) (program : Program) (budget : ℕ) (items : List ItemData) → Plays first program budget (Begun items) self.old (S.outside shelf.old)
            → end ≡ end_of (progress_at program budget (Ended items last))) }
        ensures plays { OnOk result ((first : Beginning) (program : Program) (budget : ℕ) (items : List ItemData) → Plays first program budget (Begun items) self.old (S.outside shelf.old)
            → Plays first program budget (Ended items last) self.new (S.outside shelf.new)) }
        ensures ready { OnOk result (CanTake self.new.sink (S.outside shelf.new)) }
        ensures stopped { IfErr result (λ stop. (first : Beginning) (program : Program) (budget : ℕ) (items : List ItemData) → Plays first program budget (Begun items) self.old (S.outside shelf.old)
            → TakesSome (output_at program budget (Ended items last)) first stop (S.outside shelf.new)) }
        ensures input { OnOk result (SameInput (S.outside shelf.old) (S.outside shelf.new)) }
    {
        lines_stay();
        let end = self.engine.finish(last)?;
        self.give_all(shelf)?;
        Ok(end)
    }

    /// Gives out the lines and rows that the engine has.
    fn give_all<S: Shelf>(&mut self, shelf: &mut S) -> Result<(), Stop>
        requires ready { CanTake self.old.sink (S.outside shelf.old) }
        ensures plays { OnOk result ((first : Beginning) (program : Program) (budget : ℕ) (stage : Stage) (told : Told) → Gives first program budget stage told self.old (S.outside shelf.old)
            → Plays first program budget stage self.new (S.outside shelf.new)) }
        ensures ready { OnOk result (CanTake self.new.sink (S.outside shelf.new)) }
        ensures stopped { IfErr result (λ stop. (first : Beginning) (program : Program) (budget : ℕ) (stage : Stage) (told : Told) → Gives first program budget stage told self.old (S.outside shelf.old)
            → TakesSome (output_at program budget stage) first stop (S.outside shelf.new)) }
        ensures input { OnOk result (SameInput (S.outside shelf.old) (S.outside shelf.new)) }
    {
        lines_given();
        'outs: while let Some(out) = self.engine.out() {
            self.sink.give(shelf, &out)?;
            drop(out);
        }
        Ok(())
    }
}
