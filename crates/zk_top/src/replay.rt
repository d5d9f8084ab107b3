ghost use Rattle.std.specs.Prelude.{◌≡◌, ◌≤◌, ◌++◌, ◌∷◌, [], ℕ, Bool, true, false, List, Option, IfOk, OnOk, IfErr};
ghost use Rattle.zk_base.specs.Captured.{Captured, IsBounded, captured};
ghost use Rattle.zk_base.specs.Shelf.{Outside};
ghost use Rattle.zk_events.specs.Run.{Begun, New, run};
ghost use Rattle.zk_lower.specs.Lowering.{lowered};
ghost use Rattle.zk_lower.specs.View as lower;
ghost use Rattle.zk_base.specs.NetworkTime.{later};
ghost use Rattle.zk_traffic.specs.declared.item.Item.{Item as ItemData};
ghost use Rattle.zk_typed.specs.Program.{Program};
ghost use Rattle.zk_typed.specs.Running.{world_in};
ghost use Rattle.zk_io.specs.Reading.{IsReading, IsUnderWay, SameInput};
ghost use Rattle.zk_top.specs.Replay.{Counts, Plan, Replays, ReplaysPart};
ghost use Rattle.zk_top.specs.Sink.{Beginning, CanTake, Counted, HasTaken, TakesSome, Written};
ghost use Rattle.zk_top.specs.Writing.{no_output, output_of, told_by};

use crate::player::Player;
use crate::sink::Sink;
use crate::summary::RowCounts;
use crate::writer::Writer;
use sqlite_items::Boxed;
use std::alloc::Global;
use zk_base::{Mem, Moment, PacketView, Shelf};
use zk_events::{ItemEnd, lines_stay};
use zk_io::CaptureReader;
use zk_lower::Code;
use zk_outcome::Stop;
use zk_traffic::{Options, Traffic, items_stay};

/// A replay of a capture to a program: its traffic, and the program.
#[derive(Drop)]
pub struct Replay {
    traffic: Traffic,
    player: Player,
}

/// How the run over a capture came to its end.
#[derive(Clone, Copy, Debug)]
pub enum Came {
    /// All packets were played. The last network time.
    Through(Moment),
    /// A flood ended the run, at this network time.
    Flooded(Moment),
}

impl Came {
    ghost use Rattle.zk_top.specs.Replay.{time_of};

    /// The network time at the end.
    fn time(self) -> Moment
        ensures { result ≡ time_of self }
    {
        match self {
            Came::Through(last) => last,
            Came::Flooded(moment) => moment,
        }
    }
}

impl Replay {
    ghost use Rattle.zk_top.specs.Replay.{After, Comes, HasCome, HasPlayed, HasRun, IsOver, StopsOver, items_in, output_at};

    /// A replay of a capture before its beginning, the first of whose frames has this link type, and where its output goes. It is large, so it is in a box.
    fn new(
        alloc: Global,
        options: Options,
        link: u16,
        code: Boxed<Code>,
        budget: u64,
        sink: Sink,
    ) -> Result<Box<Replay>, Mem>
        ensures comes { IfOk result (λ replay. (first : Beginning) (program : Program) (now : Outside) → lower.code_of code ≡ lowered program
            → HasTaken first no_output sink now
            → Comes first (record { options = options; program = program; budget = budget }) [] [] false New replay.value now) }
        ensures sink { IfOk result (λ replay. replay.value.player.sink ≡ sink) }
    {
        let replay = Replay {
            traffic: Traffic::new(alloc, options, link)?,
            player: Player::new(alloc, code, budget, sink)?,
        };
        Ok(Box::new(alloc, replay)?)
    }

    /// Begins the run.
    fn begin<S: Shelf>(&mut self, shelf: &mut S) -> Result<ItemEnd, Stop>
        requires ready { CanTake self.old.player.sink (S.outside shelf.old) }
        ensures after { IfOk result (λ end. (first : Beginning) (plan : Plan) → Comes first plan [] [] false New self.old (S.outside shelf.old) → After first plan [] false end self.new (S.outside shelf.new)) }
        ensures ready { OnOk result (CanTake self.new.player.sink (S.outside shelf.new)) }
        ensures stopped { IfErr result (λ stop. (first : Beginning) (plan : Plan) → Comes first plan [] [] false New self.old (S.outside shelf.old)
            → TakesSome (output_at plan.program plan.budget (Begun [])) first stop (S.outside shelf.new)) }
        ensures input { OnOk result (SameInput (S.outside shelf.old) (S.outside shelf.new)) }
    {
        self.player.start(shelf)
    }

    /// Plays the items that wait.
    fn take_items<S: Shelf>(&mut self, shelf: &mut S) -> Result<ItemEnd, Stop>
        requires ready { CanTake self.old.player.sink (S.outside shelf.old) }
        ensures after { IfOk result (λ end. (first : Beginning) (plan : Plan) (packets : List Captured) (given : List ItemData) (ended : Bool)
            → Comes first plan packets given ended (Begun given) self.old (S.outside shelf.old) → After first plan packets ended end self.new (S.outside shelf.new)) }
        ensures ready { OnOk result (CanTake self.new.player.sink (S.outside shelf.new)) }
        ensures stopped { IfErr result (λ stop. (first : Beginning) (plan : Plan) (packets : List Captured) (given : List ItemData) (ended : Bool)
            → Comes first plan packets given ended (Begun given) self.old (S.outside shelf.old)
            → TakesSome (output_at plan.program plan.budget (Begun (items_in plan packets ended))) first stop (S.outside shelf.new)) }
        ensures input { OnOk result (SameInput (S.outside shelf.old) (S.outside shelf.new)) }
    {
        lines_stay();
        'items: while let Some(item) = self.traffic.next() {
            let end = self.player.take_item(shelf, &item)?;
            drop(item);
            if let ItemEnd::Flood { .. } = end {
                return Ok(end);
            }
        }
        Ok(ItemEnd::Done)
    }

    /// Plays what a packet brings whose frame has this link type.
    fn take_packet<S: Shelf>(
        &mut self,
        shelf: &mut S,
        packet: PacketView<'_>,
        link: u16,
    ) -> Result<ItemEnd, Stop>
        requires ready { CanTake self.old.player.sink (S.outside shelf.old) }
        requires bounded { IsBounded (captured link packet) }
        ensures after { IfOk result (λ end. (first : Beginning) (plan : Plan) (packets : List Captured) → HasPlayed first plan packets false self.old (S.outside shelf.old)
            → After first plan (packets ++ captured link packet.entry ∷ []) false end self.new (S.outside shelf.new)) }
        ensures ready { OnOk result (CanTake self.new.player.sink (S.outside shelf.new)) }
        ensures stopped { IfErr result (λ stop. (first : Beginning) (plan : Plan) (packets : List Captured) → HasPlayed first plan packets false self.old (S.outside shelf.old)
            → TakesSome (output_at plan.program plan.budget (Begun (items_in plan (packets ++ captured link packet.entry ∷ []) false))) first stop (S.outside shelf.new)) }
        ensures input { OnOk result (SameInput (S.outside shelf.old) (S.outside shelf.new)) }
    {
        items_stay();
        lines_stay();
        self.traffic.set_link(link);
        self.traffic.packet(packet)?;
        self.take_items(shelf)
    }

    /// Plays packets to their end, or until a flood ends the run.
    fn take_packets<S: Shelf>(
        &mut self,
        shelf: &mut S,
        reader: &mut CaptureReader,
    ) -> Result<Came, Stop>
        requires ready { CanTake self.old.player.sink (S.outside shelf.old) }
        requires under_way { IsUnderWay reader.old (S.outside shelf.old) }
        ensures came { IfOk result (λ came. (first : Beginning) (plan : Plan) (whole : Option (List ℕ)) (bytes : List ℕ)
            → HasPlayed first plan [] false self.old (S.outside shelf.old) → IsReading whole bytes [] reader.old (S.outside shelf.old)
            → HasCome first plan whole came self.new reader.new (S.outside shelf.new)) }
        ensures ready { OnOk result (CanTake self.new.player.sink (S.outside shelf.new)) }
        ensures stopped { IfErr result (λ stop. (first : Beginning) (plan : Plan) (whole : Option (List ℕ)) (bytes : List ℕ)
            → HasPlayed first plan [] false self.old (S.outside shelf.old) → IsReading whole bytes [] reader.old (S.outside shelf.old)
            → StopsOver whole plan first stop (S.outside shelf.new)) }
    {
        items_stay();
        lines_stay();
        let mut last = Moment(0);
        'packets: while reader.fill(shelf)? {
            let packet = reader.packet();
            last = later(last, packet.moment);
            let end = self.take_packet(shelf, packet, reader.link())?;
            if let ItemEnd::Flood { moment } = end {
                return Ok(Came::Flooded(moment));
            }
            reader.advance();
        }
        Ok(Came::Through(last))
    }

    /// Plays what the end of the capture brings, and ends the run at the last network time.
    fn finish<S: Shelf>(&mut self, shelf: &mut S, last: Moment) -> Result<Came, Stop>
        requires ready { CanTake self.old.player.sink (S.outside shelf.old) }
        ensures over { IfOk result (λ came. (first : Beginning) (plan : Plan) (packets : List Captured) → HasPlayed first plan packets false self.old (S.outside shelf.old)
            → IsOver first plan packets last came self.new (S.outside shelf.new)) }
        ensures ready { OnOk result (CanTake self.new.player.sink (S.outside shelf.new)) }
        ensures stopped { IfErr result (λ stop. (first : Beginning) (plan : Plan) (packets : List Captured) → HasPlayed first plan packets false self.old (S.outside shelf.old)
            → TakesSome (output_of (told_by (world_in (run plan.program plan.budget (items_in plan packets true) last)))) first stop (S.outside shelf.new)) }
        ensures input { OnOk result (SameInput (S.outside shelf.old) (S.outside shelf.new)) }
    {
        items_stay();
        lines_stay();
        self.traffic.end()?;
        match self.take_items(shelf)? {
            ItemEnd::Done => self.end(shelf, last),
            ItemEnd::Flood { moment } => Ok(Came::Flooded(moment)),
        }
    }

    /// Ends the run at the last network time, where all items were played.
    fn end<S: Shelf>(&mut self, shelf: &mut S, last: Moment) -> Result<Came, Stop>
        requires ready { CanTake self.old.player.sink (S.outside shelf.old) }
        ensures over { IfOk result (λ came. (first : Beginning) (plan : Plan) (packets : List Captured) → HasPlayed first plan packets true self.old (S.outside shelf.old)
            → IsOver first plan packets last came self.new (S.outside shelf.new)) }
        ensures ready { OnOk result (CanTake self.new.player.sink (S.outside shelf.new)) }
        ensures stopped { IfErr result (λ stop. (first : Beginning) (plan : Plan) (packets : List Captured) → HasPlayed first plan packets true self.old (S.outside shelf.old)
            → TakesSome (output_of (told_by (world_in (run plan.program plan.budget (items_in plan packets true) last)))) first stop (S.outside shelf.new)) }
        ensures input { OnOk result (SameInput (S.outside shelf.old) (S.outside shelf.new)) }
    {
        match self.player.finish(shelf, last)? {
            ItemEnd::Done => Ok(Came::Through(last)),
            ItemEnd::Flood { moment } => Ok(Came::Flooded(moment)),
        }
    }

    /// Runs the program from its beginning to its end, or to a flood.
    fn run<S: Shelf>(&mut self, shelf: &mut S, reader: &mut CaptureReader) -> Result<Came, Stop>
        requires ready { CanTake self.old.player.sink (S.outside shelf.old) }
        requires under_way { IsUnderWay reader.old (S.outside shelf.old) }
        ensures ran { IfOk result (λ came. (first : Beginning) (plan : Plan) (whole : Option (List ℕ)) (bytes : List ℕ)
            → Comes first plan [] [] false New self.old (S.outside shelf.old) → IsReading whole bytes [] reader.old (S.outside shelf.old)
            → HasRun first plan whole came self.new reader.new (S.outside shelf.new)) }
        ensures ready { OnOk result (CanTake self.new.player.sink (S.outside shelf.new)) }
        ensures stopped { IfErr result (λ stop. (first : Beginning) (plan : Plan) (whole : Option (List ℕ)) (bytes : List ℕ)
            → Comes first plan [] [] false New self.old (S.outside shelf.old) → IsReading whole bytes [] reader.old (S.outside shelf.old)
            → StopsOver whole plan first stop (S.outside shelf.new)) }
    {
        items_stay();
        lines_stay();
        match self.begin(shelf)? {
            ItemEnd::Done => self.run_packets(shelf, reader),
            ItemEnd::Flood { moment } => Ok(Came::Flooded(moment)),
        }
    }

    /// Runs the program over the packets, says what it prints and writes its log files.
    fn play<S: Shelf>(&mut self, shelf: &mut S, reader: &mut CaptureReader) -> Result<Came, Stop>
        requires ready { CanTake self.old.player.sink (S.outside shelf.old) }
        requires under_way { IsUnderWay reader.old (S.outside shelf.old) }
        ensures replays { IfOk result (λ came. (first : Beginning) (plan : Plan) (whole : Option (List ℕ)) (bytes : List ℕ) → first.target ≡ Written
            → Comes first plan [] [] false New self.old (S.outside shelf.old) → IsReading whole bytes [] reader.old (S.outside shelf.old)
            → Replays plan whole first.outside came reader.new (S.outside shelf.new)) }
        ensures stopped { IfErr result (λ stop. (first : Beginning) (plan : Plan) (whole : Option (List ℕ)) (bytes : List ℕ) → first.target ≡ Written
            → Comes first plan [] [] false New self.old (S.outside shelf.old) → IsReading whole bytes [] reader.old (S.outside shelf.old)
            → ReplaysPart whole plan first.outside stop (S.outside shelf.new)) }
    {
        let came = self.run(shelf, reader)?;
        self.player.sink.close(shelf, came.time())?;
        Ok(came)
    }

    /// Runs the program over the packets, and counts the rows that it logs.
    fn count<S: Shelf>(
        &mut self,
        shelf: &mut S,
        reader: &mut CaptureReader,
    ) -> Result<(Came, RowCounts), Stop>
        requires ready { CanTake self.old.player.sink (S.outside shelf.old) }
        requires under_way { IsUnderWay reader.old (S.outside shelf.old) }
        ensures { IfOk result (λ counted. (first : Beginning) (plan : Plan) (whole : Option (List ℕ)) (bytes : List ℕ) → first.target ≡ Counted
            → Comes first plan [] [] false New self.old (S.outside shelf.old) → IsReading whole bytes [] reader.old (S.outside shelf.old)
            → Counts plan whole counted.0 counted.1 reader.new (S.outside shelf.new)) }
    {
        let came = self.run(shelf, reader)?;
        Ok((came, self.player.sink.rows()))
    }

    /// Runs the program behind its beginning.
    fn run_packets<S: Shelf>(
        &mut self,
        shelf: &mut S,
        reader: &mut CaptureReader,
    ) -> Result<Came, Stop>
        requires ready { CanTake self.old.player.sink (S.outside shelf.old) }
        requires under_way { IsUnderWay reader.old (S.outside shelf.old) }
        ensures ran { IfOk result (λ came. (first : Beginning) (plan : Plan) (whole : Option (List ℕ)) (bytes : List ℕ)
            → HasPlayed first plan [] false self.old (S.outside shelf.old) → IsReading whole bytes [] reader.old (S.outside shelf.old)
            → HasRun first plan whole came self.new reader.new (S.outside shelf.new)) }
        ensures ready { OnOk result (CanTake self.new.player.sink (S.outside shelf.new)) }
        ensures stopped { IfErr result (λ stop. (first : Beginning) (plan : Plan) (whole : Option (List ℕ)) (bytes : List ℕ)
            → HasPlayed first plan [] false self.old (S.outside shelf.old) → IsReading whole bytes [] reader.old (S.outside shelf.old)
            → StopsOver whole plan first stop (S.outside shelf.new)) }
    {
        match self.take_packets(shelf, reader)? {
            Came::Through(last) => self.finish(shelf, last),
            Came::Flooded(moment) => Ok(Came::Flooded(moment)),
        }
    }
}

/// Replays a capture to a program, and counts the rows that it logs. Nothing is said or written.
pub fn count_rows<S: Shelf>(
    alloc: Global,
    shelf: &mut S,
    options: Options,
    code: Boxed<Code>,
    budget: u64,
    reader: &mut CaptureReader,
) -> Result<(Came, RowCounts), Stop>
    requires under_way { IsUnderWay reader.old (S.outside shelf.old) }
    ensures { IfOk result (λ counted. (program : Program) (whole : Option (List ℕ)) (bytes : List ℕ) → lower.code_of code ≡ lowered program
        → IsReading whole bytes [] reader.old (S.outside shelf.old)
        → Counts (record { options = options; program = program; budget = budget }) whole counted.0 counted.1 reader.new (S.outside shelf.new)) }
{
    let sink = Sink::Counted(RowCounts::new());
    let mut replay = Replay::new(alloc, options, reader.link(), code, budget, sink)?;
    replay.count(shelf, reader)
}

/// Replays a capture to a program, says what it prints and writes its log files.
pub fn replay_capture<S: Shelf>(
    alloc: Global,
    shelf: &mut S,
    options: Options,
    code: Boxed<Code>,
    budget: u64,
    reader: &mut CaptureReader,
) -> Result<Came, Stop>
    requires under_way { IsUnderWay reader.old (S.outside shelf.old) }
    ensures replays { IfOk result (λ came. (program : Program) (whole : Option (List ℕ)) (bytes : List ℕ) → lower.code_of code ≡ lowered program
        → IsReading whole bytes [] reader.old (S.outside shelf.old)
        → Replays (record { options = options; program = program; budget = budget }) whole (S.outside shelf.old) came reader.new (S.outside shelf.new)) }
    ensures stopped { IfErr result (λ stop. (program : Program) (whole : Option (List ℕ)) (bytes : List ℕ) → lower.code_of code ≡ lowered program
        → IsReading whole bytes [] reader.old (S.outside shelf.old)
        → ReplaysPart whole (record { options = options; program = program; budget = budget }) (S.outside shelf.old) stop (S.outside shelf.new)) }
{
    let writer = Writer::new(alloc)?;
    let sink = Sink::Written(writer);
    let mut replay = Replay::new(alloc, options, reader.link(), code, budget, sink)?;
    replay.play(shelf, reader)
}

/// The later of two moments.
fn later(a: Moment, b: Moment) -> Moment
    ensures { result ≡ later a b }
{
    if a < b { b } else { a }
}
