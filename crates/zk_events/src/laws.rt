ghost use Rattle.zk_events.specs.Laws.{EndKeeps, EventsOnce, GivenBegins, ItemsKeep, RunsByTurns, TimeNeverFalls};

use zk_agenda::{dispatched_once, time_rises};
use zk_lower::told_stays;

/// What was printed and written stays: a run that goes on only tells more, and also one that floods. There
/// is nothing to run.
pub fn lines_stay()
    ensures items { ItemsKeep }
    ensures end { EndKeeps }
{
    told_stays();
}

/// What an engine has given out is the beginning of what its run has printed and written. There is nothing
/// to run.
pub fn lines_given()
    ensures { GivenBegins }
{}

/// The run is that of the meaning over the items as it takes them, and so: each event that it schedules is
/// dispatched once or waits still, and where it comes to its end none waits; and network time never falls,
/// and of two turns the one that is due earlier comes first. There is nothing to run.
pub fn agenda_holds()
    ensures turns { RunsByTurns }
    ensures once { EventsOnce }
    ensures time { TimeNeverFalls }
{
    dispatched_once();
    time_rises();
}
