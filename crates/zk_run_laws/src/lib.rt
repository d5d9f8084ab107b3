//! Laws of runs over captures. There is nothing to run.
#![tactic(auto)]

ghost use Rattle.zk_run_laws.specs.Laws.{CapturesRunInTime, ItemsInOrder};

use zk_events::agenda_holds;
use zk_item_laws::moments_rise;
use zk_sound::typed_tables_stay;

/// Network time never falls over a run over any capture: the moments of its items, as the run takes them, rise
/// from 0 on up to the capture's network time; and so, over the run of any program whose scripts break no rule,
/// network time never falls from one dispatch to a later one, and of two turns the one that is due earlier comes
/// first.
pub fn captures_run_in_time()
    ensures order { ItemsInOrder }
    ensures time { CapturesRunInTime }
{
    agenda_holds();
    moments_rise();
    typed_tables_stay();
}
