//! Laws of the items of a capture: their moments, and what those of each connection rest on. There is nothing to run.
#![tactic(auto)]

ghost use Rattle.zk_item_laws.specs.Moments.{MomentsRise};
ghost use Rattle.zk_item_laws.specs.Own.{EachIsConnection, ItemsAreOwn, ItemsAreTheSame, NoOthers, PacketsAreSeen};

/// The moments of a capture's items rise from 0 on up to its network time, whatever the moments of its records
/// are.
pub fn moments_rise()
    ensures { MomentsRise }
{}

/// The items of each connection of a capture are those that its own segments give alone, each with its network
/// time, whatever stands between them; and behind them stands its one removal, at its own moment where that is
/// at or before the last network time, and else at that time. So two captures with the same segments of a
/// connection and the same last network time have the same items of it, but for its number.
pub fn items_are_own()
    ensures alone { ItemsAreOwn }
    ensures same { ItemsAreTheSame }
{}

/// A connection that begins in a capture has segments, all of its key; each behind the first comes before the
/// moment at which the connection is over by those before it, and those of later connections of its key at or
/// after the moment at which it is over; and it is removed once. Nothing happens to one of another number, and
/// what is about no connection is that each packet is seen.
pub fn each_is_a_connection()
    ensures begun { EachIsConnection }
    ensures others { NoOthers }
    ensures packets { PacketsAreSeen }
{}
