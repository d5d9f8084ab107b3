// The code of a program does what the program means.
ghost use Rattle.zk_lower.specs.Meant.{HandlersMean, InitialsMean, ExpiriesMean, HandlersWithin, InitialsWithin, ExpiriesWithin};
ghost use Rattle.zk_lower.specs.Run.{RunsByStep, WeightFalls};
ghost use Rattle.zk_lower.specs.Told.{HandlersGoOn, InitialsGoOn, ExpiriesGoOn, HandlersKeep, InitialsKeep, ExpiriesKeep};

/// Code that is run ends, faults at the same place, or spends its units as what it was made of does, and
/// leaves the same world and as many units, whatever the world, the arguments and the budget. There is
/// nothing to run.
pub fn code_means()
    // From each handler.
    ensures handlers { HandlersMean }

    // From each initial value of a global or a constant.
    ensures initials { InitialsMean }

    // From each expiry function, which gives the same interval.
    ensures expiries { ExpiriesMean }
{}

/// Every run of code ends, and nothing that is dispatched uses more units than its budget. There is
/// nothing to run.
pub fn code_ends()
    // A run is its first step and then a run, whatever the code, so the steps that it may take are never too
    // few.
    ensures steps { RunsByStep }

    // The weight of what runs, a number, falls at each step, whatever the code.
    ensures weight { WeightFalls }
    ensures handlers { HandlersWithin }
    ensures initials { InitialsWithin }
    ensures expiries { ExpiriesWithin }
{}

/// What was printed and written before a body decides nothing of what it does, and stays, also where the body
/// faults or is spent. There is nothing to run.
pub fn told_stays()
    // Where more was told before, it ends alike and tells the same behind it.
    ensures handlers { HandlersGoOn }
    ensures initials { InitialsGoOn }
    ensures expiries { ExpiriesGoOn }

    // What was told is the beginning of what is told then.
    ensures handlers_keep { HandlersKeep }
    ensures initials_keep { InitialsKeep }
    ensures expiries_keep { ExpiriesKeep }
{}
