//! Laws over the definitions.

ghost use Rattle.acc_kernel.specs.worked.Values.{WrapsRound, Calculates, Compares, Chooses, Reads, TakesTurns};
ghost use Rattle.acc_kernel.specs.worked.Loops.{CountsRound, FiveAndSix, ReachesBothParts, ReachesNothing, ReadsWhatItReaches, OrdersArrays, KeepsLimits, KeepsTurnsApart, OrdersFaults};

/// The values of some expressions, and what some turns write.
pub fn worked_values()
    ensures wraps { WrapsRound }
    ensures calculates { Calculates }
    ensures compares { Compares }
    ensures chooses { Chooses }
    ensures reads { Reads }
    ensures turns { TakesTurns }
{}

/// What some loops give, reach and read, and the faults of others.
pub fn worked_loops()
    ensures counts_round { CountsRound }
    ensures five_and_six { FiveAndSix }
    ensures both_parts { ReachesBothParts }
    ensures nothing { ReachesNothing }
    ensures uses { ReadsWhatItReaches }
    ensures arrays { OrdersArrays }
    ensures limits { KeepsLimits }
    ensures turns_apart { KeepsTurnsApart }
    ensures faults { OrdersFaults }
{}
