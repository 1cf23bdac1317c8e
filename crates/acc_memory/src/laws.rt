//! Laws over the definitions.

ghost use Rattle.acc_memory.specs.worked.Runs.{Doubles, LeavesOthers, ThereAndBack};

/// What a loop makes of the cells of its blocks, and a round from the host and back.
pub fn worked_runs()
    ensures doubles { Doubles }
    ensures others { LeavesOthers }
    ensures round { ThereAndBack }
{}
