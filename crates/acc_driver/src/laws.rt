//! Laws over the definitions.

ghost use Rattle.acc_driver.specs.Explorations.{PrefixesAreParts};
ghost use Rattle.acc_driver.specs.worked.Replays.{NothingIsReplayed, StaleCopyReport, CountedTwiceReport, OverlapReport, UnfinishedReport};
ghost use Rattle.acc_driver.specs.worked.Splits.{SplitTexts};

use acc_explore::prefixes_miss_none_together;

/// Where an input is split, computed on worked texts.
pub fn worked_splits()
    ensures { SplitTexts }
{}

/// Inputs with their reports, computed from one to the other.
pub fn worked_replays()
    ensures nothing { NothingIsReplayed }
    ensures stale_copy { StaleCopyReport }
    ensures counted_twice { CountedTwiceReport }
    ensures overlap { OverlapReport }
    ensures unfinished { UnfinishedReport }
{}

/// Explorations of a script behind prefixes that are told of it, each of which misses no report, together miss none.
pub fn prefixes_are_parts()
    ensures { PrefixesAreParts }
{
    prefixes_miss_none_together();
}
