//! Laws over the definitions.

ghost use Rattle.acc_present.specs.worked.Drafts.{OpenedBetween, HalvesLeft, OneHalfLeft, LeftOnce, LeftTwice, WholeForHalves, FinalizedInARegion, RegionEndedAfterFinalize};
ghost use Rattle.acc_present.specs.worked.Lifetimes.{EnteredTwiceLeftOnce, EnteredAgainHasANewBlock, SideBySide, PartIsPresent, PartEndsTheWhole, ExitOfAnAbsentRange, FinalizeEndsAtOnce};
ghost use Rattle.acc_present.specs.worked.Lifetimes.{RegionInsideARegion, RegionEndsWhatItEntered, PartOfARegionCountsOnTheWhole, EnteredInsideARegion, EnteredOutsideARegion, LeftInsideARegion, ExitAtZeroInsideARegion, FinalizeInsideARegion, AllMarksAreLegal, EndAfterFinalizeEndsTheLifetime, RegionEnteredAgainHasANewBlock};
ghost use Rattle.acc_present.specs.Legality.{StructuredIsTheDifference};
ghost use Rattle.acc_present.specs.Tables.{OneMoreMark, OneMoreDynamicMark, LegalMarksMakeATable};

/// What is present after one more mark is what that mark makes of what was present before it: after legal marks, and
/// where the mark is of the dynamic counter, after any.
pub fn one_more_mark()
    ensures legal { OneMoreMark }
    ensures dynamic { OneMoreDynamicMark }
{}

/// Where each mark met its condition, a structured counter is truly the entries less the exits, and what is present
/// is in order and apart.
pub fn legal_marks()
    ensures difference { StructuredIsTheDifference }
    ensures table { LegalMarksMakeATable }
{}

/// What is present after some short histories of marks of the dynamic counter.
pub fn worked_lifetimes()
    ensures twice { EnteredTwiceLeftOnce }
    ensures again { EnteredAgainHasANewBlock }
    ensures beside { SideBySide }
    ensures part { PartIsPresent }
    ensures part_ends { PartEndsTheWhole }
    ensures absent { ExitOfAnAbsentRange }
    ensures finalize { FinalizeEndsAtOnce }
{}

/// What is present after some short histories with regions.
pub fn worked_regions()
    ensures twice { RegionInsideARegion }
    ensures ends { RegionEndsWhatItEntered }
    ensures part { PartOfARegionCountsOnTheWhole }
    ensures entered_inside { EnteredInsideARegion }
    ensures entered_outside { EnteredOutsideARegion }
    ensures left_inside { LeftInsideARegion }
    ensures at_zero { ExitAtZeroInsideARegion }
    ensures finalize { FinalizeInsideARegion }
    ensures legal { AllMarksAreLegal }
    ensures end { EndAfterFinalizeEndsTheLifetime }
    ensures again { RegionEnteredAgainHasANewBlock }
{}

/// What some drafts show of small tables.
pub fn worked_drafts()
    ensures between { OpenedBetween }
    ensures halves { HalvesLeft }
    ensures half { OneHalfLeft }
    ensures once { LeftOnce }
    ensures twice { LeftTwice }
    ensures whole { WholeForHalves }
    ensures finalized { FinalizedInARegion }
    ensures region { RegionEndedAfterFinalize }
{}
