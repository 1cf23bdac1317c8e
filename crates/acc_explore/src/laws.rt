//! Laws over the definitions.

ghost use Rattle.acc_explore.specs.Alike.{AlikeIsEquivalence, SameReports, StepKeepsAlike};
ghost use Rattle.acc_explore.specs.ApartOperations.{ApartOperationsCommute};
ghost use Rattle.acc_explore.specs.Arrivals.{ArrivalsAreReached, EventsLeadThere};
ghost use Rattle.acc_explore.specs.Closed.{ClosedIsUnclosing};
ghost use Rattle.acc_explore.specs.Cuts.{CutMissesNone};
ghost use Rattle.acc_explore.specs.Endings.{EndingsAreSaid};
ghost use Rattle.acc_explore.specs.Ends.{EndsAreOver};
ghost use Rattle.acc_explore.specs.Explorations.{IdleIsEnd, NoReportIsMissed, NothingIsMissed};
ghost use Rattle.acc_explore.specs.Runs.{AmpleUnlessRefused};
ghost use Rattle.acc_explore.specs.Scripts.{EventsKeepTheScript};
ghost use Rattle.acc_explore.specs.OwnStatements.{OwnStatementsCommute};
ghost use Rattle.acc_explore.specs.Placements.{PlacementsCommute};
ghost use Rattle.acc_explore.specs.Prefixes.{PrefixesAreSaid, TogetherMissNone};
ghost use Rattle.acc_explore.specs.ReachedWaits.{ReachedWaitsCommute};
ghost use Rattle.acc_explore.specs.Reductions.{CommutingGoesFirst, ReducedMissesNone};
ghost use Rattle.acc_explore.specs.Takes.{TakesCommute};
ghost use Rattle.acc_explore.specs.Spellings.{EventsAreNamed, SpelledIsRead};
ghost use Rattle.acc_explore.specs.UnseenOperations.{MoreIsLeft, NobodyAsksLater, UnseenOperationsCommute};
ghost use Rattle.acc_explore.specs.worked.ApartOperations.{NamingIsSeen, PlacedIsSeen, PrintsAreSeen};
ghost use Rattle.acc_explore.specs.worked.UnseenOperations.{MakingIsUnseen, ReleaseIsUnseenUnlessAsked};
ghost use Rattle.acc_explore.specs.worked.Placements.{OthersAreWanted, PlacesWithRoom, RoomIsWanted};
ghost use Rattle.acc_explore.specs.worked.Spellings.{EachLineIsSpelled};
ghost use Rattle.acc_explore.specs.worked.Takes.{RoomIsSeen, TakesWithRoom};

/// A step that isn't refused for want of memory is as where no memory is refused.
pub fn steps_are_ample_unless_refused()
    ensures { AmpleUnlessRefused }
{}

/// All that is found one behind another is reached from the start, by as many events as it is deep.
pub fn arrivals_are_reached()
    ensures reached { ArrivalsAreReached }
    ensures events { EventsLeadThere }
{}

/// What events lead to has the configuration and the programs of the start.
pub fn events_keep_the_script()
    ensures { EventsKeepTheScript }
{}

/// States that are alike reply to each event alike and stay alike, and they have one report; being alike is an equivalence.
pub fn alike_states_stay_alike()
    ensures steps { StepKeepsAlike }
    ensures reports { SameReports }
    ensures equivalence { AlikeIsEquivalence }
{}

/// What is explored misses nothing: whatever events come, what they lead to is like one of the states, and the report of each end
/// is that of one of them. It is an end where no host and no queue that is there can go on.
pub fn explorations_miss_nothing()
    ensures states { NothingIsMissed }
    ensures reports { NoReportIsMissed }
    ensures ends { IdleIsEnd }
{}

/// Where no host and no queue can go on, the run is over: what was placed is performed, and each host has ended its program or was
/// refused. No host waits for ever, whatever the order of events.
pub fn ends_are_over()
    ensures { EndsAreOver }
{}

/// So it is where one event of a state is followed alone, if that event may go first; and an event may that commutes with all others
/// that can come before it.
pub fn reductions_miss_no_end()
    ensures reports { ReducedMissesNone }
    ensures first { CommutingGoesFirst }
{}

/// Where an exploration is cut, at a depth or anywhere, whatever events lead to an end, one of the states that were found goes on to what
/// is like it, with no more events in all; that one is a leaf, or it is the end.
pub fn cuts_miss_no_end()
    ensures { CutMissesNone }
{}

/// A host's step at a statement of its own, which sets its ids or asks for them, commutes with every event of the others.
pub fn own_statements_commute()
    ensures { OwnStatementsCommute }
{}

/// The step of a host that waits, or asks, for what is performed commutes with every event of the others, where the items of all
/// statements to come are within their limit.
pub fn reached_waits_commute()
    ensures { ReachedWaitsCommute }
{}

/// Where the owner may not close, a queue's take commutes with every other event, if the queue has room for all directives that hosts
/// still have to place. Where it hasn't, they may see the take: a worked program does.
pub fn takes_commute()
    ensures commute { TakesCommute }
    ensures room { TakesWithRoom }
    ensures seen { RoomIsSeen }
{}

/// Where the owner may not close, the step of a host that is ready to place a directive commutes with every other event, if no other host
/// has a directive left, and each queue has room for all that this one has. The test is computed on worked programs: with that room and
/// without it, and beside another host.
pub fn placements_commute()
    ensures commute { PlacementsCommute }
    ensures places { PlacesWithRoom }
    ensures room { RoomIsWanted }
    ensures others { OthersAreWanted }
{}

/// Performing an operation that makes or releases a block, or awaits what is performed, commutes with every event of the others, where
/// it ends no batch, or no host asks how far queues have come. It ends none where more is left of the last batch that its queue has
/// taken, with all others performed; and where nobody asks, nobody does later. Whether such an operation comes next is computed on
/// worked programs.
pub fn unseen_operations_commute()
    ensures commute { UnseenOperationsCommute }
    ensures ends_none { MoreIsLeft }
    ensures later { NobodyAsksLater }
    ensures making { MakingIsUnseen }
    ensures releasing { ReleaseIsUnseenUnlessAsked }
{}

/// Where the owner may not close, performing an operation commutes with every event of the others, if no other queue has an operation to
/// perform that conflicts with it, and each host waits for its queue, or has no statement to begin that conflicts, or that is a directive
/// about an array of the operation. Whether such an operation comes next is computed on worked programs.
pub fn apart_operations_commute()
    ensures commute { ApartOperationsCommute }
    ensures prints { PrintsAreSeen }
    ensures placed { PlacedIsSeen }
    ensures named { NamingIsSeen }
{}

/// Where each queue is closed, an event may go first, whether the owner may close or not, if it may where he may not.
pub fn closed_queues_need_no_close()
    ensures { ClosedIsUnclosing }
{}

/// Events that are written as a schedule are read again, behind the text of another one, where the hosts and queues that they
/// name are there, as of those that can do something in a state. A worked schedule is written as it should be.
pub fn spelled_schedules_are_read()
    ensures read { SpelledIsRead }
    ensures named { EventsAreNamed }
    ensures worked { EachLineIsSpelled }
{}

/// So is the schedule that is told for an ending, behind the one that says the first events.
pub fn endings_are_said()
    ensures { EndingsAreSaid }
{}

/// Where others explore on, each behind a prefix of its own, and each misses no report, all of them together miss none. The schedule that
/// is told for a prefix is read as its events.
pub fn prefixes_miss_none_together()
    ensures together { TogetherMissNone }
    ensures said { PrefixesAreSaid }
{}
