//! Laws over the definitions.

ghost use Rattle.acc_core.specs.worked.Closes.{LateIsRefused, FullIsClosedLater, HostsGoOn};
ghost use Rattle.acc_core.specs.worked.Programs.{EnteredTwice, OverlapRefused, StaleHostCopy, LoopRuns, LoopOnPresent};
ghost use Rattle.acc_core.specs.Machine.{EachQueueIsCounted};
ghost use Rattle.acc_core.specs.Worlds.{ProgramsStay, RunsAreLegal};
ghost use Rattle.acc_core.specs.worked.Hosts.{OneHostIsRefused, LoopIsDoneAtTheWait, QuestionsTellTheirMoment};
ghost use Rattle.acc_core.specs.worked.Queues.{UseAwaitsItsMaker, ReleaseAwaitsEachUse, AsyncValuesNameQueues, DefaultQueueRunsInOrder, WaitsAreBatches, CapacityIsOfWhatIsPresent};

use acc_host::hosts_follow;

/// Every run of the machine from its first state on is legal, and each host's entries follow its program, whoever gave the events:
/// so is what a report tells.
pub fn runs_are_legal()
    ensures { RunsAreLegal }
{
    hosts_follow();
}

/// No run changes what a host's program is.
pub fn programs_stay()
    ensures { ProgramsStay }
{}

/// The machine computed on five programs: a range that enters twice and leaves once, a range that
/// overlaps a present one, a host write under a present range, a loop with clauses that runs where another one is
/// refused, and a loop over what is present.
pub fn worked_programs()
    ensures twice { EnteredTwice }
    ensures overlap { OverlapRefused }
    ensures stale { StaleHostCopy }
    ensures runs { LoopRuns }
    ensures on_present { LoopOnPresent }
{}

/// The machine computed on programs with several queues: a use that awaits its maker, a release that awaits each use, the
/// queues that async values name, a host's default async value, waits that are batches, and capacity that a queued release
/// doesn't hold.
pub fn worked_queues()
    ensures use_awaits { UseAwaitsItsMaker }
    ensures release_awaits { ReleaseAwaitsEachUse }
    ensures values { AsyncValuesNameQueues }
    ensures in_order { DefaultQueueRunsInOrder }
    ensures waits { WaitsAreBatches }
    ensures capacity { CapacityIsOfWhatIsPresent }
{}

/// The machine computed on programs with several hosts and devices: a host that is refused beside one that goes on, a loop
/// that is performed at its wait, and questions that tell their moment.
pub fn worked_hosts()
    ensures refused { OneHostIsRefused }
    ensures loops { LoopIsDoneAtTheWait }
    ensures questions { QuestionsTellTheirMoment }
{}

/// The machine computed on programs whose owner closes: a late directive that is refused, a full queue that is closed later,
/// and a host that goes on.
pub fn worked_closes()
    ensures late { LateIsRefused }
    ensures later { FullIsClosedLater }
    ensures hosts { HostsGoOn }
{}

/// Among the counts of batches that were taken, each queue of each device has its own, whatever the number
/// of devices.
pub fn each_queue_is_counted()
    ensures { EachQueueIsCounted }
{}
