//! Laws over the definitions.

ghost use Rattle.acc_place.specs.worked.Awaits.{ReleaseAwaitsTheLoop, UsesAwaitTheMaker, FullWhereItIsPresent, WaitsAlone, NoSuchQueue, DevicesApart, CountsOfWaits, QueuesOfValues};
ghost use Rattle.acc_place.specs.worked.Batches.{GroupByGroup, PartIsCopiedOut, LeavesOnce, EntersAgain, EmptyBatch};
ghost use Rattle.acc_place.specs.worked.Clauses.{DataClauses, ItemCounts, AsyncClauses, WaitClauses};
ghost use Rattle.acc_place.specs.worked.Loops.{RunsOnPresent, CopiesImplicitly, TakesClauses, UsesConstructs, UsesOwnConstructs, StaysInRange, TakesNoTurn, LimitsItems, JudgesItems};
ghost use Rattle.acc_place.specs.worked.NoCreate.{AbsentWithoutAction, PresentIsCounted, TakesBackItsOwn, InItsTurn, NamesWhatItCounted};
ghost use Rattle.acc_place.specs.worked.Refusals.{EarlierItemFirst, ItemBeforeCounts, LimitsFirst, LastDirective, RangesOutside, CapacityReached};
ghost use Rattle.acc_place.specs.worked.Regions.{AbsentAtEntry, PresentAtEntry, LastExit, NotTheLastExit, Nested, OwnRegion, Depth, Entries, ExitsInside, Updates, Questions, ItemsInTurn};
ghost use Rattle.acc_place.specs.Sound.{AcceptedAreSound, AcceptedAreThere, AcceptedCloseLast, AcceptedHaveTheirCells};
ghost use Rattle.acc_place.specs.Counters.{AcceptedAreCounted, EndsTakeBack, EnteredCanBeLeft, EntriesAdd, OthersAreKept};
ghost use Rattle.acc_place.specs.Loops.{ReachIsJudged};
ghost use Rattle.acc_place.specs.worked.Closes.{LastBatches, RefusedForClosing, RegionsStay, ClosedOnce};
ghost use Rattle.acc_place.specs.Closing.{KeptByClosing};
ghost use Rattle.acc_place.specs.Plans.{KeptByAccepting, KeptByPlanning, KeptByTaking};

/// After accepted directives the structured counter of each present range is the number of the ranges inside it that
/// open data constructs have entered; so a data construct that a host is inside can be left.
pub fn accepted_directives_are_counted()
    ensures counted { AcceptedAreCounted }
    ensures left { EnteredCanBeLeft }
{}

/// The end of a data construct takes back what its entry counted, no more and no less, whatever came between.
pub fn ends_take_back_their_entries()
    ensures entries { EntriesAdd }
    ensures ends { EndsTakeBack }
    ensures others { OthersAreKept }
{}

/// A loop is refused for its reach exactly where it reaches a cell outside the range that it uses of the cell's array.
pub fn reach_is_judged()
    ensures { ReachIsJudged }
{}

/// A plan stays one of its place, whatever is accepted, planned or closed since: `Plan::fits` can always be asked.
pub fn plans_are_kept()
    ensures accepted { KeptByAccepting }
    ensures planned { KeptByPlanning }
    ensures closed { KeptByClosing }
{}

/// It stays one, and fits as it did, where its batch is handed out.
pub fn plans_outlast_their_batches()
    ensures { KeptByTaking }
{}

/// What data constructs mean, computed on short histories: each clause where its range is absent, present, and
/// at its last exit; regions inside one another; regions of two hosts; and how deep they go.
pub fn worked_regions()
    ensures absent { AbsentAtEntry }
    ensures present { PresentAtEntry }
    ensures last { LastExit }
    ensures counted { NotTheLastExit }
    ensures nested { Nested }
    ensures own { OwnRegion }
    ensures depth { Depth }
{}

/// What the clause `no_create` means, computed likewise: where its range is absent and where it is present, what the end takes
/// back, its turn among other items, and what a loop inside finds.
pub fn worked_no_create()
    ensures absent { AbsentWithoutAction }
    ensures present { PresentIsCounted }
    ensures back { TakesBackItsOwn }
    ensures turn { InItsTurn }
    ensures names { NamesWhatItCounted }
{}

/// What `enter data`, `exit data`, `update` and `acc_is_present` mean, computed likewise, and the first fault of
/// several items.
pub fn worked_directives()
    ensures entries { Entries }
    ensures inside { ExitsInside }
    ensures updates { Updates }
    ensures questions { Questions }
    ensures items { ItemsInTurn }
{}

/// Which clauses a directive may have, computed: data clauses by kind, how many items, and which directives go to a queue
/// or wait for some.
pub fn worked_clauses()
    ensures data { DataClauses }
    ensures counts { ItemCounts }
    ensures targets { AsyncClauses }
    ensures waits { WaitClauses }
{}

/// The first fault of a directive computed on corner cases: several faulty items, an item after those
/// before it, the limits before the items, the last directive of a run, ranges that aren't in an array, and
/// a device that is filled exactly.
pub fn worked_refusals()
    ensures items { EarlierItemFirst }
    ensures before { ItemBeforeCounts }
    ensures limits { LimitsFirst }
    ensures last { LastDirective }
    ensures ranges { RangesOutside }
    ensures capacity { CapacityReached }
{}

/// Batches computed on corner cases: two items, a part that is copied out, a range that leaves twice or enters
/// again, an empty batch.
pub fn worked_batches()
    ensures groups { GroupByGroup }
    ensures part { PartIsCopiedOut }
    ensures leaves { LeavesOnce }
    ensures enters { EntersAgain }
    ensures empty { EmptyBatch }
{}

/// What parallel loops mean, computed likewise: the items that they have, the ranges that they use, their batches, and
/// their first fault.
pub fn worked_loops()
    ensures present { RunsOnPresent }
    ensures implicit { CopiesImplicitly }
    ensures clauses { TakesClauses }
    ensures constructs { UsesConstructs }
    ensures own { UsesOwnConstructs }
    ensures range { StaysInRange }
    ensures turns { TakesNoTurn }
    ensures limit { LimitsItems }
    ensures items { JudgesItems }
{}

/// What directives on several queues and devices mean, computed likewise: which batches theirs await, the counts that
/// answer a `wait` or a question, and which queue a value names.
pub fn worked_queues()
    ensures release { ReleaseAwaitsTheLoop }
    ensures uses { UsesAwaitTheMaker }
    ensures full { FullWhereItIsPresent }
    ensures alone { WaitsAlone }
    ensures bad { NoSuchQueue }
    ensures devices { DevicesApart }
    ensures counts { CountsOfWaits }
    ensures values { QueuesOfValues }
{}

/// What closing leaves, computed likewise: the last batch of each queue, the first fault of every directive, data constructs
/// that can't be left any more, and which histories there are.
pub fn worked_closing()
    ensures last { LastBatches }
    ensures refused { RefusedForClosing }
    ensures regions { RegionsStay }
    ensures once { ClosedOnce }
{}

/// What accepted directives place uses live blocks on each device in the order of placing, and each batch awaits those
/// that it needs.
pub fn accepted_labels_are_sound()
    ensures { AcceptedAreSound }
{}

/// What accepted directives place is on queues that are there, and each batch has an operation.
pub fn accepted_labels_are_there()
    ensures { AcceptedAreThere }
{}

/// Each loop that accepted directives place has its cells: what it uses names each array at most once, and has all cells that the
/// loop reaches.
pub fn accepted_loops_have_their_cells()
    ensures { AcceptedHaveTheirCells }
{}

/// No operation is placed on a queue behind its close.
pub fn accepted_closes_are_last()
    ensures { AcceptedCloseLast }
{}
