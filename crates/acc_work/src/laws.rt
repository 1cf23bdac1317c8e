//! Laws over the definitions.

ghost use Rattle.acc_work.specs.Enabled.{NeverStuck};
ghost use Rattle.acc_work.specs.Lives.{AnyOrderIsLive};
ghost use Rattle.acc_work.specs.worked.Logs.{MiddleOfABatch, CopyOutIsSeen, LoopIsSeen, StuckWithoutOrder};
ghost use Rattle.acc_work.specs.Orders.{WholeIsGreatest};

/// Where labels use live blocks in the order of placing, and each awaits those before it on other queues whose blocks it
/// needs, each queue's next operation uses live blocks, in whatever order the queues have run.
pub fn any_order_is_live()
    ensures { AnyOrderIsLive }
{}

/// Where labels are in order and each batch's host has the items that stand before it, some queue can take a batch or perform
/// an operation as long as an operation that was placed isn't performed, whatever the queues have taken and performed.
pub fn never_stuck()
    ensures { NeverStuck }
{}

/// Performed batches and prints computed on corner cases: the middle of a batch, and prints before and behind a
/// copy out, also of what a loop made; and which queues go on, or are stuck.
pub fn worked_logs()
    ensures middle { MiddleOfABatch }
    ensures seen { CopyOutIsSeen }
    ensures looped { LoopIsSeen }
    ensures stuck { StuckWithoutOrder }
{}

/// The batches of a queue that are performed are as many as the operations performed cover.
pub fn whole_is_greatest()
    ensures { WholeIsGreatest }
{}
