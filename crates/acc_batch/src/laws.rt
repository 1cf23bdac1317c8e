//! Laws over the definitions.

ghost use Rattle.acc_batch.specs.worked.Awaits.{AwaitsAsNeeded, AreInOrder, AreRefused};
ghost use Rattle.acc_batch.specs.Awaits.{BatchesAreOrdered, ClosesAreOrdered};

/// A batch that is placed behind its awaits stands behind every earlier batch that it needs for a block: it is on the same
/// queue, or awaits it. What it awaits was placed before it. So it is with a queue's close, which needs none.
pub fn batches_are_ordered()
    ensures placed { BatchesAreOrdered }
    ensures closes { ClosesAreOrdered }
{}

/// Awaits computed behind short lists of labels, a label that stands behind what it needs, and labels that don't.
pub fn worked_awaits()
    ensures awaits { AwaitsAsNeeded }
    ensures ordered { AreInOrder }
    ensures refused { AreRefused }
{}
