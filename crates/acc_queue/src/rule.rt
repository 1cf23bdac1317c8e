//! The rule between the two ends of a queue, and what an end knows. Nothing here has bytes: it exists for contracts alone.

ghost use Rattle.std.specs.Prelude.{ℕ};
ghost use Rattle.acc_base.specs.declared.ids.QueueAt.{QueueAt};

use acc_base::QueueAt;
use acc_batch::{Batch, Label};
use crossbeam_queue::protocol::{Lesson, Outcome, Protocol, Split};
use std::collections::LinkedList;
use std::marker::{Brand, PhantomData};

/// What an end of a queue does: both, before the ends are parted.
pub(crate) enum Role {
    Both,
    Sends,
    Takes,
}

/// What an end of a queue knows: whose queue it is, its room in batches, and the labels that the end has sent, or has taken, in
/// order. No value of it is made.
pub(crate) struct End {
    pub role: Role,
    pub at: QueueAt,
    pub room: u64,
    pub labels: LinkedList<Label>,
}

/// What was sent is what was taken, followed by what the queue holds, each batch for this queue.
pub(crate) struct InOrder;

impl Protocol<Batch, End> for InOrder {
    ghost use Rattle.std.specs.Prelude.{[]};
    ghost use Rattle.acc_queue.specs.Tied.{Tied, end, no_queue};
    ghost use Rattle.acc_queue.specs.declared.rule.Role.TheVariants.{Both};

    ghost holds = { Tied };

    ghost first = { end Both no_queue 0 [] };
}

/// Whose queue it is, and its room, once the ends are parted.
pub(crate) trait Named {
    ghost at: { QueueAt };

    ghost room: { ℕ };
}

// a call picks them
impl Named for Brand {
    ghost use Rattle.acc_queue.specs.Tied.{no_queue};

    ghost at = { no_queue };

    ghost room = { 0 };
}

/// One end sends, and the other takes.
pub(crate) struct Parts<B: Named> {
    of: PhantomData<B>,
}

impl<B: Named> Split<End> for Parts<B> {
    ghost use Rattle.std.specs.Prelude.{[]};
    ghost use Rattle.acc_queue.specs.Tied.{end};
    ghost use Rattle.acc_queue.specs.declared.rule.Role.TheVariants.{Sends, Takes};

    ghost left = { λ v. end Sends B.at B.room [] };

    ghost right = { λ v. end Takes B.at B.room [] };
}

/// A push: the label is the last that was sent. Where the room was full, the queue held the last of those that were sent.
pub(crate) struct Pushed;

impl Outcome<Batch, End> for Pushed {
    ghost use Rattle.std.specs.Prelude.{◌≡◌, ◌++◌, ◌∷◌, []};
    ghost use Rattle.acc_queue.specs.Tied.{end};

    ghost then = { λ v sent w. w ≡ end v.role v.at v.room (v.labels ++ sent ∷ []) };
}

impl Lesson<Batch, End> for Pushed {
    ghost use Rattle.std.specs.Prelude.{◌≡◌, ◌++◌, List};
    ghost use Rattle.acc_batch.specs.declared.label.Label.{Label};

    ghost fact = { λ v items. (taken : List Label) × (v.labels ≡ taken ++ items) };
}

/// A pop: the label is for this queue, and the last that was taken.
pub(crate) struct Popped;

impl Outcome<Batch, End> for Popped {
    ghost use Rattle.std.specs.Prelude.{◌≡◌, ◌++◌, ◌∷◌, []};
    ghost use Rattle.acc_queue.specs.Tied.{IsFor, end};

    ghost then = { λ v taken w. (w ≡ end v.role v.at v.room (v.labels ++ taken ∷ [])) × IsFor v.at taken };
}

impl Lesson<Batch, End> for Popped {
    ghost use Rattle.std.specs.Prelude.{⊤};

    ghost fact = { λ v items. ⊤ };
}
