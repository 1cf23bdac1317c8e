//! How many batches each queue has performed: that of one queue, or all of them.

ghost use Rattle.std.specs.Prelude.{◌≡◌, ◌<◌, replicate, slice_set, IfOk, IfSome};
ghost use Rattle.acc_base.specs.Faults.{OnlyMemory};
ghost use Rattle.acc_base.specs.declared.ids.TheConstants.{QUEUES};
ghost use Rattle.acc_batch.specs.Counted.{one_count};

use acc_base::{Boxed, Fault, QUEUES, QueueCounts, QueueId, is_nothing};
use std::alloc::Global;
use std::marker::Model;

/// How many batches each queue of a device has performed. A contract sees all numbers.
#[derive(Drop)]
pub struct Counts {
    form: Form,
}

#[derive(Drop)]
enum Form {
    // One queue has so many, and the others have none.
    One { queue: QueueId, count: u64 },
    All { counts: Boxed<QueueCounts> },
}

impl Model for Counts {
    ghost use Rattle.std.specs.Prelude.{List, ℕ};

    ghost Value = { List ℕ };

    ghost use Rattle.acc_batch.specs.Counted.{counts_of, IsForm};

    ghost view = { λ c. counts_of c.form };

    ghost invariant = { λ c. IsForm c.form };
}

impl Counts {
    /// It takes memory where more than one queue has some.
    ///
    /// # Errors
    ///
    /// `Memory` where memory is refused.
    pub fn new(alloc: Global, counts: QueueCounts) -> Result<Self, Fault>
        ensures counts { IfOk result (λ c. c ≡ counts) }
        ensures fault { OnlyMemory result }
    {
        if let Some((queue, count)) = only_count(&counts) {
            return Ok(Counts {
                form: Form::One { queue, count },
            });
        }
        let counts = Boxed::new(alloc, counts)?;
        Ok(Counts {
            form: Form::All { counts },
        })
    }

    /// The numbers, by queue.
    pub fn numbers(&self) -> QueueCounts
        ensures { result ≡ self.now }
    {
        match &self.form {
            Form::One { queue, count } => one_count(*queue, *count),
            Form::All { counts } => *counts.get(),
        }
    }
}

/// The counts of which that of one queue is this, and the others are 0.
pub fn one_count(queue: QueueId, count: u64) -> QueueCounts
    requires { queue < QUEUES }
    ensures { result ≡ one_count queue count }
{
    let mut counts = [0; QUEUES as usize];
    counts[usize::from(queue.number())] = count;
    counts
}

/// A queue and its count, where no other queue has one.
pub fn only_count(counts: &QueueCounts) -> Option<(QueueId, u64)>
    ensures queue { IfSome result (λ one. one.0 < QUEUES) }
    ensures only { IfSome result (λ one. one_count one.0 one.1 ≡ counts.now) }
{
    if is_nothing(&counts[1..]) {
        return Some((QueueId::SYNC, counts[0]));
    }
    let index = first_counted(counts);
    let queue = QueueId::new(index as u8);
    let count = counts[index];
    let one = one_count(queue, count);
    if one.as_slice() == counts.as_slice() {
        Some((queue, count))
    } else {
        None
    }
}

// Where the first count above zero stands, or the first one, if there is none.
fn first_counted(counts: &QueueCounts) -> usize
    ensures { result < QUEUES }
{
    for index in 0..usize::from(QUEUES) {
        if counts[index] != 0 {
            return index;
        }
    }
    0
}
