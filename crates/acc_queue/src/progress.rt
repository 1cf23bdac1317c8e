//! How many batches each queue has performed, in words that are read without a lock.

ghost use Rattle.std.specs.Prelude.{◌≡◌, ◌↔◌, ◌<◌, ◌≤◌, ◌*◌, ◌^◌, replicate, length, slice_index, slice_set, IfOk, IsTrue};
ghost use Rattle.acc_base.specs.Faults.{OnlyMemory};
ghost use Rattle.acc_base.specs.Queues.{seat};
ghost use Rattle.acc_base.specs.declared.ids.TheConstants.{QUEUES};
ghost use Rattle.acc_queue.specs.Seen.{HasWord, more, max_each, raised_at};

use crate::knows::Knows;
use acc_base::{Fault, QUEUES, QueueAt};
use atomic_table::{Join, Play, Seat, Split, Table, TableRule};
use std::alloc::Global;
use std::marker::Model;
use std::sync::Arc;

// Each word is the number that the writing seat has published, and no reader has seen more.
struct Words;

impl TableRule<u64, Knows, u64> for Words {
    ghost use Rattle.std.specs.Prelude.{true, replicate};
    ghost use Rattle.acc_queue.specs.Published.{Published, knows};

    ghost holds = { λ n s. Published s };

    ghost first = { λ n. knows true (replicate n 0) 0 };
}

struct Raise;

impl Play<u64, Knows> for Raise {
    ghost use Rattle.acc_queue.specs.Published.{Raises};

    ghost then = { Raises };
}

struct Read;

impl Play<u64, Knows> for Read {
    ghost use Rattle.acc_queue.specs.Published.{ReadsWord};

    ghost then = { ReadsWord };
}

// A reader beside the writer, or beside another reader.
struct Beside;

impl Split<Knows> for Beside {
    ghost use Rattle.std.specs.Prelude.{false};
    ghost use Rattle.acc_queue.specs.Published.{knows};

    ghost left = { λ v. v };

    ghost right = { λ v. knows false v.numbers 0 };
}

// Two readers in one.
struct Together;

impl Join<Knows> for Together {
    ghost use Rattle.std.specs.Prelude.{false, []};
    ghost use Rattle.acc_queue.specs.Seen.{max_each};
    ghost use Rattle.acc_queue.specs.Published.{knows};

    ghost both = { λ v w. knows v.writes (max_each v.numbers w.numbers) v.reads };

    ghost spent = { knows false [] 0 };
}

type Board = Table<u64, Knows, u64, Words, Global>;

/// A number for each queue: how many batches it has performed.
pub struct Progress;

/// The end that raises the numbers. A contract sees which words they are, and the numbers that it has published, by device, then in
/// queue order.
#[derive(Drop)]
pub struct Publisher {
    board: Arc<Board, Global>,
    seat: Seat<u64, Knows>,
}

/// An end that reads the numbers. A contract sees which words they are, the numbers that it has seen, and how often it read.
#[derive(Drop)]
pub struct Reader {
    board: Arc<Board, Global>,
    seat: Seat<u64, Knows>,
}

impl Model for Publisher {
    ghost use Rattle.std.specs.Prelude.{◌≡◌, ◌<◌, true, length, []};
    ghost use Rattle.std.specs.Arc.{arc_value};
    ghost use Rattle.acc_queue.specs.Seen.{Raised};

    ghost Value = { Raised };

    ghost view = { λ s. record { table = s.seat.table_id; numbers = s.seat.me.0.numbers } };

    ghost invariant = { λ s. (s.seat.table_id ≡ (arc_value s.board).shared.table_id) × (s.seat.me.0.writes ≡ true) × (length s.seat.me.0.numbers ≡ s.seat.table_id.words) × (s.seat.me.1 ≡ []) × (0 < s.seat.table_id.words) };
}

impl Model for Reader {
    ghost use Rattle.std.specs.Prelude.{◌≡◌, ◌<◌, false, length, []};
    ghost use Rattle.std.specs.Arc.{arc_value};
    ghost use Rattle.acc_queue.specs.Seen.{Seen};

    ghost Value = { Seen };

    ghost view = { λ s. record { table = s.seat.table_id; numbers = s.seat.me.0.numbers; reads = s.seat.me.0.reads } };

    ghost invariant = { λ s. (s.seat.table_id ≡ (arc_value s.board).shared.table_id) × (s.seat.me.0.writes ≡ false) × (length s.seat.me.0.numbers ≡ s.seat.table_id.words) × (s.seat.me.1 ≡ []) × (0 < s.seat.table_id.words) };
}

impl Progress {
    /// The numbers of the queues of so many devices, each 0: the end that raises them, and one that reads them.
    ///
    /// # Errors
    ///
    /// `Memory` where memory is refused.
    pub fn new(alloc: Global, devices: u8) -> Result<(Publisher, Reader), Fault>
        requires { 0 < devices }
        ensures published { IfOk result (λ r. r.0.numbers ≡ replicate (devices * QUEUES) 0) }
        ensures seen { IfOk result (λ r. r.1.numbers ≡ replicate (devices * QUEUES) 0) }
        ensures table { IfOk result (λ r. r.1.table ≡ r.0.table) }
        ensures reads { IfOk result (λ r. r.1.reads ≡ 0) }
        ensures fault { OnlyMemory result }
    {
        let count = u64::from(devices) * u64::from(QUEUES);
        let words = Vec::from_elem(alloc, 0u64, count as usize)?;
        let (table, mut seat) = Board::of_words(alloc, words.as_slice(), &count)?;
        let board = Arc::new(alloc, table)?;
        let theirs = Arc::try_clone(&board)?;
        let other = board.shared.split_seat::<Beside>(&mut seat);
        let publisher = Publisher { board, seat };
        let reader = Reader {
            board: theirs,
            seat: other,
        };
        Ok((publisher, reader))
    }
}

impl Publisher {
    /// A queue has performed one batch more. It takes no memory, and is one step.
    pub fn raise(&mut self, at: QueueAt)
        requires there { HasWord self.old.numbers at }
        requires few { slice_index self.old.numbers (seat at) < 2 ^ 62 }
        ensures { self.new ≡ raised_at self.old at }
    {
        let index = at.seat();
        let Publisher { board, seat } = self;
        board.shared.fetch_add::<Raise>(seat, index, 1);
    }
}

impl Reader {
    /// Whether there is such a queue.
    pub fn has_queue(&self, at: QueueAt) -> bool
        ensures { IsTrue result ↔ HasWord self.now.numbers at }
    {
        at.queue.number() < QUEUES && at.seat() < self.board.word_count()
    }

    /// How many batches a queue has performed. It takes no memory, waits for nobody, and is one step.
    pub fn progress(&mut self, at: QueueAt) -> u64
        requires there { HasWord self.old.numbers at }
        ensures table { self.new.table ≡ self.old.table }
        ensures seen { self.new.numbers ≡ slice_set self.old.numbers (seat at) result }
        ensures grows { slice_index self.old.numbers (seat at) ≤ result }
        ensures read { self.new.reads ≡ more self.old.reads }
    {
        let index = at.seat();
        let Reader { board, seat } = self;
        board.shared.load::<Read>(seat, index)
    }

    /// One more reader, which has seen what this one has.
    ///
    /// # Errors
    ///
    /// `Memory` where memory is refused.
    pub fn split(&mut self) -> Result<Reader, Fault>
        ensures same { self.new ≡ self.old }
        ensures other { IfOk result (λ r. (r.table ≡ self.old.table)
            × (r.numbers ≡ self.old.numbers) × (r.reads ≡ 0)) }
        ensures fault { OnlyMemory result }
    {
        let Reader { board, seat } = self;
        let theirs = Arc::try_clone(board)?;
        let other = board.shared.split_seat::<Beside>(seat);
        Ok(Reader {
            board: theirs,
            seat: other,
        })
    }

    /// What the other reader has seen, this one has seen too. It takes no memory, and is one step.
    pub fn join(&mut self, other: Reader)
        requires { other.table ≡ self.old.table }
        ensures table { self.new.table ≡ self.old.table }
        ensures both { self.new.numbers ≡ max_each self.old.numbers other.numbers }
        ensures reads { self.new.reads ≡ self.old.reads }
    {
        let Reader { board, seat } = self;
        let Reader {
            board: _,
            seat: other,
        } = other;
        board.shared.join_seat::<Together>(seat, other);
    }
}
