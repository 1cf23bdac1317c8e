//! What the events of queues do, and the close of the owner.

ghost use Rattle.std.specs.Prelude.{◌≡◌, true, false, IsTrue};
ghost use Rattle.acc_place.specs.Histories.{is_closed, IsQueue};
ghost use Rattle.acc_core.specs.inner.Closing.{closing_begun, closes_one};
ghost use Rattle.acc_core.specs.Machine.{idle, step, standing_of};

use crate::accelerator::Accelerator;
use crate::queue::holds_none;
use acc_base::QueueAt;
use acc_host::Reply;
use acc_work::Done;

impl Accelerator {
    ghost use Rattle.acc_host.specs.declared.event.Event.TheVariants as event;

    /// Whether a queue has no batch to take. Then it takes none.
    #[inline(always)]
    pub(crate) fn takes_nothing(&self, at: QueueAt) -> bool
        ensures { IsTrue result → step false self.now (event.Take at) ≡ idle self.now }
    {
        self.work.keeps();
        if self.unfinished == 0 {
            return true;
        }
        holds_none(self.queues.as_slice(), at)
    }

    /// Whether a queue has no operation to perform. Then it performs none.
    #[inline(always)]
    pub(crate) fn performs_nothing(&self, at: QueueAt) -> bool
        ensures { IsTrue result → step false self.now (event.Perform at) ≡ idle self.now }
    {
        self.work.keeps();
        if self.unfinished == 0 {
            return true;
        }
        self.work.lane_empty(at)
    }

    /// A queue takes a batch.
    pub(crate) fn take(&mut self, at: QueueAt) -> Reply
        ensures { step false self.old (event.Take at)
            ≡ record { reply = result; state = self.new } }
    {
        self.work.keeps();
        if self.unfinished == 0 {
            return Reply::Idle;
        }
        let QueueAt { device, queue } = at;
        if holds_none(self.queues.as_slice(), QueueAt { device, queue }) {
            return Reply::Idle;
        }
        if !self.work.lane_empty(QueueAt { device, queue }) {
            return Reply::Idle;
        }
        let seat = QueueAt { device, queue }.seat();
        match self.queues[seat].pop() {
            None => Reply::Idle,
            Some(batch) => {
                self.work.offer(QueueAt { device, queue }, batch);
                Reply::Did
            }
        }
    }

    /// A queue performs an operation.
    pub(crate) fn perform(&mut self, at: QueueAt) -> Reply
        ensures { step false self.old (event.Perform at)
            ≡ record { reply = result; state = self.new } }
    {
        self.work.keeps();
        if self.unfinished == 0 {
            return Reply::Idle;
        }
        let QueueAt { device, queue } = at;
        match self.work.perform(QueueAt { device, queue }) {
            Done::Idle => Reply::Idle,
            Done::Op => {
                if self.work.lane_empty(QueueAt { device, queue }) {
                    self.unfinished -= 1;
                }
                Reply::Did
            }
        }
    }

    /// The owner closes.
    pub(crate) fn close(&mut self) -> Reply
        ensures { step false self.old event.Close ≡ record { reply = result; state = self.new } }
    {
        self.begin_closing();
        let mut remaining = 0u32;
        for index in 0..self.config().queue_count() {
            if !self.close_queue(QueueAt::at_seat(index)) {
                remaining += 1;
            }
        }
        Reply::Remaining(remaining)
    }

    // Closing begins, if it hasn't.
    fn begin_closing(&mut self)
        ensures state { self.new ≡ closing_begun self.old }
        ensures closing { (standing_of self.new).closing ≡ true }
    {
        self.place.close_begin();
    }

    // Closes a queue, if it isn't closed and there is room, and answers whether it is closed then.
    fn close_queue(&mut self, at: QueueAt) -> bool
        requires there { IsQueue self.old.config at }
        requires begun { (standing_of self.old).closing ≡ true }
        ensures state { self.new ≡ closes_one self.old at }
        ensures closed { result ≡ is_closed (standing_of self.new) at }
    {
        self.work.keeps();
        let QueueAt { device, queue } = at;
        match self.place.close_batch(QueueAt { device, queue }) {
            None => true,
            Some(batch) => {
                let config = self.place.config();
                config.keeps();
                let seat = QueueAt { device, queue }.seat();
                if config.room() as usize <= self.queues[seat].len() {
                    self.place.close_back(QueueAt { device, queue }, batch);
                    return false;
                }
                self.place.close_done(QueueAt { device, queue });
                self.queues[seat].push_last(batch);
                self.unfinished += 1;
                true
            }
        }
    }
}
