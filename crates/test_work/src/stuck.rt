//! Batches that no directive leads to: their queue stays before what isn't allowed there, and other queues go on.

ghost use Rattle.std.specs.Prelude.{◌≡◌, ◌<◌};
ghost use Rattle.acc_base.specs.declared.config.TheConstants.{MAX_HOSTS};

use crate::words::Word::{self, Await, CopyIn, CopyOut, Make, Release, Run};
use crate::words::{A, B, Span, entries, offer, offer_behind, performed, queue, work_side};
use acc_base::{DeviceId, Fault, HostId, QUEUES, QueueAt, QueueId};
use acc_kernel::Job;
use acc_work::{Done, Item, Work};
use std::alloc::Global;
use std::process::Abort;
use std::test::Fail;

/// The last operation of each uses a block that isn't there, or makes one that was made.
const NOT_LIVE: &[&[Word]] = &[
    // a block that was never made
    &[CopyIn(1, A)],
    &[CopyOut(1, A)],
    &[Release(1)],
    &[Make(2, B), Run(1, 2)],
    &[Make(1, A), Run(1, 2)],
    // one that was released
    &[Make(1, A), Release(1), CopyIn(1, A)],
    &[Make(1, A), Release(1), CopyOut(1, A)],
    &[Make(1, A), Release(1), Release(1)],
    &[Make(1, A), Make(2, B), Release(2), Run(1, 2)],
    &[Make(1, A), Make(2, B), Run(1, 2), Release(1), Run(1, 2)],
    // one that was made
    &[Make(1, A), Make(1, A)],
    &[Make(1, A), Make(1, B)],
    &[Make(1, A), Release(1), Make(1, A)],
];

/// A range that passes the end of its array, one of no array, and one of no cell.
const LONG: Span = (0, 1, 2);

const FAR: Span = (2, 0, 1);

const NONE: Span = (0, 1, 0);

/// The first cell of a, and the second of b.
const FIRST: Span = (0, 0, 1);

const SECOND: Span = (1, 1, 1);

/// The last operation of each makes a block of cells that its array doesn't have, or uses cells that the block doesn't have.
const PAST_RANGES: &[&[Word]] = &[
    &[Make(1, LONG)],
    &[Make(1, FAR)],
    &[Make(1, NONE)],
    &[Make(1, FIRST), CopyIn(1, A)],
    &[Make(1, FIRST), CopyOut(1, A)],
    &[Make(1, A), CopyIn(1, LONG)],
    &[Make(1, A), CopyOut(1, B)],
    &[Make(1, FIRST), Make(2, B), Run(1, 2)],
    &[Make(1, A), Make(2, SECOND), Run(1, 2)],
    &[Make(1, B), Make(2, A), Run(1, 2)],
];

/// The last operation of each awaits a batch that never comes: of a queue that takes none, of one that isn't there, behind the only
/// one of a queue, its own, and one behind that.
const NEVER: &[&[Word]] = &[
    &[Await(5, 1)],
    &[Await(16, 1)],
    &[Await(255, 1)],
    &[Make(1, A), Await(4, 2)],
    &[Await(4, u64::MAX)],
    &[Await(3, 1)],
    &[Make(1, A), Await(3, 2)],
];

// What is done with two blocks; six operations.
fn round(a: u64, b: u64) -> [Word; 6] {
    [
        Make(a, A),
        CopyIn(a, A),
        Make(b, B),
        Run(a, b),
        CopyOut(b, B),
        Release(b),
    ]
}

// The queue of the second device with the number 3.
fn on_second() -> QueueAt
    ensures device { result.device ≡ 1 }
    ensures queue { result.queue ≡ 3 }
{
    QueueAt {
        device: DeviceId::new(1),
        queue: QueueId::new(3),
    }
}

// A work side, of whose first device a queue has taken these, behind so many items of their host, and a block more; another queue is
// to do a round with other blocks, and one of the second device a round with blocks of the same numbers.
fn side_of(alloc: Global, items_done: u64, words: &[Word]) -> Result<Work, Fault> {
    let mut all = Vec::from_slice(alloc, words)?;
    all.push(Make(3, B))?;
    let mut work = work_side(alloc)?;
    offer_behind(alloc, &mut work, queue(3), items_done, all.as_slice())?;
    offer(alloc, &mut work, queue(4), &round(7, 8))?;
    offer(alloc, &mut work, on_second(), &round(1, 2))?;
    Ok(work)
}

// Room for a loop that is left, if there is one.
fn room(alloc: Global, work: &Work) -> Option<Box<Job>> {
    match work.ahead(queue(3)) {
        None => None,
        Some(ahead) => ahead.room(alloc, None),
    }
}

// However often a queue is asked, it performs nothing, and no loop goes out of it: the log is as it was, and two operations are left, of
// which the next goes on and uses live blocks as wanted.
fn check_stays(
    rt: &impl Abort,
    alloc: Global,
    work: &mut Work,
    words: &[Word],
    wanted: (bool, bool),
) {
    let before = entries(work.log());
    let mut room = room(alloc, work);
    for _ in 0..3u8 {
        let performed = work.perform(queue(3)) == Done::Op;
        let is_out = work.start_job(queue(3), &mut room).is_some();
        let is_live = (work.goes_on(queue(3)), work.is_live(queue(3)));
        let left = (entries(work.log()), work.ops_left(queue(3)));
        assert_eq!(rt; (performed, is_out), (false, false), "{words:?}");
        assert_eq!(rt; (is_live, left), (wanted, (before, 2)), "{words:?}");
    }
}

// All but the last of these are performed, and their queue stays there, before and behind each operation of two other queues, which
// perform all that they took.
fn check_stuck(
    rt: &impl Abort,
    alloc: Global,
    items_done: u64,
    words: &[Word],
    wanted: (bool, bool),
) -> Result<(), Fault> {
    let mut work = side_of(alloc, items_done, words)?;
    for _ in 1..words.len() {
        assert!(rt; work.perform(queue(3)) == Done::Op, "{words:?}");
    }
    for _ in 0..6u8 {
        check_stays(rt, alloc, &mut work, words, wanted);
        assert!(rt; work.perform(queue(4)) == Done::Op);
        assert!(rt; work.perform(on_second()) == Done::Op);
    }
    check_stays(rt, alloc, &mut work, words, wanted);
    assert!(rt; work.lane_empty(queue(4)) && work.lane_empty(on_second()));
    assert_eq!(rt;
        (work.host_cell(0, 0), work.host_cell(1, 1)),
        (Some(7), Some(10))
    );
    Ok(())
}

/// It goes on, and its blocks aren't live.
#[test]
fn an_operation_without_its_block_stays(rt: HostRuntime) -> Result<(), Fail> {
    for words in NOT_LIVE {
        check_stuck(&rt, rt.alloc(), 0, words, (true, false))?;
    }
    Ok(())
}

/// So does one that needs other cells than are there.
#[test]
fn an_operation_without_its_cells_stays(rt: HostRuntime) -> Result<(), Fail> {
    for words in PAST_RANGES {
        check_stuck(&rt, rt.alloc(), 0, words, (true, false))?;
    }
    Ok(())
}

/// It doesn't go on.
#[test]
fn an_operation_behind_what_never_comes_stays(rt: HostRuntime) -> Result<(), Fail> {
    for words in NEVER {
        check_stuck(&rt, rt.alloc(), 0, words, (false, true))?;
    }
    Ok(())
}

/// A batch of a host that hasn't told all items that stand before it doesn't go on, whether its blocks are live or not.
#[test]
fn an_operation_of_a_host_that_lacks_items_stays(rt: HostRuntime) -> Result<(), Fail> {
    for items_done in [1, u64::MAX] {
        check_stuck(&rt, rt.alloc(), items_done, &[Make(1, A)], (false, true))?;
        check_stuck(&rt, rt.alloc(), items_done, &[Release(1)], (false, false))?;
        check_stuck(&rt, rt.alloc(), items_done, &[Run(1, 2)], (false, false))?;
    }
    Ok(())
}

/// What another queue is still to make, or to perform.
const LATER: &[Word] = &[CopyIn(7, A), CopyOut(7, A), Release(7), Await(4, 1)];

/// A queue that stays goes on as soon as it may.
#[test]
fn an_operation_whose_block_is_made_later_is_performed_then(rt: HostRuntime) -> Result<(), Fail> {
    for word in LATER {
        let mut work = side_of(rt.alloc(), 0, &[*word])?;
        assert!(rt; work.perform(queue(3)) == Done::Idle, "{word:?}");
        assert_eq!(rt; performed(&mut work, 4, 6), 6);
        assert_eq!(rt; performed(&mut work, 3, 3), 2, "{word:?}");
    }
    Ok(())
}

// A host asks a question, which is an item.
fn ask(alloc: Global, work: &mut Work, host: u8) -> Result<(), Fault>
    requires { host < MAX_HOSTS }
{
    let item = Item::test(alloc, DeviceId::new(0), [0; QUEUES as usize])?;
    match work.tell(alloc, HostId::new(host), item) {
        Ok(_) => Ok(()),
        Err((_, fault)) => Err(fault),
    }
}

/// So does one of a host that lacks items, behind the last of these; another host's don't count.
#[test]
fn an_operation_waits_for_the_items_of_its_host(rt: HostRuntime) -> Result<(), Fail> {
    let mut work = side_of(rt.alloc(), 2, &[Make(1, A)])?;
    for host in [0u8, 1, 1, 0] {
        assert!(rt; work.perform(queue(3)) == Done::Idle);
        ask(rt.alloc(), &mut work, host)?;
    }
    assert_eq!(rt; performed(&mut work, 3, 3), 2);
    Ok(())
}
