//! A loop that is out comes back: to its lane, where a block that it uses was released meanwhile, which no directive leads to, and to a
//! lane that doesn't wait for it.

ghost use Rattle.std.specs.Prelude.{◌≡◌, IfOk, length};

use crate::words::{A, B, Word, entries, offer, performed, queue, work_side};
use acc_base::{BlockId, DeviceId, Fault};
use acc_kernel::Job;
use acc_work::{Done, JobOut, Work};
use std::alloc::Global;
use std::process::Abort;
use std::test::Fail;
use tool_scarce::{Hoard, at_each_amount};

/// Where a work side stands: how many entries its log has; of queue `1`, how many operations are left, whether the next one goes on, and
/// whether its blocks are live; and the first cell of b on the device.
type Stand = (usize, usize, bool, bool, Option<i64>);

/// All is performed but the loop.
const BEFORE: Stand = (3, 1, true, true, Some(0));

/// The loop is performed too.
const BEHIND: Stand = (4, 0, false, false, Some(8));

/// Blocks for a, which is copied in, and for b, and the loop.
const ENTRY_AND_LOOP: &[Word] = &[
    Word::Make(1, A),
    Word::CopyIn(1, A),
    Word::Make(2, B),
    Word::Run(1, 2),
];

/// A work side whose queue `1` has taken its entry and its loop, and whose queue `2` is to release a.
pub fn taken(alloc: Global) -> Result<Work, Fault>
    ensures { IfOk result (λ work. length work.memory.devices ≡ 2) }
{
    let mut work = work_side(alloc)?;
    offer(alloc, &mut work, queue(3), ENTRY_AND_LOOP)?;
    offer(alloc, &mut work, queue(4), &[Word::Release(1)])?;
    Ok(work)
}

// The same, where all is performed but the loop.
fn work_of(alloc: Global) -> Result<Work, Fault> {
    let mut work = taken(alloc)?;
    let _ = performed(&mut work, 3, 3);
    Ok(work)
}

fn check(rt: &impl Abort, work: &Work, wanted: Stand) {
    let found = (
        entries(work.log()),
        work.ops_left(queue(3)),
        work.goes_on(queue(3)),
        work.is_live(queue(3)),
        work.block_cell(DeviceId::new(0), BlockId::new(2), 0),
    );
    assert_eq!(rt; found, wanted);
}

// Room for the loop of queue `1`.
fn room(alloc: Global, work: &Work) -> Result<Option<Box<Job>>, Fault> {
    match work.ahead(queue(3)) {
        None => Err(Fault::Unfinished),
        Some(ahead) => match ahead.room(alloc, None) {
            None => Err(Fault::Memory),
            room => Ok(room),
        },
    }
}

// The loop of queue `1` goes out, to be computed in room of its own, if it can.
pub fn start(alloc: Global, work: &mut Work) -> Result<Option<JobOut>, Fault> {
    let mut room = room(alloc, work)?;
    Ok(work.start_job(queue(3), &mut room))
}

// A job is computed, and goes to a work side, which takes it or gives it back.
fn commit(work: &mut Work, job: Option<JobOut>) -> Result<Option<JobOut>, Fault> {
    let Some(mut job) = job else {
        return Err(Fault::Unfinished);
    };
    job.compute();
    Ok(work.commit_job(job).err())
}

// Queue `2` releases a while the loop is out.
fn check_released(rt: &impl Abort, alloc: Global, work: &mut Work) -> Result<(), Fault> {
    let job = start(alloc, work)?;
    assert!(rt; work.perform(queue(4)) == Done::Op);
    check(rt, work, (4, 1, false, false, Some(0)));
    assert!(rt; commit(work, job)?.is_none());
    check(rt, work, (4, 1, true, false, Some(0)));
    assert!(rt; start(alloc, work)?.is_none());
    assert!(rt; work.perform(queue(3)) == Done::Idle);
    check(rt, work, (4, 1, true, false, Some(0)));
    Ok(())
}

/// It is taken and not performed: the log is as it was, and the lane has the loop, which doesn't go out again, as a block that was released
/// is never made again.
#[test]
fn a_loop_whose_block_was_released_stays_in_its_lane(rt: HostRuntime) -> Result<(), Fail> {
    let mut work = work_of(rt.alloc())?;
    check(&rt, &work, BEFORE);
    check_released(&rt, rt.alloc(), &mut work)?;
    Ok(())
}

// The job of another work side goes to one of which no loop is out, before and behind its loop, and then to its own.
fn check_strays(
    rt: &impl Abort,
    alloc: Global,
    work: &mut Work,
    other: &mut Work,
) -> Result<(), Fault> {
    let back = commit(work, start(alloc, other)?)?;
    check(rt, work, BEFORE);
    let own = start(alloc, work)?;
    assert!(rt; commit(work, own)?.is_none());
    check(rt, work, BEHIND);
    let again = commit(work, back)?;
    check(rt, work, BEHIND);
    check(rt, other, (3, 1, false, true, Some(0)));
    assert!(rt; commit(other, again)?.is_none());
    check(rt, other, BEHIND);
    Ok(())
}

#[test]
fn a_job_that_is_not_out_comes_back_and_changes_nothing(rt: HostRuntime) -> Result<(), Fail> {
    let mut work = work_of(rt.alloc())?;
    let mut other = work_of(rt.alloc())?;
    check_strays(&rt, rt.alloc(), &mut work, &mut other)?;
    Ok(())
}

/// Where there is no room for it, a loop is run as it comes back.
#[test]
fn a_loop_without_room_is_performed(rt: HostRuntime) -> Result<(), Fail> {
    let mut work = work_of(rt.alloc())?;
    let job = work.start_job(queue(3), &mut None);
    assert!(rt; commit(&mut work, job)?.is_none());
    check(&rt, &work, BEHIND);
    Ok(())
}

/// Both rows of two cells take memory.
#[test]
fn room_for_a_loop_is_refused_until_there_is_memory(rt: HostRuntime) -> Result<(), Fail> {
    let mut work = work_of(rt.alloc())?;
    let (refusals, mut room) = at_each_amount(rt.alloc(), || room(rt.alloc(), &work))?;
    assert!(rt; 2 < refusals);
    let job = work.start_job(queue(3), &mut room);
    assert!(rt; commit(&mut work, job)?.is_none());
    check(&rt, &work, BEHIND);
    Ok(())
}

/// How a loop is performed.
#[derive(Clone, Copy, Debug)]
enum Way {
    /// In its turn.
    InPlace,
    /// It goes out, and there is no room for it.
    Out,
    /// It goes out, and room for it was made before.
    OutWithRoom,
}

// Performs the loop so, where all memory is refused if it is scarce. The answers: whether room for it was refused, and whether it was
// performed.
fn lone_loop(
    alloc: Global,
    work: &mut Work,
    way: Way,
    scarce: bool,
) -> Result<(bool, bool), Fault> {
    let mut made = match way {
        Way::OutWithRoom => room(alloc, work)?,
        Way::InPlace | Way::Out => None,
    };
    let mut hoard = Hoard::new(alloc)?;
    if scarce {
        hoard.fill(alloc);
    }
    let refused = room(alloc, work).is_err();
    let done = match way {
        Way::InPlace => work.perform(queue(3)) == Done::Op,
        Way::Out | Way::OutWithRoom => {
            let job = work.start_job(queue(3), &mut made);
            matches!(commit(work, job), Ok(None))
        }
    };
    hoard.free();
    Ok((refused, done))
}

/// Where all memory is refused a loop goes out, is computed and comes back all the same, in room that was made before and without.
#[test]
fn a_loop_takes_no_memory(rt: HostRuntime) -> Result<(), Fail> {
    // first with memory, so that the stack has grown before all is refused
    for scarce in [false, true] {
        for way in [Way::InPlace, Way::Out, Way::OutWithRoom] {
            let mut work = work_of(rt.alloc())?;
            let answers = lone_loop(rt.alloc(), &mut work, way, scarce)?;
            assert_eq!(rt; answers, (scarce, true));
            check(&rt, &work, BEHIND);
        }
    }
    Ok(())
}
