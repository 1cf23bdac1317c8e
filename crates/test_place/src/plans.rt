//! A plan that another directive has overtaken, and the same directive planned anew: two plans at
//! once, where a contract tells of one.

ghost use Rattle.std.specs.Prelude.{IfOk};
ghost use Rattle.acc_place.specs.Plans.{IsPlanOf};

use crate::fixtures::{answer, check_batch, check_present, check_same, place_of, synchronous};
use crate::tables::Cells::A;
use crate::tables::Deed::{In, Make};
use crate::tables::Step;
use crate::tables::Word::Enter;
use acc_base::{Fault, HostId};
use acc_place::Clause::Copyin;
use acc_place::{Directive, Place, Placed, Plan, plans_are_kept};
use std::alloc::Global;
use std::process::Abort;
use std::test::Fail;
use tool_directives::sync;

// The answer tells of this batch.
fn check_batch_of(rt: &impl Abort, placed: Placed, number: u64) {
    check_same(rt, placed, answer(Some((sync(), number)), false));
}

// Plans two directives and accepts the second: the plan of the first, which doesn't fit any more.
fn left_behind(
    rt: &impl Abort,
    place: &mut Place,
    first: &Directive,
    second: &Directive,
) -> Result<Plan, Fault>
    ensures { IfOk result (λ q. IsPlanOf place.new q) }
{
    plans_are_kept();
    let one = place.plan(HostId::new(0), 3, first)?;
    let other = place.plan(HostId::new(0), 3, second)?;
    check_same(rt, (one.fits(place), other.fits(place)), (true, true));
    check_batch_of(rt, place.accept(other), 1);
    check_same(rt, one.fits(place), false);
    Ok(one)
}

// Plans the directive of a plan that doesn't fit anew, and accepts it.
fn check_anew(
    rt: &impl Abort,
    place: &mut Place,
    directive: &Directive,
    before: &Plan,
    step: &Step,
) -> Result<(), Fault>
    requires { IsPlanOf place.old before.now }
{
    plans_are_kept();
    let mut anew = place.plan(HostId::new(0), 4, directive)?;
    check_same(rt, (before.fits(place), anew.fits(place)), (false, true));
    check_batch(rt, anew.take_batch(), step, 2, 1);
    check_batch_of(rt, place.accept(anew), 2);
    Ok(())
}

/// It enters behind another range, which the first block is of.
const STEP: Step = Step {
    host: 0,
    word: Enter,
    items: &[(Copyin, A(0, 4))],
    ops: &[Make(2, A(0, 4)), In(2, A(0, 4))],
    present: &[(A(0, 4), 2, 0, 1), (A(4, 4), 1, 0, 1)],
};

fn check(
    rt: &impl Abort,
    place: &mut Place,
    one: &Directive,
    other: &Directive,
) -> Result<(), Fault> {
    let before = left_behind(rt, place, one, other)?;
    check_anew(rt, place, one, &before, &STEP)
}

fn check_in(rt: &impl Abort, alloc: Global, place: &mut Place) -> Result<(), Fault> {
    let one = synchronous(alloc, STEP.word, STEP.items)?;
    let other = synchronous(alloc, Enter, &[(Copyin, A(4, 4))])?;
    check(rt, place, &one, &other)?;
    check_present(rt, place, STEP.present);
    Ok(())
}

/// A plan that was made before another directive was accepted has that one's block and number, and doesn't fit.
#[test]
fn a_plan_fits_until_another_directive_is_accepted(rt: HostRuntime) -> Result<(), Fail> {
    let mut place = place_of(rt.alloc(), 12)?;
    Ok(check_in(&rt, rt.alloc(), &mut place)?)
}
