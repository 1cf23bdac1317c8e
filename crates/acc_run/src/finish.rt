//! What is compared at the end of a run, and what the run leaves.

ghost use Rattle.std.specs.Prelude.{IfErr, IfOk, IsTrue, OnOk, [], ◌↔◌, ◌≡◌};
ghost use Rattle.acc_run.specs.Finishing.{AllEnded, AllTookFirst, AreOfOneRun, CannotFinish, Finished, HasCounts, TookFirst, histories_in, histories_of};

use crate::agreement::all_agree;
use crate::place_side::PlaceSide;
use crate::token::HostToken;
use crate::work_side::WorkSide;
use acc_base::{Config, Fault, QueueAt};
use acc_host::Outcome;

/// What both locks of a runtime hold.
#[derive(Drop)]
pub struct Sides {
    pub place: PlaceSide,
    pub work: WorkSide,
}

/// Both sides of a run that can't be finished or abandoned, and the tokens of its hosts, as they were, and why.
#[derive(Drop)]
pub struct SidesRefused {
    pub fault: Fault,
    pub sides: Sides,
    pub tokens: Vec<HostToken>,
}

/// What a run of this configuration leaves, whose queues have performed all that was placed on them. No host's state is among it, and
/// nothing is discarded. Takes no memory.
///
/// # Errors
///
/// `Unfinished` where a queue hasn't performed its close; else `HostsDiffer` where a side was made for another configuration, where
/// the batches that a queue took aren't the first that were placed on it, or the tokens and the histories differ. Then all comes
/// back.
pub fn finish_sides(
    config: &Config,
    sides: Sides,
    tokens: Vec<HostToken>,
) -> Result<Outcome, SidesRefused>
    ensures config { IfOk result (λ o. o.config ≡ config.now) }
    ensures histories { IfOk result (λ o. histories_of o ≡ histories_in sides.place sides.work) }
    ensures finished { IfOk result (λ o. Finished tokens.items (histories_of o)) }
    ensures counted { IfOk result (λ o. HasCounts o) }
    ensures hosts { IfOk result (λ o. o.hosts.items ≡ []) }
    ensures discarded { IfOk result (λ o. o.discarded.items ≡ []) }
    ensures fault { IfErr result (λ r.
        CannotFinish config.now sides.place sides.work tokens.items r.fault) }
    ensures sides { IfErr result (λ r. r.sides ≡ sides) }
    ensures tokens { IfErr result (λ r. r.tokens ≡ tokens) }
{
    sides.place.keeps();
    sides.work.keeps();
    match compare(config, &sides.place, &sides.work, tokens.as_slice()) {
        Err(fault) => Err(SidesRefused {
            fault,
            sides,
            tokens,
        }),
        Ok(()) => Ok(outcome_of(sides)),
    }
}

/// What both sides leave. What their queues hold is freed.
pub(crate) fn outcome_of(sides: Sides) -> Outcome
    ensures config { result.config ≡ sides.place.place.config }
    ensures histories { histories_of result ≡ histories_in sides.place sides.work }
    ensures counted { HasCounts result }
    ensures hosts { result.hosts.items ≡ [] }
    ensures discarded { result.discarded.items ≡ [] }
{
    let Sides { place, work } = sides;
    let (config, places, counts) = place.into_place().into_histories();
    let (alloc, work) = work.into_work();
    Outcome {
        config,
        places,
        counts,
        works: work.into_log(),
        hosts: Vec::new(alloc),
        discarded: Vec::new(alloc),
    }
}

// Compares both sides of a run, and the tokens of its hosts.
fn compare(
    config: &Config,
    place: &PlaceSide,
    work: &WorkSide,
    tokens: &[HostToken],
) -> Result<(), Fault>
    ensures ended { OnOk result (AllEnded config.now work.now) }
    ensures one { OnOk result (AreOfOneRun config.now place.now work.now tokens.now) }
    ensures fault { IfErr result (λ f. CannotFinish config.now place.now work.now tokens.now f) }
{
    if !all_ended(config, work) {
        return Err(Fault::Unfinished);
    }
    if !are_of_one_run(config, place, work, tokens) {
        return Err(Fault::HostsDiffer);
    }
    Ok(())
}

/// Whether both sides and the tokens are of one run of this configuration.
pub(crate) fn are_of_one_run(
    config: &Config,
    place: &PlaceSide,
    work: &WorkSide,
    tokens: &[HostToken],
) -> bool
    ensures { IsTrue result ↔ AreOfOneRun config.now place.now work.now tokens.now }
{
    place.as_place().config().is_same(config)
        && work.config().is_same(config)
        && all_took_first(config, place, work)
        && all_agree(place.as_place(), work.as_work().log(), tokens)
}

// Whether each queue of a configuration has performed its close.
fn all_ended(config: &Config, work: &WorkSide) -> bool
    ensures { IsTrue result ↔ AllEnded config.now work.now }
{
    for index in 0..config.queue_count() {
        if !work.is_closed(QueueAt::at_seat(index)) {
            return false;
        }
    }
    true
}

// Whether each queue of a configuration took the first of what was placed on it.
fn all_took_first(config: &Config, place: &PlaceSide, work: &WorkSide) -> bool
    ensures { IsTrue result ↔ AllTookFirst config.now place.now work.now }
{
    for index in 0..config.queue_count() {
        if !took_first(place, work, QueueAt::at_seat(index)) {
            return false;
        }
    }
    true
}

// Whether the batches that a queue took are the first that were placed on it.
fn took_first(place: &PlaceSide, work: &WorkSide, at: QueueAt) -> bool
    ensures { IsTrue result ↔ TookFirst place.now work.now at }
{
    let QueueAt { device, queue } = at;
    let placed = place.as_place().labels_on(QueueAt { device, queue });
    work.as_work().took_first(QueueAt { device, queue }, placed)
}
