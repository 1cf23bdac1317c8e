//! The search for all states that events lead to.

ghost use Rattle.std.specs.Prelude.{◌≡◌, ◌≤◌, ◌+◌, ◌↔◌, [], IfOk, OnOk, IsTrue, false, length, reverse, if◌then◌else◌, Contains};
ghost use Rattle.acc_base.specs.Faults.{OnlyMemory};
ghost use Rattle.acc_base.specs.Queues.{queue_count};
ghost use Rattle.acc_core.specs.Machine.{step};
ghost use Rattle.acc_core.specs.Worlds.{OnePerHost, first_state};
ghost use Rattle.acc_explore.specs.Arrivals.{found_at};
ghost use Rattle.acc_explore.specs.Reductions.{MayGoFirst};
ghost use Rattle.acc_explore.specs.Runs.{after, open_events};
ghost use Rattle.acc_explore.specs.Scripts.{AreOfOneScript};
ghost use Rattle.acc_explore.specs.Searches.{IsSearch};
ghost use Rattle.acc_explore.specs.UnseenOperations.{nobody_asks};
ghost use Rattle.acc_explore.specs.inner.Searching.{AreAtHand, AreNear, IsFollowed, IsHere, IsNoted, LeavesEnd, Takes, events_in_turn, start_of};

use crate::arrival::{Arrival, depth};
use crate::digest::digest;
use crate::events::{events_in_turn, is_close};
use crate::found_worlds::{is_like_one, world_again, world_at, world_here};
use crate::going_first::{goes_first, nobody_asks};
use crate::replay::{is_idle, is_scarce};
use crate::task::Task;
use crate::worlds::Worlds;
use acc_base::{Config, Fault};
use acc_core::World;
use acc_host::{Event, HostProgram};
use std::alloc::Global;
use std::collections::HashMap;

/// Who is shown how many states a search has found, while it runs.
pub trait Watcher {
    /// Called now and then, with the number of states that are found by then.
    fn found(&self, states: u32);

    /// Called once, behind the last of these.
    fn end(&self);
}

// The one that there is, if there is one.
impl<V: Watcher> Watcher for Option<&V> {
    fn found(&self, states: u32) {
        if let Some(watcher) = self {
            watcher.found(states);
        }
    }

    fn end(&self) {
        if let Some(watcher) = self {
            watcher.end();
        }
    }
}

/// How many states are followed between two calls of a watcher.
const BETWEEN: usize = 4096;

/// What a search has found: the start has number 0, and the state of an arrival the number behind its index.
#[derive(Drop)]
pub struct Exploration {
    /// How each state but the start was found, in the order of their numbers: no fewer events lead to a later one.
    pub arrivals: Vec<Arrival>,
    /// The numbers of those that were followed at which no host and no queue can go on, in the same order.
    pub ends: Vec<u32>,
    /// How many states were followed, in the order of their numbers. The others are leaves.
    pub followed: usize,
    /// Whether all leaves are as deep as the deepest states may be. If not, there was no room for more.
    pub whole: bool,
}

// What has been found so far.
#[derive(Drop)]
struct Found {
    arrivals: Vec<Arrival>,
    ends: Vec<u32>,
    // For a digest the number of a state that has it.
    numbers: HashMap<u64, u32>,
    // Those of which the worlds are at hand.
    worlds: Worlds,
}

// What came of an event that was followed.
#[derive(Clone, Copy)]
enum Course {
    // It did nothing.
    Idle,
    // What it leads to is like one of those that are found.
    Led,
    // There is no room for what it leads to.
    Full,
}

// Keeps the number of a state by its digest.
fn remember(numbers: &mut HashMap<u64, u32>, digest: u64, number: u32) -> Result<(), Fault>
    ensures { OnlyMemory result }
{
    numbers.insert(digest, number)?;
    Ok(())
}

// Keeps how a world was found, unless it is like one that was found before. Whether there was room.
fn note(task: &Task, found: &mut Found, world: World, arrival: Arrival) -> Result<bool, Fault>
    requires hosts { OnePerHost task.now.config.now task.now.programs.now }
    requires led { world ≡ (step false (found_at (start_of task.now)
        (reverse found.old.arrivals.items) arrival.from).state arrival.by).state }
    requires script { AreOfOneScript (start_of task.now) world }
    requires worlds { AreAtHand (start_of task.now)
        (reverse found.old.arrivals.items) found.old.worlds.seats.items }
    ensures noted { IfOk result (λ room. IsTrue room
        → IsNoted task.now.most (start_of task.now) (reverse found.old.arrivals.items)
        (reverse found.new.arrivals.items) arrival world) }
    ensures full { IfOk result (λ room. room ≡ false
        → (found.new.arrivals.items ≡ found.old.arrivals.items)
        × (task.now.most ≤ length found.old.arrivals.items)) }
    ensures worlds { OnOk result (AreAtHand (start_of task.now)
        (reverse found.new.arrivals.items) found.new.worlds.seats.items) }
    ensures ends { found.new.ends.items ≡ found.old.ends.items }
    ensures fault { OnlyMemory result }
{
    let digest = digest(&world);
    let number = found.numbers.get(&digest).copied();
    if is_like_one(
        task,
        &found.worlds,
        found.arrivals.as_slice(),
        number,
        &world,
    )? {
        return Ok(true);
    }
    let count = found.arrivals.len();
    if count >= task.most as usize {
        return Ok(false);
    }
    let number = count as u32 + 1;
    remember(&mut found.numbers, digest, number)?;
    found.arrivals.push(arrival)?;
    found.worlds.put(number, world)?;
    Ok(true)
}

// Follows an event of the state with a number. Its world makes the step, the one at hand if there is one, and stays at hand where that
// does nothing.
fn follow(
    task: &Task,
    found: &mut Found,
    number: u32,
    at_hand: &mut Option<World>,
    event: Event,
) -> Result<Course, Fault>
    requires hosts { OnePerHost task.now.config.now task.now.programs.now }
    requires there { number ≤ length found.old.arrivals.items }
    requires here { IsHere (start_of task.now)
        (reverse found.old.arrivals.items) number at_hand.old }
    requires worlds { AreAtHand (start_of task.now)
        (reverse found.old.arrivals.items) found.old.worlds.seats.items }
    ensures course { IfOk result (λ course.
        Takes task.now.most (start_of task.now) (reverse found.old.arrivals.items)
        (reverse found.new.arrivals.items) number
        (found_at (start_of task.now)
        (reverse found.old.arrivals.items) number).state event course) }
    ensures here { OnOk result
        (IsHere (start_of task.now) (reverse found.new.arrivals.items) number at_hand.new) }
    ensures worlds { OnOk result (AreAtHand (start_of task.now)
        (reverse found.new.arrivals.items) found.new.worlds.seats.items) }
    ensures ends { found.new.ends.items ≡ found.old.ends.items }
    ensures fault { OnlyMemory result }
{
    let mut world = world_here(task, found.arrivals.as_slice(), number, at_hand.take())?;
    let answer = world.step(event);
    if is_scarce(answer) {
        return Err(Fault::Memory);
    }
    if is_idle(answer) {
        *at_hand = Some(world);
        return Ok(Course::Idle);
    }
    let arrival = Arrival {
        from: number,
        by: event,
    };
    if !note(task, found, world, arrival)? {
        return Ok(Course::Full);
    }
    Ok(Course::Led)
}

// Whether its state may still be an end behind an event of which this came: that of a host or a queue has to have done nothing.
fn leaves_end(course: Course, event: Event) -> bool
    ensures { IsTrue result ↔ LeavesEnd course event }
{
    match course {
        Course::Idle => true,
        Course::Led | Course::Full => is_close(event),
    }
}

// Whether there was no room.
fn is_full(course: Course) -> bool
    ensures { IsTrue result ↔ course ≡ Course.Full }
{
    matches!(course, Course::Full)
}

// Follows each event of the state with a number, whose world is at hand, and keeps its number where it is an end. Whether there was
// room for what they lead to.
fn follow_each(
    task: &Task,
    events: &[Event],
    found: &mut Found,
    number: u32,
    world: World,
) -> Result<bool, Fault>
    requires hosts { OnePerHost task.now.config.now task.now.programs.now }
    requires events { events.now ≡ events_in_turn task.now.closing task.now.config.now.hosts
        (queue_count task.now.config.now) }
    requires there { number ≤ length found.old.arrivals.items }
    requires world { world
        ≡ (found_at (start_of task.now) (reverse found.old.arrivals.items) number).state }
    requires worlds { AreAtHand (start_of task.now)
        (reverse found.old.arrivals.items) found.old.worlds.seats.items }
    requires followed { IsFollowed task.now.closing task.now.most (start_of task.now)
        (reverse found.old.arrivals.items) found.old.ends.items number [] }
    ensures followed { IfOk result (λ room.
        IsFollowed task.now.closing task.now.most (start_of task.now)
        (reverse found.new.arrivals.items) found.new.ends.items
        (if room then number + 1 else number) []) }
    ensures worlds { OnOk result (AreAtHand (start_of task.now)
        (reverse found.new.arrivals.items) found.new.worlds.seats.items) }
    ensures near { OnOk result (AreNear (start_of task.now) (reverse found.old.arrivals.items)
        (reverse found.new.arrivals.items) number) }
    ensures full { IfOk result (λ room. room ≡ false
        → task.now.most ≤ length found.new.arrivals.items) }
    ensures fault { OnlyMemory result }
{
    let mut is_end = true;
    let mut at_hand = Some(world);
    for event in events {
        let course = follow(task, found, number, &mut at_hand, *event)?;
        if is_full(course) {
            return Ok(false);
        }
        is_end &= leaves_end(course, *event);
    }
    drop(at_hand);
    if is_end {
        found.ends.push(number)?;
    }
    Ok(true)
}

// Follows one event alone, where it may go first: then the state is no end. Whether there was room for what it leads to.
fn follow_one(
    task: &Task,
    found: &mut Found,
    number: u32,
    world: World,
    event: Event,
) -> Result<bool, Fault>
    requires hosts { OnePerHost task.now.config.now task.now.programs.now }
    requires there { number ≤ length found.old.arrivals.items }
    requires world { world
        ≡ (found_at (start_of task.now) (reverse found.old.arrivals.items) number).state }
    requires listed { Contains (open_events task.now.closing (start_of task.now)) event }
    requires first { MayGoFirst task.now.closing world event }
    requires worlds { AreAtHand (start_of task.now)
        (reverse found.old.arrivals.items) found.old.worlds.seats.items }
    requires followed { IsFollowed task.now.closing task.now.most (start_of task.now)
        (reverse found.old.arrivals.items) found.old.ends.items number [] }
    ensures followed { IfOk result (λ room.
        IsFollowed task.now.closing task.now.most (start_of task.now)
        (reverse found.new.arrivals.items) found.new.ends.items
        (if room then number + 1 else number) []) }
    ensures worlds { OnOk result (AreAtHand (start_of task.now)
        (reverse found.new.arrivals.items) found.new.worlds.seats.items) }
    ensures near { OnOk result (AreNear (start_of task.now) (reverse found.old.arrivals.items)
        (reverse found.new.arrivals.items) number) }
    ensures full { IfOk result (λ room. room ≡ false
        → task.now.most ≤ length found.new.arrivals.items) }
    ensures fault { OnlyMemory result }
{
    let mut at_hand = Some(world);
    let course = follow(task, found, number, &mut at_hand, event)?;
    if is_full(course) {
        return Ok(false);
    }
    Ok(true)
}

// Follows enough events of the state with a number. Whether there was room for what they lead to.
fn follow_enough(
    task: &Task,
    events: &[Event],
    found: &mut Found,
    number: u32,
) -> Result<bool, Fault>
    requires hosts { OnePerHost task.now.config.now task.now.programs.now }
    requires asked { IsTrue task.now.unasked → IsTrue (nobody_asks (start_of task.now)) }
    requires events { events.now ≡ events_in_turn task.now.closing task.now.config.now.hosts
        (queue_count task.now.config.now) }
    requires there { number ≤ length found.old.arrivals.items }
    requires worlds { AreAtHand (start_of task.now)
        (reverse found.old.arrivals.items) found.old.worlds.seats.items }
    requires followed { IsFollowed task.now.closing task.now.most (start_of task.now)
        (reverse found.old.arrivals.items) found.old.ends.items number [] }
    ensures followed { IfOk result (λ room.
        IsFollowed task.now.closing task.now.most (start_of task.now)
        (reverse found.new.arrivals.items) found.new.ends.items
        (if room then number + 1 else number) []) }
    ensures worlds { OnOk result (AreAtHand (start_of task.now)
        (reverse found.new.arrivals.items) found.new.worlds.seats.items) }
    ensures near { OnOk result (AreNear (start_of task.now) (reverse found.old.arrivals.items)
        (reverse found.new.arrivals.items) number) }
    ensures full { IfOk result (λ room. room ≡ false
        → task.now.most ≤ length found.new.arrivals.items) }
    ensures fault { OnlyMemory result }
{
    let world = world_at(task, &mut found.worlds, found.arrivals.as_slice(), number)?;
    match goes_first(&world, events, task.unasked, task.closing) {
        Some(event) => follow_one(task, found, number, world, event),
        None => follow_each(task, events, found, number, world),
    }
}

// Nothing but the start.
fn at_first(task: &Task) -> Result<Found, Fault>
    requires hosts { OnePerHost task.now.config.now task.now.programs.now }
    ensures arrivals { IfOk result (λ found. found.arrivals.items ≡ []) }
    ensures ends { IfOk result (λ found. found.ends.items ≡ []) }
    ensures fault { OnlyMemory result }
    ensures worlds { IfOk result (λ found.
        AreAtHand (start_of task.now) [] found.worlds.seats.items) }
{
    let arrivals = Vec::new(task.alloc);
    let world = world_again(task, arrivals.as_slice(), 0)?;
    let mut numbers = HashMap::new(task.alloc);
    remember(&mut numbers, digest(&world), 0)?;
    let mut worlds = Worlds::new(task.alloc);
    worlds.put(0, world)?;
    Ok(Found {
        arrivals,
        ends: Vec::new(task.alloc),
        numbers,
        worlds,
    })
}

// What has been found, where so many were followed, and that is all or not.
fn ended(found: Found, followed: usize, whole: bool) -> Exploration
    ensures arrivals { result.arrivals.items ≡ found.arrivals.items }
    ensures ends { result.ends.items ≡ found.ends.items }
    ensures followed { result.followed ≡ followed }
    ensures whole { result.whole ≡ whole }
{
    let Found {
        arrivals,
        ends,
        numbers: _,
        worlds: _,
    } = found;
    Exploration {
        arrivals,
        ends,
        followed,
        whole,
    }
}

/// States that events lead to behind the one to which the first ones lead, all ends among them, but for what is like one that is found,
/// where they are no more than so many without that one. Where an event may go first, the others of its state aren't followed. Each end
/// is found as soon as one that is like it can come. What so many events lead to as the deepest states are deep isn't followed: ends are
/// among those that are less deep, and whatever else may come goes on from one of the leaves.
///
/// # Errors
///
/// `Memory` where memory is refused, to a step too.
pub fn explore<W: Watcher>(
    alloc: Global,
    config: &Config,
    programs: &[HostProgram],
    before: &[Event],
    closing: bool,
    most: u32,
    deepest: usize,
    watcher: &W,
) -> Result<Exploration, Fault>
    requires { OnePerHost config.now programs.now }
    ensures found { IfOk result (λ x.
        IsSearch closing most deepest (after (first_state config.now programs.now) before.now)
        (reverse x.arrivals.items) x.ends.items x.followed x.whole) }
    ensures fault { OnlyMemory result }
{
    let task = Task {
        alloc,
        config,
        programs,
        before,
        closing,
        most,
        unasked: nobody_asks(programs),
    };
    let events = events_in_turn(alloc, config, closing)?;
    let mut found = at_first(&task)?;
    let mut next = 0usize;
    while next <= found.arrivals.len() {
        if depth(found.arrivals.as_slice(), next as u32) >= deepest {
            return Ok(ended(found, next, true));
        }
        if !follow_enough(&task, events.as_slice(), &mut found, next as u32)? {
            return Ok(ended(found, next, false));
        }
        next += 1;
        if next % BETWEEN == 0 {
            watcher.found((found.arrivals.len() as u32).saturating_add(1));
        }
    }
    Ok(ended(found, next, true))
}
