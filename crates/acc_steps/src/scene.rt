//! What a picture of steps shows: a box for each event that is told, what awaited what, and what held the ranges of directives.

ghost use Rattle.std.specs.Prelude.{◌≡◌, ◌≤◌, [], length, IfOk, OnOk};
ghost use Rattle.acc_base.specs.Faults.{OnlyMemory};
ghost use Rattle.acc_steps.specs.Lines.{step_text, words_told};
ghost use Rattle.acc_steps.specs.Pictures.{DrawsOne, joined};
ghost use Rattle.acc_steps.specs.Scenes.{lines_in};

use crate::counts::Counts;
use crate::deed::{Deed, line_at, take_step};
use crate::lane::Lane;
use crate::line::{Telling, put_step};
use crate::waits::Waits;
use crate::walk::Numbered;
use crate::words::op_word;
use acc_base::Fault;
use acc_batch::OpLabel;
use acc_core::World;
use acc_host::Event;
use std::alloc::Global;

/// What a box says.
#[derive(Clone, Copy)]
pub(crate) enum Label {
    /// The line of a statement.
    Line(u32),
    Refused(u8),
    Took(u64),
    Loop,
    Await,
    /// Another operation, or a close.
    Word(&'static [u8]),
}

/// The box of a column: its lane, what it says, and the line of its step.
#[derive(Drop)]
pub(crate) struct Drawn {
    pub(crate) lane: Lane,
    pub(crate) label: Label,
    pub(crate) line: Vec<u8>,
}

/// What a picture shows.
#[derive(Drop)]
pub(crate) struct Scene {
    pub(crate) lanes: Vec<Lane>,
    pub(crate) boxes: Vec<Drawn>,
    pub(crate) waits: Waits,
    pub(crate) counts: Counts,
    // How many bytes the lines of all boxes have, or, where these are more than can be counted, less.
    pub(crate) bytes: usize,
}

impl Scene {
    pub(crate) fn new(alloc: Global) -> Self
        ensures boxes { result.boxes.items ≡ [] }
        ensures bytes { result.bytes ≡ 0 }
    {
        Scene {
            lanes: Vec::new(alloc),
            boxes: Vec::new(alloc),
            waits: Waits::new(alloc),
            counts: Counts::new(alloc),
            bytes: 0,
        }
    }

    /// Runs an event, which has this number, and adds its box, if it is told.
    ///
    /// # Errors
    ///
    /// `Memory` where memory is refused.
    pub(crate) fn add(
        &mut self,
        alloc: Global,
        telling: &Telling,
        number: u64,
        next: &Numbered,
        world: &mut World,
    ) -> Result<(), Fault>
        ensures drawn { OnOk result
            (DrawsOne (words_told telling.now) number next.now world.old world.new
            (lines_in self.old.boxes.items) (lines_in self.new.boxes.items)) }
        ensures bytes { OnOk result (self.old.bytes ≤ length (joined
            (lines_in self.old.boxes.items))
            → self.new.bytes ≤ length (joined (lines_in self.new.boxes.items))) }
        ensures fault { OnlyMemory result }
    {
        let statement = line_at(world, next.event);
        let deed = take_step(world, next.event)?;
        let line = step_line(alloc, telling, number, next, statement, &deed, world)?;
        if line.is_empty() {
            return Ok(());
        }
        let column = self.boxes.len();
        let lane = lane_in(next.event);
        add_lane(&mut self.lanes, lane)?;
        self.waits.note(next.event, &deed, (column, lane))?;
        if matches!(deed, Deed::Accepted) {
            self.counts.note(world, column)?;
        }
        self.bytes = self.bytes.saturating_add(line.len());
        self.boxes.push(Drawn {
            lane,
            label: label_of(statement, &deed),
            line,
        })?;
        Ok(())
    }
}

// The line of an event, or no bytes where it isn't told.
fn step_line(
    alloc: Global,
    telling: &Telling,
    number: u64,
    next: &Numbered,
    statement: u32,
    deed: &Deed,
    world: &World,
) -> Result<Vec<u8>, Fault>
    ensures line { IfOk result (λ line.
        line.items
        ≡ step_text
        (words_told telling.now) number next.now.line next.now.event statement deed.now world.now) }
    ensures fault { OnlyMemory result }
{
    let mut line = Vec::new(alloc);
    let mut failed = false;
    put_step(
        &mut line,
        &mut failed,
        telling,
        number,
        next.line,
        next.event,
        statement,
        deed,
        world,
    );
    if failed {
        return Err(Fault::Memory);
    }
    Ok(line)
}

// Adds a lane in its order, if it isn't there.
fn add_lane(lanes: &mut Vec<Lane>, lane: Lane) -> Result<(), Fault>
    ensures fault { OnlyMemory result }
{
    let place = lanes.iter().position(|other| lane.rank() <= other.rank());
    match place {
        None => lanes.push(lane)?,
        Some(index) => {
            if lanes[index] != lane {
                lanes.insert(index, lane)?;
            }
        }
    }
    Ok(())
}

fn lane_in(event: Event) -> Lane {
    match event {
        Event::Host(host) => Lane::Host(host.number()),
        Event::Take(at) | Event::Perform(at) => Lane::Queue {
            device: at.device.number(),
            queue: at.queue.number(),
        },
        Event::Close => Lane::Owner,
    }
}

fn label_of(statement: u32, deed: &Deed) -> Label {
    match deed {
        Deed::Nothing if statement == 0 => Label::Word(b"-"),
        Deed::Nothing | Deed::Accepted | Deed::Saw | Deed::Wrote => Label::Line(statement),
        Deed::Set | Deed::Printed { .. } | Deed::Tested { .. } => Label::Line(statement),
        Deed::Refused { fault } => Label::Refused(fault.number()),
        Deed::Took { number } => Label::Took(*number),
        Deed::Performed { number: _, what } => label_of_op(what),
        Deed::Closed { .. } => Label::Word(b"close"),
    }
}

fn label_of_op(op: &OpLabel) -> Label {
    match op {
        OpLabel::Run { .. } => Label::Loop,
        OpLabel::Await { .. } => Label::Await,
        OpLabel::Make { .. } | OpLabel::CopyIn { .. } => Label::Word(op_word(op)),
        OpLabel::CopyOut { .. } | OpLabel::Release { .. } => Label::Word(op_word(op)),
        OpLabel::Close => Label::Word(op_word(op)),
    }
}
