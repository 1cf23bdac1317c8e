//! The picture of steps, as plain SVG.

ghost use Rattle.std.specs.Prelude.{◌≡◌, ◌++◌, ◌||◌, List, ℕ, length, nat_lt, IfOk, IfNone, IfSome, OnOk};
ghost use Rattle.acc_base.specs.Faults.{OnlyMemory};
ghost use Rattle.acc_steps.specs.Lines.{words_told};
ghost use Rattle.acc_steps.specs.Pictures.{AreBoxes, box_text, escaped, escaped_byte, is_drawn, is_white, IsPicture, IsTooLarge, ShowsLines};
ghost use Rattle.acc_steps.specs.Scenes.{lines_in};

use crate::layout::Frame;
use crate::line::Telling;
use crate::scene::{Drawn, Scene};
use crate::walk::Numbered;
use acc_base::Fault;
use acc_core::World;
use std::alloc::{AllocError, Global};

/// The most boxes that a picture shows.
pub const MAX_BOXES: usize = 2_000;

/// The most bytes of the lines that a picture shows.
pub const MAX_BYTES: usize = 1_048_576;

/// Runs events on a world, and draws them: a lane for each host and each queue that is used, from left to right a box for each event
/// that is told, whose title is the line of its step, an arrow from what a queue has awaited, and below them what held the ranges of the
/// directives. There is no picture where it would show more boxes than `MAX_BOXES`, or lines of more bytes than `MAX_BYTES`; then the
/// events up to there were run.
///
/// # Errors
///
/// `Memory` where memory is refused.
pub fn draw_steps(
    alloc: Global,
    telling: &Telling,
    events: &[Numbered],
    world: &mut World,
) -> Result<Option<Vec<u8>>, Fault>
    ensures picture { IfOk result (λ drawn.
        IfSome drawn (λ picture.
        IsPicture (words_told telling.now) events.now world.old world.new picture.items)) }
    ensures none { IfOk result (λ drawn.
        IfNone drawn (IsTooLarge (words_told telling.now) events.now world.old world.new)) }
    ensures fault { OnlyMemory result }
{
    let mut scene = Scene::new(alloc);
    let mut number = 0u64;
    for next in events {
        number += 1;
        scene.add(alloc, telling, number, next, world)?;
        if is_too_large(&scene) {
            return Ok(None);
        }
    }
    let picture = picture_of(alloc, telling.names, &scene)?;
    Ok(Some(picture))
}

// Whether a scene has too many boxes, or their lines too many bytes.
fn is_too_large(scene: &Scene) -> bool
    ensures { result ≡ (nat_lt MAX_BOXES (length scene.now.boxes.items)
        || nat_lt MAX_BYTES scene.now.bytes) }
{
    scene.boxes.len() > MAX_BOXES || scene.bytes > MAX_BYTES
}

// The picture of a scene.
fn picture_of(alloc: Global, names: &[&[u8]], scene: &Scene) -> Result<Vec<u8>, Fault>
    ensures shows { IfOk result (λ picture.
        ShowsLines (lines_in scene.now.boxes.items) picture.items) }
    ensures fault { OnlyMemory result }
{
    let frame = Frame::new(alloc, names, scene)?;
    let mut picture = frame.head(alloc)?;
    push_boxes(alloc, &mut picture, &frame, scene.boxes.as_slice())?;
    let tail = frame.tail(alloc)?;
    picture.extend_from_slice(tail.as_slice())?;
    Ok(picture)
}

// Boxes from left to right.
fn push_boxes(
    alloc: Global,
    picture: &mut Vec<u8>,
    frame: &Frame,
    boxes: &[Drawn],
) -> Result<(), Fault>
    ensures boxes { OnOk result ((text : List ℕ) × AreBoxes (lines_in boxes.now) text
        × (picture.new.items ≡ picture.old.items ++ text)) }
    ensures fault { OnlyMemory result }
{
    for (column, drawn) in boxes.iter().enumerate() {
        let layout = frame.of_box(alloc, column, drawn)?;
        push_box(picture, drawn.line.as_slice(), layout.as_slice())?;
    }
    Ok(())
}

fn push_box(picture: &mut Vec<u8>, line: &[u8], layout: &[u8]) -> Result<(), AllocError>
    ensures { OnOk result (picture.new.items ≡ picture.old.items ++ box_text line.now layout.now) }
{
    picture.extend_from_slice(b"<g><title>")?;
    push_escaped(picture, line)?;
    picture.extend_from_slice(b"</title>")?;
    picture.extend_from_slice(layout)?;
    picture.extend_from_slice(b"</g>\n")
}

// A text in which no byte means anything to SVG.
fn push_escaped(picture: &mut Vec<u8>, text: &[u8]) -> Result<(), AllocError>
    ensures { OnOk result (picture.new.items ≡ picture.old.items ++ escaped text.now) }
{
    for byte in text {
        push_byte(picture, *byte)?;
    }
    Ok(())
}

fn push_byte(picture: &mut Vec<u8>, byte: u8) -> Result<(), AllocError>
    ensures { OnOk result (picture.new.items ≡ picture.old.items ++ escaped_byte byte) }
{
    match byte {
        b'<' => picture.extend_from_slice(b"&lt;"),
        b'>' => picture.extend_from_slice(b"&gt;"),
        b'&' => picture.extend_from_slice(b"&amp;"),
        _ if is_space(byte) => picture.extend_from_slice(b" "),
        _ if is_printed(byte) => picture.extend_from_slice(&[byte]),
        _ => picture.extend_from_slice(b"?"),
    }
}

fn is_space(byte: u8) -> bool
    ensures { result ≡ is_white byte }
{
    byte == b'\t' || byte == b'\n' || byte == b'\r'
}

fn is_printed(byte: u8) -> bool
    ensures { result ≡ is_drawn byte }
{
    b' ' <= byte && byte < 127
}
