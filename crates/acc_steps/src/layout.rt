//! How a picture is laid out. No contract says it: the titles of the boxes, which tell the steps, are put around it.

ghost use Rattle.std.specs.Prelude.{◌≡◌};
ghost use Rattle.acc_base.specs.Faults.{OnlyMemory};

use crate::counts::{Row, Since};
use crate::head::put_queue;
use crate::lane::Lane;
use crate::scene::{Drawn, Label, Scene};
use crate::waits::Place;
use crate::words::put_range;
use acc_base::{DeviceId, Fault, QueueAt, QueueId};
use acc_report::{put, put_number};
use std::alloc::Global;
use std::io::Write;

// In pixels: how wide a sign is at most, how wide a column is, how high a lane is, and a box, and where the first lane begins.
const SIGN: usize = 7;

const WIDE: usize = 76;

const HIGH: usize = 36;

const BOX: usize = 20;

const TOP: usize = 10;

/// Where the parts of a picture stand.
#[derive(Clone, Copy)]
pub(crate) struct Frame<'a> {
    names: &'a [&'a [u8]],
    scene: &'a Scene,
    // where the first column begins
    left: usize,
}

impl<'a> Frame<'a> {
    /// A frame that has room for the names of all lanes and rows.
    ///
    /// # Errors
    ///
    /// `Memory` where memory is refused.
    pub(crate) fn new(alloc: Global, names: &'a [&'a [u8]], scene: &'a Scene) -> Result<Self, Fault>
        ensures fault { OnlyMemory result }
    {
        let mut longest = 14usize;
        for row in scene.counts.rows.as_slice() {
            longest = longest.max(row_name(alloc, names, row)?.len());
        }
        Ok(Frame {
            names,
            scene,
            left: longest.saturating_mul(SIGN).saturating_add(12),
        })
    }

    /// What stands before the boxes: the size, the lanes, and the arrows, which the boxes cover.
    ///
    /// # Errors
    ///
    /// `Memory` where memory is refused.
    pub(crate) fn head(&self, alloc: Global) -> Result<Vec<u8>, Fault>
        ensures fault { OnlyMemory result }
    {
        let mut layout = Vec::new(alloc);
        let mut failed = false;
        let lanes = self.scene.lanes.as_slice();
        let rows = lanes.len().saturating_add(self.scene.counts.rows.len());
        let width = self.left_of(self.scene.boxes.len()).saturating_add(10);
        put_beginning(
            &mut layout,
            &mut failed,
            width,
            top_of(rows).saturating_add(20),
        );
        for (index, lane) in lanes.iter().enumerate() {
            put_lane(
                &mut layout,
                &mut failed,
                top_of(index),
                (self.left, width),
                *lane,
            );
        }
        for arrow in self.scene.waits.arrows.as_slice() {
            put_arrow(
                &mut layout,
                &mut failed,
                self.place_of(arrow.from),
                self.place_of(arrow.to),
            );
        }
        finished(layout, failed)
    }

    /// A box below its title.
    ///
    /// # Errors
    ///
    /// `Memory` where memory is refused.
    pub(crate) fn of_box(
        &self,
        alloc: Global,
        column: usize,
        drawn: &Drawn,
    ) -> Result<Vec<u8>, Fault>
        ensures fault { OnlyMemory result }
    {
        let mut layout = Vec::new(alloc);
        let mut failed = false;
        put_box(
            &mut layout,
            &mut failed,
            self.place_of((column, drawn.lane)),
            drawn.label,
        );
        finished(layout, failed)
    }

    /// What stands behind the boxes: the ranges with what held each.
    ///
    /// # Errors
    ///
    /// `Memory` where memory is refused.
    pub(crate) fn tail(&self, alloc: Global) -> Result<Vec<u8>, Fault>
        ensures fault { OnlyMemory result }
    {
        let mut layout = Vec::new(alloc);
        let mut failed = false;
        for (index, row) in self.scene.counts.rows.iter().enumerate() {
            let name = row_name(alloc, self.names, row)?;
            put_text(
                &mut layout,
                &mut failed,
                (4, self.top_of_row(index).saturating_add(14)),
            );
            put(&mut layout, &mut failed, name.as_slice());
            put(&mut layout, &mut failed, b"</text>\n");
            if let Some(since) = row.since {
                self.put_held(
                    &mut layout,
                    &mut failed,
                    index,
                    since,
                    self.scene.boxes.len(),
                );
            }
        }
        for held in self.scene.counts.held.as_slice() {
            self.put_held(&mut layout, &mut failed, held.row, held.since, held.to);
        }
        put(&mut layout, &mut failed, b"</svg>\n");
        finished(layout, failed)
    }

    // The left edge of a column.
    fn left_of(&self, column: usize) -> usize {
        column.saturating_mul(WIDE).saturating_add(self.left)
    }

    // The upper left corner of a box.
    fn place_of(&self, place: Place) -> (usize, usize) {
        let (column, lane) = place;
        let index = self.scene.lanes.iter().position(|other| *other == lane);
        (self.left_of(column), top_of(index.unwrap_or(0)))
    }

    // The upper edge of a row, which stands below all lanes.
    fn top_of_row(&self, row: usize) -> usize {
        top_of(self.scene.lanes.len().saturating_add(row)).saturating_add(10)
    }

    // What held the range of a row, from behind the box of one column to behind that of another.
    fn put_held<W: Write>(
        &self,
        out: &mut W,
        failed: &mut bool,
        row: usize,
        since: Since,
        to: usize,
    ) {
        let x = self.left_of(since.column).saturating_add(WIDE - 4);
        let end = self.left_of(to).saturating_add(WIDE - 4);
        let y = self.top_of_row(row);
        put_rect(out, failed, (x, y), end.saturating_sub(x));
        put(out, failed, b" fill=\"#c8d8f8\" stroke=\"#8098c0\"/>");
        put_text(out, failed, (x.saturating_add(3), y.saturating_add(14)));
        put(out, failed, b"s ");
        put_number(out, failed, since.structured);
        put(out, failed, b" d ");
        put_number(out, failed, since.dynamic);
        put(out, failed, b"</text>\n");
    }
}

// A part of a picture, unless memory was refused.
fn finished(layout: Vec<u8>, failed: bool) -> Result<Vec<u8>, Fault>
    ensures fault { OnlyMemory result }
{
    if failed {
        return Err(Fault::Memory);
    }
    Ok(layout)
}

// The name of a row, as a report has it.
fn row_name(alloc: Global, names: &[&[u8]], row: &Row) -> Result<Vec<u8>, Fault>
    ensures fault { OnlyMemory result }
{
    let mut name = Vec::new(alloc);
    let mut failed = false;
    put(&mut name, &mut failed, b"present ");
    put_number(&mut name, &mut failed, row.device.number());
    put(&mut name, &mut failed, b" ");
    put_range(&mut name, &mut failed, names, row.range);
    finished(name, failed)
}

// The upper edge of a lane.
fn top_of(lane: usize) -> usize {
    lane.saturating_mul(HIGH).saturating_add(TOP)
}

fn put_beginning<W: Write>(out: &mut W, failed: &mut bool, width: usize, height: usize) {
    put(
        out,
        failed,
        b"<svg xmlns=\"http://www.w3.org/2000/svg\" width=\"",
    );
    put_number(out, failed, width);
    put(out, failed, b"\" height=\"");
    put_number(out, failed, height);
    put(
        out,
        failed,
        b"\" font-family=\"monospace\" font-size=\"11\">\n<defs><marker id=\"end\" viewBox=\"0 0 6 6\" refX=\"6\" refY=\"3\" markerWidth=\"7\" markerHeight=\"7\" orient=\"auto\"><path d=\"M0 0L6 3L0 6z\" fill=\"#b04020\"/></marker></defs>\n<rect width=\"100%\" height=\"100%\" fill=\"#ffffff\"/>\n",
    );
}

// The name of a lane with this upper edge, and a line through it, between these columns of pixels.
fn put_lane<W: Write>(
    out: &mut W,
    failed: &mut bool,
    top: usize,
    across: (usize, usize),
    lane: Lane,
) {
    let middle = top.saturating_add(BOX / 2);
    put_text(out, failed, (4, top.saturating_add(14)));
    put_name(out, failed, lane);
    put(out, failed, b"</text>\n");
    put_line(out, failed, (across.0, middle), (across.1, middle));
    put(out, failed, b" stroke=\"#d0d0d0\"/>\n");
}

fn put_name<W: Write>(out: &mut W, failed: &mut bool, lane: Lane) {
    match lane {
        Lane::Host(host) => {
            put(out, failed, b"host ");
            put_number(out, failed, host);
        }
        Lane::Queue { device, queue } => {
            let device = DeviceId::new(device);
            let queue = QueueId::new(queue);
            put_queue(out, failed, QueueAt { device, queue });
        }
        Lane::Owner => put(out, failed, b"owner"),
    }
}

// The beginning of a text at a point.
fn put_text<W: Write>(out: &mut W, failed: &mut bool, at: (usize, usize)) {
    put(out, failed, b"<text x=\"");
    put_number(out, failed, at.0);
    put(out, failed, b"\" y=\"");
    put_number(out, failed, at.1);
    put(out, failed, b"\">");
}

// The beginning of a line from one point to another.
fn put_line<W: Write>(out: &mut W, failed: &mut bool, from: (usize, usize), to: (usize, usize)) {
    put(out, failed, b"<line x1=\"");
    put_number(out, failed, from.0);
    put(out, failed, b"\" y1=\"");
    put_number(out, failed, from.1);
    put(out, failed, b"\" x2=\"");
    put_number(out, failed, to.0);
    put(out, failed, b"\" y2=\"");
    put_number(out, failed, to.1);
    put(out, failed, b"\"");
}

// The beginning of a rectangle, as high as a box.
fn put_rect<W: Write>(out: &mut W, failed: &mut bool, at: (usize, usize), wide: usize) {
    put(out, failed, b"<rect x=\"");
    put_number(out, failed, at.0);
    put(out, failed, b"\" y=\"");
    put_number(out, failed, at.1);
    put(out, failed, b"\" width=\"");
    put_number(out, failed, wide);
    put(out, failed, b"\" height=\"");
    put_number(out, failed, BOX);
    put(out, failed, b"\"");
}

fn put_box<W: Write>(out: &mut W, failed: &mut bool, at: (usize, usize), label: Label) {
    put_rect(out, failed, at, WIDE - 4);
    put(out, failed, b" rx=\"3\" stroke=\"#606060\" fill=\"");
    put(out, failed, fill_of(label));
    put(out, failed, b"\"/>");
    put_text(
        out,
        failed,
        (at.0.saturating_add(4), at.1.saturating_add(14)),
    );
    put_label(out, failed, label);
    put(out, failed, b"</text>");
}

fn fill_of(label: Label) -> &'static [u8] {
    match label {
        Label::Line(_) => b"#e8f0ff",
        Label::Refused(_) => b"#ff9080",
        Label::Took(_) => b"#f4f4f4",
        Label::Loop => b"#ffe8a0",
        Label::Await => b"#fff4f0",
        Label::Word(_) => b"#d8f0d8",
    }
}

fn put_label<W: Write>(out: &mut W, failed: &mut bool, label: Label) {
    match label {
        Label::Line(line) => {
            put(out, failed, b"line ");
            put_number(out, failed, line);
        }
        Label::Refused(fault) => {
            put(out, failed, b"F");
            put_number(out, failed, fault);
        }
        Label::Took(number) => {
            put(out, failed, b"take ");
            put_number(out, failed, number);
        }
        Label::Loop => put(out, failed, b"loop"),
        Label::Await => put(out, failed, b"await"),
        Label::Word(word) => put(out, failed, word),
    }
}

// An arrow from one box, by its upper left corner, to another, which stands in a lane above or below.
fn put_arrow<W: Write>(out: &mut W, failed: &mut bool, from: (usize, usize), to: (usize, usize)) {
    let (start, end) = if from.1 < to.1 {
        (from.1.saturating_add(BOX), to.1.saturating_sub(3))
    } else {
        (from.1, to.1.saturating_add(BOX + 3))
    };
    let middle = (WIDE - 4) / 2;
    put_line(
        out,
        failed,
        (from.0.saturating_add(middle), start),
        (to.0.saturating_add(middle), end),
    );
    put(
        out,
        failed,
        b" stroke=\"#b04020\" marker-end=\"url(#end)\"/>\n",
    );
}
