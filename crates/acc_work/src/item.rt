//! Items of hosts, each with the memory that recording it takes; what a host gets back.

ghost use Rattle.std.specs.Prelude.{◌≡◌, IfOk};
ghost use Rattle.acc_base.specs.Faults.{OnlyMemory};
ghost use Rattle.acc_work.specs.declared.item.ItemLabel.TheVariants as to_record;

use acc_base::{Boxed, DeviceId, Fault, MAX_CELLS, QueueCounts, Range};
use acc_batch::{Counts, Values};
use std::alloc::Global;
use std::marker::Model;
use std::mem::size_of;

/// What an item is to do.
#[derive(Clone, Copy, Debug, PartialEq, Eq)]
pub enum ItemLabel {
    Write {
        array: u8,
        cell: u32,
        value: i64,
    },
    Print {
        range: Range,
    },
    Seen {
        device: DeviceId,
        counts: QueueCounts,
    },
    Test {
        device: DeviceId,
        counts: QueueCounts,
    },
}

/// What a host gets back from an item.
#[derive(Clone, Copy, Debug, PartialEq, Eq)]
pub enum Shown {
    Nothing,
    /// Whether what a test asks for is performed.
    Answer(bool),
}

/// An item that a host is to record, with the memory that recording it takes. Contracts see what it is to do.
#[derive(Drop)]
pub struct Item {
    pub(crate) form: Form,
}

#[derive(Drop)]
pub(crate) enum Form {
    Write {
        array: u8,
        cell: u32,
        value: i64,
    },
    // no values yet, and room for them
    Print {
        range: Range,
        room: Vec<u8>,
        values: Boxed<Values>,
    },
    Seen {
        device: DeviceId,
        counts: Counts,
    },
    Test {
        device: DeviceId,
        counts: Counts,
    },
}

impl Model for Item {
    ghost use Rattle.acc_work.specs.Items.{label_of, HasRoom};
    ghost use Rattle.acc_work.specs.declared.item.ItemLabel.{ItemLabel};

    ghost Value = { ItemLabel };

    ghost view = { λ i. label_of i.form };

    ghost invariant = { λ i. HasRoom i.form };
}

impl Item {
    /// A write of a cell of a host array. It takes no memory.
    pub fn write(array: u8, cell: u32, value: i64) -> Self
        ensures { result ≡ to_record.Write array cell value }
    {
        Item {
            form: Form::Write { array, cell, value },
        }
    }

    /// A print of a range of a host array, with room for its values: for 65,536 at most, as no array has more cells.
    ///
    /// # Errors
    ///
    /// `Memory` where memory is refused.
    pub fn print(alloc: Global, range: Range) -> Result<Self, Fault>
        ensures item { IfOk result (λ i. i ≡ to_record.Print range) }
        ensures fault { OnlyMemory result }
    {
        let cells = (range.len as usize).min(MAX_CELLS);
        let room = Vec::with_capacity(alloc, cells * size_of::<i64>())?;
        let values = Boxed::new(alloc, Values::none(alloc))?;
        Ok(Item {
            form: Form::Print {
                range,
                room,
                values,
            },
        })
    }

    /// What a host notes when it has waited until each queue of a device had performed so many batches.
    ///
    /// # Errors
    ///
    /// `Memory` where memory is refused.
    pub fn seen(alloc: Global, device: DeviceId, counts: QueueCounts) -> Result<Self, Fault>
        ensures item { IfOk result (λ i. i ≡ to_record.Seen device counts) }
        ensures fault { OnlyMemory result }
    {
        let counts = Counts::new(alloc, counts)?;
        Ok(Item {
            form: Form::Seen { device, counts },
        })
    }

    /// A question whether each queue of a device has performed so many batches.
    ///
    /// # Errors
    ///
    /// `Memory` where memory is refused.
    pub fn test(alloc: Global, device: DeviceId, counts: QueueCounts) -> Result<Self, Fault>
        ensures item { IfOk result (λ i. i ≡ to_record.Test device counts) }
        ensures fault { OnlyMemory result }
    {
        let counts = Counts::new(alloc, counts)?;
        Ok(Item {
            form: Form::Test { device, counts },
        })
    }

    /// What it is to do.
    pub fn label(&self) -> ItemLabel
        ensures { result ≡ self.now }
    {
        match &self.form {
            Form::Write { array, cell, value } => ItemLabel::Write {
                array: *array,
                cell: *cell,
                value: *value,
            },
            Form::Print { range, .. } => ItemLabel::Print { range: *range },
            Form::Seen { device, counts } => ItemLabel::Seen {
                device: *device,
                counts: counts.numbers(),
            },
            Form::Test { device, counts } => ItemLabel::Test {
                device: *device,
                counts: counts.numbers(),
            },
        }
    }
}
