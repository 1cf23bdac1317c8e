//! Whether two labels, of operations or of batches, are equal.

ghost use Rattle.std.specs.Prelude.{◌≡◌, ◌↔◌, IsTrue};

use crate::label::{Label, OpLabel};
use acc_kernel::are_same_uses;

impl OpLabel {
    /// Whether two operations are equal: a loop is, where its text and what it uses are. It takes no memory.
    pub fn is_same(&self, other: &OpLabel) -> bool
        ensures { IsTrue result ↔ self.now ≡ other.now }
    {
        match (self, other) {
            (
                OpLabel::Make { block, range },
                OpLabel::Make {
                    block: other_block,
                    range: other_range,
                },
            ) => block == other_block && range == other_range,
            (
                OpLabel::CopyIn { block, range },
                OpLabel::CopyIn {
                    block: other_block,
                    range: other_range,
                },
            ) => block == other_block && range == other_range,
            (
                OpLabel::CopyOut { block, range },
                OpLabel::CopyOut {
                    block: other_block,
                    range: other_range,
                },
            ) => block == other_block && range == other_range,
            (OpLabel::Release { block }, OpLabel::Release { block: other_block }) => {
                block == other_block
            }
            (
                OpLabel::Run { kernel, uses },
                OpLabel::Run {
                    kernel: other_kernel,
                    uses: other_uses,
                },
            ) => {
                kernel.get().is_same(other_kernel.get())
                    && are_same_uses(uses.get().as_slice(), other_uses.get().as_slice())
            }
            (
                OpLabel::Await { queue, number },
                OpLabel::Await {
                    queue: other_queue,
                    number: other_number,
                },
            ) => queue == other_queue && number == other_number,
            (OpLabel::Close, OpLabel::Close) => true,
            _ => false,
        }
    }
}

// Whether two lists of operations are equal.
fn are_same_ops(ops: &[OpLabel], others: &[OpLabel]) -> bool
    ensures { IsTrue result ↔ ops.now ≡ others.now }
{
    if ops.len() != others.len() {
        return false;
    }
    for index in 0..ops.len() {
        if !ops[index].is_same(&others[index]) {
            return false;
        }
    }
    true
}

impl Label {
    /// Whether two labels are equal. It takes no memory.
    pub fn is_same(&self, other: &Label) -> bool
        ensures { IsTrue result ↔ self.now ≡ other.now }
    {
        self.at == other.at
            && self.number == other.number
            && self.host == other.host
            && self.items_done == other.items_done
            && are_same_ops(self.ops.get().as_slice(), other.ops.get().as_slice())
    }
}

/// Whether two lists of labels are equal. It takes no memory.
pub fn are_same_labels(labels: &[Label], others: &[Label]) -> bool
    ensures { IsTrue result ↔ labels.now ≡ others.now }
{
    if labels.len() != others.len() {
        return false;
    }
    for index in 0..labels.len() {
        if !labels[index].is_same(&others[index]) {
            return false;
        }
    }
    true
}
