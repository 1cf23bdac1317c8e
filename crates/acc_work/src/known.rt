//! Items as their hosts know them: the values of a print, which the log keeps, are told to no host.

ghost use Rattle.std.specs.Prelude.{◌≡◌, ◌↔◌, IsTrue};
ghost use Rattle.acc_work.specs.Items.{without_values, known_by, test_answer};

use crate::item::{ItemLabel, Shown};
use acc_batch::Told;

impl ItemLabel {
    /// Whether this, but for the values of a print, tells of such an item, whose host got this back. It takes no memory.
    pub fn is_told_by(self, told: &Told, shown: Shown) -> bool
        ensures { IsTrue result ↔ without_values told.now ≡ known_by self shown }
    {
        match (told, self) {
            (
                Told::Write { array, cell, value },
                ItemLabel::Write {
                    array: known_array,
                    cell: known_cell,
                    value: known_value,
                },
            ) => *array == known_array && *cell == known_cell && *value == known_value,
            (Told::Print { range, .. }, ItemLabel::Print { range: known_range }) => {
                *range == known_range
            }
            (
                Told::Seen { device, counts },
                ItemLabel::Seen {
                    device: known_device,
                    counts: known_counts,
                },
            ) => *device == known_device && counts.numbers() == known_counts,
            (
                Told::Test {
                    device,
                    counts,
                    answer,
                },
                ItemLabel::Test {
                    device: known_device,
                    counts: known_counts,
                },
            ) => {
                *device == known_device
                    && counts.numbers() == known_counts
                    && *answer == test_answer(shown)
            }
            _ => false,
        }
    }
}

// The answer that a host got back from a test; false where it got nothing.
fn test_answer(shown: Shown) -> bool
    ensures { result ≡ test_answer shown }
{
    match shown {
        Shown::Nothing => false,
        Shown::Answer(answer) => answer,
    }
}
