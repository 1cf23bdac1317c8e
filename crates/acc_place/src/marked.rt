//! A mark that was judged.

ghost use Rattle.std.specs.Prelude.{◌≡◌};

use crate::directive::DataItem;

/// What became of an item: the number of the block that held its range before, of the block of the lifetime that it
/// opened, and of the one that it ended.
#[derive(Clone, Copy)]
pub struct Marked {
    pub item: DataItem,
    pub held: Option<u64>,
    pub opened: Option<u64>,
    pub ended: Option<u64>,
}

impl Marked {
    ghost use Rattle.acc_place.specs.inner.Judging.{has_counted};

    /// Whether the item was counted: its range was present, or is opened.
    pub(crate) fn has_counted(&self) -> bool
        ensures { result ≡ has_counted self.now }
    {
        self.held.is_some() || self.opened.is_some()
    }
}
