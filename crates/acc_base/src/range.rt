//! Ranges of an array's cells, as sets and as bounds.

ghost use Rattle.std.specs.Prelude.{◌≡◌, ◌+◌, ◌↔◌, IsTrue};
ghost use Rattle.acc_base.specs.Ranges.{Includes, Meets, range_contains, range_overlaps};

/// The cells `lo` to `lo + len - 1` of an array; the arrays are numbered from 0. A range may have no
/// cell, and its bounds may pass its array's end.
#[derive(Clone, Copy, Debug, PartialEq, Eq)]
pub struct Range {
    pub array: u8,
    pub lo: u32,
    pub len: u32,
}

impl Range {
    /// The cell behind the last.
    pub fn end(&self) -> u64
        ensures { result ≡ self.now.lo + self.now.len }
    {
        u64::from(self.lo) + u64::from(self.len)
    }

    /// Whether each cell of the other range is one of this range.
    pub fn contains(&self, other: &Range) -> bool
        ensures set { IsTrue result ↔ Includes self.now other.now }
        ensures bounds { result ≡ range_contains self.now other.now }
    {
        self.bounds_hold(other)
    }

    /// Whether some cell is in both ranges.
    pub fn overlaps(&self, other: &Range) -> bool
        ensures set { IsTrue result ↔ Meets self.now other.now }
        ensures bounds { result ≡ range_overlaps self.now other.now }
    {
        self.bounds_meet(other)
    }

    #[tactic(auto, unfolding(crate::specs::Ranges::range_contains))]
    fn bounds_hold(&self, other: &Range) -> bool
        ensures { result ≡ range_contains self.now other.now }
    {
        let inside = self.lo <= other.lo && other.end() <= self.end();
        other.len == 0 || (self.array == other.array && inside)
    }

    #[tactic(auto, unfolding(crate::specs::Ranges::range_overlaps))]
    fn bounds_meet(&self, other: &Range) -> bool
        ensures { result ≡ range_overlaps self.now other.now }
    {
        let first = u64::from(self.lo.max(other.lo));
        self.array == other.array && first < self.end().min(other.end())
    }
}
