//! Whether a plan fits a place.

ghost use Rattle.std.specs.Prelude.{◌≡◌, ◌==◌, length, IsTrue};
ghost use Rattle.acc_place.specs.Plans.{Fits, IsPlanOf};

use crate::place::Place;
use crate::plan::Plan;

impl Plan {
    /// Whether the place has accepted no directive since it made the plan, and closed nothing. The place has to be the one
    /// that made it; `plans_are_kept` says that it stays so.
    pub fn fits(&self, place: &Place) -> bool
        requires { IsPlanOf place.now self.now }
        ensures stamp { result ≡ (self.now.stamp == length place.now.history) }
        ensures fits { IsTrue result → Fits place.now self.now }
    {
        self.stamp == place.history().len()
    }
}
