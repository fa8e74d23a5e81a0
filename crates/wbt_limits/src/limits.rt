//! What follows from the limits of a domain.

ghost use Rattle.std.specs.Prelude.{◌≡◌, ◌↔◌, IsTrue};
ghost use Rattle.wbt_limits.specs.Limits.{freerun, IsOverBackground};

use wbt_num::Limits;

/// Up to this many pages writers run free: the middle of background threshold and threshold.
pub fn freerun(limits: &Limits) -> u64
    ensures { result ≡ freerun limits.now }
{
    limits.thresh.midpoint(limits.bg)
}

/// Whether a domain with this reading has its background writeback started: the reading is above the background
/// threshold.
pub fn over_background(reading: u64, limits: &Limits) -> bool
    ensures { IsTrue result ↔ IsOverBackground reading limits.now }
{
    reading > limits.bg
}
