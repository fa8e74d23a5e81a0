//! Laws of the polynomial and of the position ratio. Each function proves what its contract says, and does nothing.

ghost use Rattle.wbt_position.specs.Laws.{PolynomNeverRises, PositionNeverRises, WeightIsBetween};

/// The polynomial never rises with dirty pages.
pub fn polynom_never_rises()
    ensures { PolynomNeverRises }
{}

/// The position ratio never rises with the context's pages.
pub fn position_never_rises()
    ensures { PositionNeverRises }
{}

/// A context's weight in the position ratio is the greater of its part of the threshold and an eighth of what is free below the
/// hard limit.
pub fn weight_is_between()
    ensures { WeightIsBetween }
{}
