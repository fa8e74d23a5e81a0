//! Laws of passes. Each function proves what its contract says, and does nothing.

ghost use Rattle.wbt_published.specs.Laws.{SplitIsUndone};

/// A pass from which another was split, and into which that one is joined again, knows what it knew before.
pub fn split_is_undone()
    ensures { SplitIsUndone }
{}
