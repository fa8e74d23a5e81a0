//! What steps on counters, and those of a publication, make of their words.

ghost use Rattle.wbt_grant.specs.StepWords.{AddIsAddition, FoldIsAddition, ClearIsSubtraction, UnsealIsAddition, ThreshIsSwap, PublishIsSwap};

/// Adding an owed event is one addition to the CPU's own word.
pub fn add_is_addition()
    ensures { AddIsAddition }
{}

/// A fold is one addition to the shared word, of one version and the own number that the CPU's record tells.
pub fn fold_is_addition()
    ensures { FoldIsAddition }
{}

/// A clear is one subtraction of just the number that was folded from the CPU's own word.
pub fn clear_is_subtraction()
    ensures { ClearIsSubtraction }
{}

/// Unsealing a domain's limits is one addition to its sequence word, and leaves its thresh word.
pub fn unseal_is_addition()
    ensures { UnsealIsAddition }
{}

/// Taking limits in hand is one exchange of the thresh word for theirs, and leaves the sequence word.
pub fn thresh_is_swap()
    ensures { ThreshIsSwap }
{}

/// Publishing is one exchange of the sequence word, for the next sequence with the hard limit in hand, and leaves the thresh word.
pub fn publish_is_swap()
    ensures { PublishIsSwap }
{}
