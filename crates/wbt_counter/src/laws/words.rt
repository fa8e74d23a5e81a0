//! The words of counters: what additions make of them, their ranges, and that they tell their numbers.

ghost use Rattle.wbt_counter.specs.WordLaws.{FoldAdds, FoldFollows, OwnAdds, OwnTakes, OwnEmpties, SharedWordFits, OwnWordFits, SharedWordTells, OwnWordHolds, OwnWordTells, OwnIsNear, NearHasRoom};

/// One addition to the shared word makes the next version with the next sum.
pub fn fold_adds()
    ensures { FoldAdds }
{}

/// So the word of a history becomes that of the history with one fold more.
pub fn fold_follows()
    ensures { FoldFollows }
{}

/// An addition to an own word makes the word of the sum, whichever sign the change has.
pub fn own_adds()
    ensures { OwnAdds }
{}

/// A subtraction from an own word makes the word of what is left.
pub fn own_takes()
    ensures { OwnTakes }
{}

/// Taken as a whole, an own number leaves nothing.
pub fn own_empties()
    ensures { OwnEmpties }
{}

/// The shared word fits.
pub fn shared_word_fits()
    ensures { SharedWordFits }
{}

/// The own word fits in 33 bits.
pub fn own_word_fits()
    ensures { OwnWordFits }
{}

/// Equal shared words have one version and one sum.
pub fn shared_word_tells()
    ensures { SharedWordTells }
{}

/// An own word holds its number.
pub fn own_word_holds()
    ensures { OwnWordHolds }
{}

/// Equal own words have one number.
pub fn own_word_tells()
    ensures { OwnWordTells }
{}

/// A CPU's own number is never above the batch, whatever is owed.
pub fn own_is_near()
    ensures { OwnIsNear }
{}

/// A number within a batch has room in its own word.
pub fn near_has_room()
    ensures { NearHasRoom }
{}
