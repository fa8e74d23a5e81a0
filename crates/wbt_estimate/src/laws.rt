//! Laws of estimates. Each function proves what its contract says, and does nothing.

ghost use Rattle.wbt_estimate.specs.Laws.{ApartAreTaken, AverageIsBetween, BandwidthIsBetween, FoldsTaken, RateLimitFalls, RateLimitIsBetween, RateLimitRises, SoundFromTheFirst, StaysSound, StepIsAnEighth, TakenAreApart, VersionsCount};

/// A sound estimate stays sound through any list of samples in range.
pub fn stays_sound()
    ensures { StaysSound }
{}

/// So is whatever comes of the first estimate.
pub fn sound_from_the_first()
    ensures { SoundFromTheFirst }
{}

/// An estimate is the fold over those of its samples that don't come too early.
pub fn folds_taken()
    ensures { FoldsTaken }
{}

/// These are at least 200 ticks apart.
pub fn taken_are_apart()
    ensures { TakenAreApart }
{}

/// Of samples that are at least 200 ticks apart none comes too early.
pub fn apart_are_taken()
    ensures { ApartAreTaken }
{}

/// An estimate's version counts them.
pub fn versions_count()
    ensures { VersionsCount }
{}

/// The new bandwidth lies between the old one and the measured one.
pub fn bandwidth_is_between()
    ensures { BandwidthIsBetween }
{}

/// The new average lies between the old one and the new bandwidth.
pub fn average_is_between()
    ensures { AverageIsBetween }
{}

/// The new rate limit lies between the old one and the balanced rate, which it never passes.
pub fn rate_limit_is_between()
    ensures { RateLimitIsBetween }
{}

/// Below the setpoint the rate limit doesn't fall, nor rise past the least of the three rates.
pub fn rate_limit_rises()
    ensures { RateLimitRises }
{}

/// Elsewhere it doesn't rise, nor fall past the greatest of them.
pub fn rate_limit_falls()
    ensures { RateLimitFalls }
{}

/// Of a whole step at most an eighth is taken, rounded up.
pub fn step_is_an_eighth()
    ensures { StepIsAnEighth }
{}
