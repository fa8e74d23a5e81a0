//! Slots of the wheel: which list the pair of a moment is filed in.
//!
//! A level's slots are counted from moment 0 on, each `64^level` ticks long, and slot n is list `64 * level + n % 64`. Seen
//! from a base, a moment is filed at the lowest level at which one block of 64 slots holds both:
//!
//! ```text
//! level 0    a slot is one tick          the moment and the base agree but for their last 6 bits
//! level 1    a slot is 64 ticks          but for their last 12 bits
//! level 2    a slot is 4096 ticks        but for their last 18 bits
//! level 3    a slot is 262144 ticks      all further moments, up to 64 slots after the base's own
//! ```

ghost use Rattle.std.specs.Prelude.{◌≡◌, ◌<◌};
ghost use Rattle.wbt_expiry.specs.Slots.{slot, span, list_of};

/// Levels of the wheel.
pub const LEVELS: u32 = 4;

/// Slots of a level.
pub const SLOTS: u64 = 64;

/// The list of the pairs that were due before the base when they came, as after a take of one that wasn't due yet. Each
/// take walks over them.
pub const LATE: u32 = 256;

/// The list of pairs that are to be filed anew.
pub const LOOSE: u32 = 257;

/// A slot: the place of its level counts the slots before it, from moment 0 on.
#[derive(Clone, Copy)]
pub struct Slot {
    pub level: u32,
    pub place: u64,
}

/// The list that a pair is filed in that is due at a moment.
#[tactic(auto, unfolding(crate::specs::Slots::slot))]
pub fn slot_of(base: u64, due: u64) -> u32
    ensures { result ≡ slot base due }
{
    if due < base {
        LATE
    } else if due / 64 == base / 64 {
        (due % 64) as u32
    } else if due / 4096 == base / 4096 {
        64 + (due / 64 % 64) as u32
    } else if due / 262144 == base / 262144 {
        128 + (due / 4096 % 64) as u32
    } else {
        192 + (due / 262144 % 64) as u32
    }
}

/// How long a slot of a level is, in ticks.
pub fn span_of(level: u32) -> u64
    requires { level < 4 }
    ensures { result ≡ span level }
{
    match level {
        0 => 1,
        1 => 64,
        2 => 4096,
        _ => 262144,
    }
}

/// The list of a level's slot.
pub fn slot_list(level: u32, place: u64) -> u32
    requires { level < 4 }
    ensures { result ≡ list_of level place }
{
    64 * level + (place % 64) as u32
}
