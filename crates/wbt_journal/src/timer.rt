//! What the timer did.

use wbt_num::Limits;

/// What the timer did.
#[derive(Clone, Copy, Debug, PartialEq, Eq)]
pub enum TimerEntry {
    /// It published the limits of a domain at a moment.
    Limits {
        domain: u32,
        now: u64,
        limits: Limits,
    },
    /// It began so many new periods of a domain at once.
    Period {
        domain: u32,
        k: u64,
    },
}
