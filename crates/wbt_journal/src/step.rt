//! A step of a replay.

use wbt_grant::StepKind;

/// A step: who made it, and what it changed.
#[derive(Clone, Copy, Debug, PartialEq, Eq)]
pub struct StepEntry {
    /// A CPU's number, or the number of CPUs for the timer.
    pub who: u32,
    /// Its kind.
    pub kind: StepKind,
    /// The context whose exact count changed; 0 where none did.
    pub context: u32,
    /// By how much it changed, in pages.
    pub change: i8,
    /// The domain whose peak was raised; 0 where none was.
    pub domain: u16,
    /// What it was raised to, in pages; 0 where none was.
    pub peak: u32,
}
