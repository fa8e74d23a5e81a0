//! What every turn over a kit takes in hand.

use crate::kit::Kit;
use std::alloc::Global;

/// What every turn over a kit takes in hand: all of it is shared, and none of it is the turn's own.
///
/// Whoever starts threads on a kit makes one, and lends it to each of them: a run for its workers and its drain. A function that
/// only reaches the kit's words takes the kit alone.
#[derive(Drop)]
pub struct Hands<'a, R, C, G> {
    /// The leave to wait.
    pub rt: &'a R,
    /// Where memory comes from.
    pub alloc: Global,
    /// The kit, at which each thread has seats of its own.
    pub kit: &'a Kit,
    /// What tells moments.
    pub clock: &'a C,
    /// What is asked before each step.
    pub gate: &'a G,
}
