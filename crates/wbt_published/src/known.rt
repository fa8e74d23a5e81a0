//! What a pass knows of the estimates of one context. It stands in contracts alone: no value of it is made.

use std::collections::LinkedList;
use wbt_estimate::Estimate;

/// What a pass knows of the estimates of one context.
pub struct Known {
    /// It is the one pass that publishes for this context.
    pub publishes: bool,
    /// Where it publishes: all estimates so far, the first one and then those that were published. A pass that handed the right
    /// on keeps here those of the time before.
    pub all: LinkedList<Estimate>,
    /// What it read, the oldest first, also what came by joins.
    pub reads: LinkedList<Estimate>,
    /// The greatest version that it read, published or got by a join.
    pub seen: u64,
}
