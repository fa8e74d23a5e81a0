//! What tests show of a throttle's limits, published while CPUs load them, each by a seat of its own.
//!
//! ```text
//! versions  each triple is found whole, and a load that publications come between is answered again
//! ```
#![tactic(auto)]

#[cfg(test)]
mod versions;
