//! What tests show of the kit of a run, and of the pen by which steps are told.
//!
//! ```text
//! kit    a split takes the CPU and its right to publish; writers and first limits stand as the trace says
//! steps  a fold is told, and none where none was made
//! ```
#![tactic(auto)]

#[cfg(test)]
mod kit;
#[cfg(test)]
mod steps;
