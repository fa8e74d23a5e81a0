//! Runs worked out: the text of the journal of a trace, in full, byte for byte.
//!
//! Nothing stands on this.
#![tactic(auto)]

pub mod worked;
