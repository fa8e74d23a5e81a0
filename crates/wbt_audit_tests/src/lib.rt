//! What tests show of the program's audits.
//!
//! ```text
//! audit    worked rows, journals that are cut, and a sink that fails
//! of_runs  journals of runs over threads, as they are written
//! ```
#![tactic(auto)]

#[cfg(test)]
mod audit;
#[cfg(test)]
mod of_runs;
