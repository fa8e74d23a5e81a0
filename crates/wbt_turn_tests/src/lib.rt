//! What tests show of single turns of a CPU in a run over threads.
//!
//! ```text
//! turns    turns of a CPU's writers and of its flusher, and what stands in their log
//! moments  when a check asks the clock
//! held     the first check of a writer of a strict device, and of one of another
//! ```
#![tactic(auto)]

#[cfg(test)]
mod held;
#[cfg(test)]
mod moments;
#[cfg(test)]
mod turns;
