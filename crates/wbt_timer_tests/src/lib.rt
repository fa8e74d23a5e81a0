//! What tests show of the timer's turns.
//!
//! ```text
//! timer  the timer rests until its next moment; a limit follows its threshold
//! ```
#![tactic(auto)]

#[cfg(test)]
mod timer;
