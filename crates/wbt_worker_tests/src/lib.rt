//! What tests show of seats in parts, and of what workers tell each other.
//!
//! ```text
//! seats     seats in parts, one for each CPU, and together again; what is left in a closed throttle
//! worker    what workers tell each other, and what a turn is to its worker
//! ```
#![tactic(auto)]

#[cfg(test)]
mod seats;
#[cfg(test)]
mod worker;
