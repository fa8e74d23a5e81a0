//! What tests show of replays.
//!
//! ```text
//! pages    the bits of pages in a replay
//! replays  memory is enough for small replays, the rests of a pace, and a sink that fails
//! ```
#![tactic(auto)]

#[cfg(test)]
mod pages;
#[cfg(test)]
mod replays;
