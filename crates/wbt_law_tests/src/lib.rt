//! What tests show of law texts.
//!
//! ```text
//! laws  law texts with what they print; the first fault of a text is named; up to where a large machine's writers run free
//! ```
#![tactic(auto)]

#[cfg(test)]
mod laws;
