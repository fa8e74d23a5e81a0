//! What tests show of the program's calls that start no thread: on texts of traces and on law texts.
//!
//! ```text
//! worked    worked calls, and each refusal
//! faults    texts that are cut, a source and a sink that fail
//! forecast  forecasts
//! limits    texts at the limits of what a trace may have
//! ```
#![tactic(auto)]

#[cfg(test)]
mod faults;
#[cfg(test)]
mod forecast;
#[cfg(test)]
mod limits;
#[cfg(test)]
mod worked;
