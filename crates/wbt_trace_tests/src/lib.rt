//! What tests show of texts that are read line by line, and of traces.
//!
//! ```text
//! cuts    a text is cut at a byte, at its first digit, and into numbers
//! lines   a text is read line by line, to its first fault
//! limits  numbers of a trace at the ends of their ranges, and one past them
//! things  lines that say more of a device, a context or a task
//! traces  traces are read and written in their normal form, also at their limits; the first fault of a text is named
//! ```
#![tactic(auto)]

#[cfg(test)]
mod cuts;
#[cfg(test)]
mod limits;
#[cfg(test)]
mod lines;
#[cfg(test)]
mod things;
#[cfg(test)]
mod traces;
