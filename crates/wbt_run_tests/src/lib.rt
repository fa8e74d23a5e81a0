//! What tests show of whole runs over threads.
//!
//! ```text
//! sides   each CPU has a side before any turn
//! rows    two pages, from their writes to an empty throttle
//! beside  workers run beside each other
//! timer   the timer takes a turn beside the CPUs
//! runs    runs of texts: by one call, and by their parts
//! ```
#![tactic(auto)]

#[cfg(test)]
mod beside;
#[cfg(test)]
mod rows;
#[cfg(test)]
mod runs;
#[cfg(test)]
mod sides;
#[cfg(test)]
mod timer;
