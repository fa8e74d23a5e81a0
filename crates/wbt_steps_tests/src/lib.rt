//! What tests show of steps and what they change: counters, the book of pages, the bound, waiting lists, and a throttle's life.
//!
//! ```text
//! counter     batches and errors; the plan of an addition; words of counters, and what is added to them
//! book        words of pages with two bits each, and words of marks
//! grant       the bound of a machine
//! expiry      a wheel hands inodes out in order of when they are due
//! life        how many pages a throttle's life leaves, whole or stopped
//! ```
#![tactic(auto)]

#[cfg(test)]
mod book;
#[cfg(test)]
mod counter;
#[cfg(test)]
mod expiry;
#[cfg(test)]
mod grant;
#[cfg(test)]
mod life;
