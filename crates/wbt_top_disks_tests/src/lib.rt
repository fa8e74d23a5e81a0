//! What tests show of the disks and the clock in the program's runs over threads: pages that a disk failed to write, each disk's rate, how long
//! the drain rests, and the unit of the machine's clock.
//!
//! ```text
//! lines    lines of a journal's text, word by word
//! faults   disks that fail, and what is given back
//! outside  what a run asks of disks and clocks
//! ```
#![tactic(auto)]

#[cfg(test)]
mod faults;
#[cfg(test)]
mod lines;
#[cfg(test)]
mod outside;
