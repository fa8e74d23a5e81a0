//! What tests show of the ground: numbers, lists, and the outside.
//!
//! ```text
//! num         arithmetic rounds as it says; lists grow, change and are taken from
//! io
//!   bytes     a whole input is read and a whole text written, in memory and over readers and writers; where they fail
//!   clocks    clocks move by rests, by a list or by the machine, or stand; which moment is told
//!   gates     which steps a gate allows
//!   disks     when a batch is done, and which calls of a faulty disk fail
//!   racks     disks are lent, also to two threads, and what they wrote and where they failed is added up
//! ```
#![tactic(auto)]

#[cfg(test)]
mod io;
#[cfg(test)]
mod num;
