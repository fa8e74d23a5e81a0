//! What tests show of a throttle in use by threads, each with a seat of its own.
//!
//! ```text
//! between  a claim, or giving back, is missed where another CPU's claim comes between its look and its exchange
//! threads  two and four threads dirty pages that share words, and clean them all
//! returns  two threads dirty, give back and clean the same pages: each dirtying is cleaned once, or absorbed
//! ```
#![tactic(auto)]

#[cfg(test)]
mod between;
#[cfg(test)]
mod returns;
#[cfg(test)]
mod threads;
