//! What tests show of the ledger of each page, in the program's runs over threads whose disks fail and whose CPUs are stopped.
//!
//! ```text
//! ledger   whether a journal's text adds up
//! failing  disks that fail their first writes
//! halts    CPUs that are stopped after k steps, for each k from 0 to 400
//! ```
#![tactic(auto)]

#[cfg(test)]
mod failing;
#[cfg(test)]
mod halts;
#[cfg(test)]
mod ledger;
