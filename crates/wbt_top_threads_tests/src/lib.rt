//! What tests show of the program's calls that run over threads: how they end, and what they refuse.
//!
//! ```text
//! threads  that memory is enough and all is done, and what each refusal leaves
//! ```
#![tactic(auto)]

#[cfg(test)]
mod threads;
