//! The closer bound is attained: on a machine with one context and a writer on each CPU there is a list of allowed steps and grants after which the
//! count of the domain is just the closer bound. So no lesser number bounds every such list. Laws alone.
//!
//! How it comes to that: one CPU dirties pages up to the hard limit and folds all of them. Then each CPU dirties a batch, and stops where its fold is
//! due, so that the shared count is still the hard limit. Each writer loads that count, is let through and granted a cap. Then each CPU folds, and its
//! writer dirties the cap.
//!
//! ```text
//! attained()   cited in a proof: for each number of CPUs, cap and hard limit of so many batches that is no less than twice the error without the
//!              batches of the CPUs, such a list is there, and its steps can be read off
//! ```
#![tactic(auto)]

pub mod laws;
