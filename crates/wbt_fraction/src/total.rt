//! What each context wrote in all.

pub mod note;
pub mod rule;
pub mod seat;
pub mod words;
