//! The words of one domain and of its parts.

pub mod calls;
pub mod life;
pub mod note;
pub mod rule;
pub mod seat;
pub mod words;
