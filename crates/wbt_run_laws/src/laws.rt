//! Laws of turns. Each function proves what its contract says, and does nothing.

pub mod entries;
pub mod example;
pub mod growth;
pub mod points;
pub mod turns;
