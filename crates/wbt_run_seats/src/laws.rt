//! Laws of a crew. Each function proves what its contract says, and does nothing.

pub mod gathered;
pub mod opened;
pub mod together;
