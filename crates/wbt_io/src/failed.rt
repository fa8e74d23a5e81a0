//! The error of a call to the outside.

/// A call to the outside failed, and the fault was counted.
#[derive(Clone, Copy, Debug, PartialEq, Eq)]
pub struct Failed;
