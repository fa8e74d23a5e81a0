//! Why a throttle isn't in use.

use std::alloc::AllocError;
use wbt_num::NoMemory;

/// Why a throttle isn't in use.
#[derive(Clone, Copy, Debug, PartialEq, Eq)]
pub enum Unready {
    NoMemory,
    /// A seat doesn't step for its CPU, or there is no page.
    NotItsSeat,
}

impl From<AllocError> for Unready {
    fn from(_: AllocError) -> Unready {
        Unready::NoMemory
    }
}

impl From<NoMemory> for Unready {
    fn from(_: NoMemory) -> Unready {
        Unready::NoMemory
    }
}
