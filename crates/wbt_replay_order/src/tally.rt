//! The pages of a context of a strict device over a run.

/// How many pages a context has, and the most that it had.
#[derive(Clone, Copy, Drop)]
pub struct Tally {
    pub pages: i64,
    pub most: u64,
}
