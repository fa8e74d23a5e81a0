//! An inode and the moment at which it is due.

/// An inode that waits to be written.
#[derive(Clone, Copy, Debug, PartialEq, Eq)]
pub struct Due {
    /// The moment from which on it is due, in ticks.
    pub due: u64,
    /// The number of the inode.
    pub inode: u32,
}
