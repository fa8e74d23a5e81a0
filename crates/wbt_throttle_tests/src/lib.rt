//! What tests show of a throttle in use by one thread.
//!
//! ```text
//! limits    limits stand published under a peak, and limits and counts are loaded as they are
//! rounds    a page goes round as often as it is dirtied; no page step is made after the last
//! back      a page that is given back is dirty once more, or one of its dirtyings is absorbed
//! inodes    a page that is dirtied in flight leaves its inode's mark owed
//! settling  a gate stops a CPU between a fold and its clear: what is told then, and that it is paid once
//! ```
#![tactic(auto)]

#[cfg(test)]
mod back;
#[cfg(test)]
mod inodes;
#[cfg(test)]
mod limits;
#[cfg(test)]
mod rounds;
#[cfg(test)]
mod settling;
