//! What tests show of the control: the numbers of each law, worked out apart from its code.
//!
//! ```text
//! limits      thresholds of a domain, a cgroup and a context; the limit that follows; the two words of limits
//! flex        parts are halved with each period; fractions; which batch is added
//! estimate    the first estimate, and an update
//! position    the curve, and the ratio on it and on the context's line
//! pause
//!   check     decisions of checks of each kind
//!   rule      decisions by a rule
//!   pauses    the longest pause, the least one, and the pages between polls
//! task        when a check is due, and whose the leaks are
//! strict      the bound, the ratio and the decisions of a strict device
//! rules       what turns look up and decide: due inodes, chunks, places of scans, paces, first estimates, limits that follow, periods
//! ```
#![tactic(auto)]

#[cfg(test)]
mod estimate;
#[cfg(test)]
mod flex;
#[cfg(test)]
mod limits;
#[cfg(test)]
mod pause;
#[cfg(test)]
mod position;
#[cfg(test)]
mod rules;
#[cfg(test)]
mod strict;
#[cfg(test)]
mod task;
