//! The allowance of a writer: when its check is due, and who counts the pages of writers that ended.
//!
//! A new writer has 0 pages dirtied, an allowance of 32, and no pause yet. A CPU counts its fresh writes, and
//! the pages of writers that ended, its leaks. After each fresh write, which both the writer and its CPU count:
//!
//! ```text
//! limit = allowance                  at most 8 where the writer is marked exceeded
//! dirtied >= limit                   the CPU counts anew, from 0
//! else since >= ratelimit_pages      the CPU counts anew, and limit = 0
//! dirtied < limit                    min(leaks, limit - dirtied) pages of the leaks become the writer's
//! a check is due                     where dirtied >= limit, or no page is left
//! ```
//!
//! What each writer has, and whether its check is due, is a function of what happened on its CPU, in order: fresh writes,
//! checks with what they decided, tasks that ended. That no page is counted twice or lost there, that a CPU doesn't go on
//! long without a check, and that no page is written that isn't left are laws of `laws`. The layers above keep a `CpuLocal`
//! for each CPU and a `Task` for each writer, and let `wbt_pause::decide` make the check.
//!
//! ```
//! use wbt_task::{CpuLocal, Due, first_task, page_done};
//!
//! // A new writer may dirty 32 pages before its check. Each page that it dirties is counted, with `left` pages that it still may dirty.
//! let (mut local, mut task) = (CpuLocal { since_check: 0, leaks: 0 }, first_task());
//! for left in [31, 30] {
//!     // It isn't marked exceeded, and its CPU asks for a check at least after each 300 pages.
//!     assert_eq!(rt; page_done(&mut local, &mut task, left, false, 300), Due::No);
//! }
//! assert_eq!(rt; (task.nr_dirtied, local.since_check), (2, 2));
//! // A check is due where no page is left.
//! assert_eq!(rt; page_done(&mut local, &mut task, 0, false, 300), Due::Check);
//! ```
#![tactic(auto)]

mod allowance;
mod history;
pub mod laws;

pub use allowance::{CpuLocal, Due, end_task, first_task, page_done};
pub use history::{Event, Writer, new_writer, run};
pub use wbt_pause::Task;
