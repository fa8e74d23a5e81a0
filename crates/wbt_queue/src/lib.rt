//! The inode numbers that wait for a device's flushers: one bounded queue a device, which threads share.
//!
//! Each queue is the array queue of the toolchain's crates: a thread that is stopped inside a call on it can hold up another
//! thread's call on the same queue, so each call takes a runtime that can wait. No `dirty`, count, `claim`, `complete` or
//! fraction call uses a queue.
//!
//! What is taken of a device's queue is what was put into it, first in, first out. No clause can name what a shared queue
//! holds, so each thread has a pass, which knows what it put and took itself. Between any two steps of any threads there is
//! for each device one list of all puts and one of all takes: the takes followed by what waits are the puts, and each entry
//! belongs to just one list that a pass knows.
//!
//! A pass has stakes, 2^32 in all, and who has them all knows each put and each take. To such a pass `None` says that each
//! number that was put was taken, and `Full` that all but as many as the queue holds were. To a pass with fewer stakes they
//! say only that its own entries agree with a queue that is empty, or full, after puts and takes of others that nobody names.
//! The code answers so where the toolchain's queue does, but no clause refuses one that answers so without a look. So the layers
//! above conclude something of an empty queue only from a pass with all stakes.
//!
//! The layers above make a pass for each thread by `split`, which hands it a stake, and bring passes together by `join`: the
//! lists of both are known then, each apart, and the stakes of both.
//!
//! ```
//! use wbt_queue::Queues;
//!
//! // One device, whose queue holds two inode numbers; `pass` is this thread's, `other` for another thread.
//! let (queues, mut pass) = Queues::make(alloc, &[2])?;
//! let mut other = queues.split(&rt, alloc, &mut pass)?;
//! assert!(rt; queues.put(&rt, &mut pass, 0, 7).is_ok());
//! assert_eq!(rt; queues.take(&rt, &mut other, 0), Some(7));
//! assert_eq!(rt; queues.take(&rt, &mut other, 0), None);
//! // Both threads have ended: one pass knows that 7 was put and taken.
//! queues.join(&rt, &mut pass, other);
//! ```
#![tactic(auto)]

mod each;
mod known;
mod queues;
mod ring;
mod rule;

pub use known::{Known, Part};
pub use queues::{QueuePass, Queues};
pub use ring::Full;
