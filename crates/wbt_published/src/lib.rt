//! The newest estimate of each context, which one thread publishes and every thread reads whole.
//!
//! Each context has a cell. At most one pass publishes for a context, and it knows all that was published for it, in order
//! of version. A read gives one published estimate, sound and never mixed of two, whose version isn't below any that the
//! pass saw before; the publishing pass reads the newest. Before the first publication a read gives the context's first
//! estimate, with which the cells were made.
//!
//! The layers above make a pass for each thread by `split`, which hands the right to publish for some contexts on, and
//! bring passes together by `join`.
//!
//! ```
//! use wbt_estimate::{Estimate, first_estimate};
//! use wbt_num::Items;
//! use wbt_published::Published;
//!
//! // One context, at moment 1. CPU 1 owns it: its pass gets the right to publish.
//! let mut firsts = Items::new(alloc);
//! firsts.push(first_estimate(1))?;
//! let (published, mut pass) = Published::make(alloc, firsts, 1)?;
//! let mut other = published.split(&rt, alloc, &mut pass, &[1], 1)?;
//! let next = Estimate { version: 1, ..first_estimate(201) };
//! published.publish(&rt, &mut other, 0, next);
//! // Every pass reads it whole.
//! assert_eq!(rt; published.read(&rt, &mut pass, 0), next);
//! published.join(&rt, &mut pass, other);
//! ```
#![tactic(auto)]

mod each;
mod known;
pub mod laws;
mod place;
mod published;
mod rule;

pub use known::Known;
pub use published::{EstPass, Published};
