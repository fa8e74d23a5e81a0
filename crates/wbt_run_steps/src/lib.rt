//! Single steps that every turn of a CPU takes over the words that all threads share, each with what it adds to the CPU's record and to
//! its log, and with the word of its steps' kinds, of which `wbt_turns` makes whole turns.
//!
//! ```text
//! Pen          the lists of a CPU's log in a turn: room is made before the turn's first step
//! may_step     asks the gate
//! settle       pays what the CPU owes to counters; each fold is told
//! tell_fold    tells a fold, where one was made
//! load_domain  loads a domain's limits, and then its count
//! load_limits  loads a domain's limits
//! load_count   loads a counter's version and count
//! mark         marks an inode
//! put_or_wait  puts an inode into its device's queue, or lets it wait
//! give_back    gives a page back, and tells it
//! ```
//!
//! ```
//! use wbt_run_steps::{Pen, may_step, settle};
//!
//! // A turn of CPU 0, with its kit, seats, gate and log. Room for three entries is made before its first step.
//! let mut pen = Pen::open(alloc, &mut log);
//! pen.reserve(3, 0, 0)?;
//! if may_step(0, &seats, &gate) {
//!     // What the CPU owes to counters is paid, and each fold told. True where all is paid, false where the gate said no before.
//!     let paid = settle(0, &kit, &mut seats, &gate, &mut pen);
//!     println!(rt; "{paid}")?;
//! }
//! pen.close(&mut log);
//! ```
#![tactic(auto)]

mod back;
mod inodes;
mod loads;
mod pen;
mod steps;

pub use back::give_back;
pub use inodes::{mark, put_or_wait};
pub use loads::{DomainLoad, Stopped, load_count, load_domain, load_limits};
pub use pen::Pen;
pub use steps::{may_step, settle, tell_fold};
