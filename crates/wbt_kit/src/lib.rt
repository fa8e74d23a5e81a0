//! All that the threads of a run share, and the seats of one thread at it.
//!
//! A `Kit` has the words of the throttle, the proportions and written totals, the newest estimates, and the queues of inode
//! numbers. `Seats` has one thread's seat at each: the records of the CPUs that it steps for, its notes, its stakes and rooms, the
//! contexts for which it publishes, and what it put and took. `make` makes a kit of a trace with the seats that hold everything;
//! `split` moves one CPU, or the timer, to seats of its own, which another thread may take; `join` brings seats together, and
//! then they have all that both had. `Hands` is the kit with what else all turns share: the runtime, the allocator, the clock and the gate.
//!
//! ```
//! use wbt_kit::Kit;
//!
//! // `trace` is one that `wbt_trace_text::read_trace` answered, of two CPUs. The run opens at moment 1.
//! let (kit, mut seats) = Kit::make(alloc, &trace, 1)?;
//! // Seats of its own for CPU 1, which another thread takes. The others keep CPU 0, and the timer, whose number is that of the CPUs.
//! let other = kit.split(&rt, alloc, &mut seats, 1)?;
//! assert_eq!(rt; (seats.cpu.holds(0), seats.cpu.holds(1), seats.cpu.holds(2)), (true, false, true));
//! kit.join(&rt, &mut seats, other);
//! assert_eq!(rt; seats.cpu.holds(1), true);
//! ```
#![tactic(auto)]

mod devices;
mod hands;
mod kit;
mod layout;
mod turn;

pub use hands::Hands;
pub use kit::{Kit, Seats};
pub use turn::Turn;
