//! The timer's side of a run over threads: its turns, each of which publishes the limits of all domains, and begins new periods
//! of the proportions where it is time.
//!
//! `TimerSide` has what the timer keeps between its turns. `make` logs the limits of the opening; `turn` makes one turn on the
//! calls of a kit, with seats that hold the timer, and logs what it published and which periods began. The layer above calls
//! `turn` again and again, and lets time go by where it answers that the timer rests.
//!
//! ```
//! use wbt_io::{FreeGate, HandClock};
//! use wbt_kit::Turn;
//! use wbt_timer::TimerSide;
//!
//! // A kit and its seats, of a machine that opened at moment 1. The clock shows tick 1, and moves where somebody rests.
//! let mut log = Vec::new(alloc);
//! let mut side = TimerSide::make(alloc, &trace, 1, &mut log)?;
//! let clock = HandClock::make(1);
//! // The next turn that publishes limits is due 200 ticks after the opening.
//! let turn = side.turn(alloc, &kit, &mut seats, &clock, &FreeGate, &mut log);
//! assert_eq!(rt; turn, Turn::Resting { now: 1, until: 201 });
//! ```
#![tactic(auto)]

pub mod laws;
mod limits;
mod periods;
mod side;
mod turn;

pub use side::{DomainSide, TimerSide};
