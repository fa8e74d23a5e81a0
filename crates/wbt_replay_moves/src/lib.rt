//! The moves of the ordered run: the state of a machine that runs a trace, and what each item of a turn makes of it.
//!
//! The layer above says whose turn it is, takes the items of a turn one after another, and calls `make_step` and `make_move`, or
//! `make_timer_step` and `make_timer_move`, with each; it begins turns with `begin_turn` and `begin_timer`.
//!
//! ```
//! use wbt_replay_moves::{Todo, Whose};
//!
//! // CPU 0 begins a turn of task 0, whose items then stand in `todo`, and makes the first: a silent move or a step.
//! machine.begin_turn(&trace, 0, Whose::Task { task: 0 })?;
//! match machine.cpus[0].todo.pop_front() {
//!     Some(Todo::Silent(item)) => machine.make_move(&trace, 0, item)?,
//!     Some(Todo::Step(step)) => machine.make_step(&trace, 0, step)?,
//!     None => {}
//! }
//! ```
#![tactic(auto)]

mod age;
mod check;
mod counters;
pub mod cpu;
mod estimates;
mod flight;
mod forget;
mod idle;
pub mod machine;
pub mod pages;
mod perform;
mod scan;
pub mod state;
pub mod steps;
mod timer;
pub mod todo;
mod weigh;
mod writer;

pub use machine::Machine;
pub use pages::Pages;
pub use state::{
    Actor, Cpu, Domain, Flusher, Found, Held, Load, ReplayJob, ReplayPhase, ReplayTask, ReplayTurn,
    ReplayWork, Stretch, Timer, Whose, Writeback,
};
pub use steps::Steps;
pub use todo::{Silent, Step, TimerSilent, TimerStep, TimerTodo, Todo};
