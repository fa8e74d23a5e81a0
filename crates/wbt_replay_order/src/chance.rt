//! What an actor can do next.

use wbt_replay_moves::Actor;

/// What comes next in an actor's turn.
#[derive(Clone, Copy)]
pub enum Ahead {
    /// Its turn is over.
    Nothing,
    /// A step.
    Step,
    /// A silent move.
    Silent,
}

/// What an actor can do.
#[derive(Clone, Copy)]
pub enum Chance {
    /// Nothing.
    Nothing,
    /// It goes on with its turn.
    GoesOn,
    /// It is a CPU and begins a turn: that of the job at this place among its jobs and, where that is its writer side, of the task at
    /// that place among its tasks.
    Begins { job: u32, place: u32 },
    /// It is the timer and begins its turn.
    TimerBegins,
}

/// An actor that can do something.
#[derive(Clone, Copy)]
pub struct Found {
    /// The actor.
    pub actor: Actor,
    /// What it can do.
    pub chance: Chance,
}
