//! The laws of a run's order. Each function proves what its contract says, and does nothing.

ghost use Rattle.wbt_replay_turns.specs.Laws.{RunsAreFair, RunsKeepTime, RunsObeyOrder, RunsTakeTurns, SchedulesAreShown};

/// The clock moves by tick lines, and to the next moment at which something ends where no order line is left and nobody can do anything.
/// Nothing else moves it.
pub fn runs_keep_time()
    ensures { RunsKeepTime }
{}

/// The first steps of a run are those of the order lines' actors, line after line, each as many as its line says, or fewer where it stops.
pub fn runs_obey_order()
    ensures { RunsObeyOrder }
{}

/// Without order lines an actor finishes its turn, and then the first one in the order of the rotation that can do something has its own.
pub fn runs_are_fair()
    ensures { RunsAreFair }
{}

/// The steps of each CPU are those of whole turns, one after another, and of a last one that may be cut off; so are the timer's.
pub fn runs_take_turns()
    ensures { RunsTakeTurns }
{}

/// Each schedule of steps and ticks is that of a lawful trace, whose run makes its steps in this order, as long as each actor can make its own.
pub fn schedules_are_shown()
    ensures { SchedulesAreShown }
{}
