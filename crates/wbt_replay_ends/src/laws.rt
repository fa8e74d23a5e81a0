//! The laws of a run's end, where its states are in range. Each function proves what its contract says, and does nothing.

ghost use Rattle.wbt_replay_ends.specs.Laws.{RunsComplete, RunsEnd};

/// The run ends by itself, after at most as many steps as a replay may have.
pub fn runs_end()
    ensures { RunsEnd }
{}

/// Where no CPU was stopped and the run isn't spent, every page of every write was told, and no page is left.
pub fn runs_complete()
    ensures { RunsComplete }
{}
