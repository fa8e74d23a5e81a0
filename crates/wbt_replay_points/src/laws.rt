//! The laws of a run's journal, where the run is in range, follows the step relation and ends. Each function proves what its contract
//! says, and does nothing.

ghost use Rattle.wbt_replay_points.specs.Laws.{ChecksDecideByTheLaw, CountsAreBounded, JournalsAreLawful, JournalsAreLegal, StrictContextsAreBounded};

/// Each count that the journal prints is the exact count of the book after its step, and at most the bound beside it, which is the domain's
/// own; and at each moment at most the closer bound.
pub fn counts_are_bounded()
    ensures { CountsAreBounded }
{}

/// Each context of a strict device has its line, and stays within the bound that the line tells.
pub fn strict_contexts_are_bounded()
    ensures { StrictContextsAreBounded }
{}

/// Each check decides by what is printed with it, the estimate that it names and its writer's numbers, and pauses at most 200 ticks.
pub fn checks_decide_by_the_law()
    ensures { ChecksDecideByTheLaw }
{}

/// The journal is legal for the trace, however the run ends.
pub fn journals_are_legal()
    ensures { JournalsAreLegal }
{}

/// Where the run isn't spent its journal is lawful for the trace.
pub fn journals_are_lawful()
    ensures { JournalsAreLawful }
{}
