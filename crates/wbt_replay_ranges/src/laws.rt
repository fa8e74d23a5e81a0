//! The law of ranges. The function proves what its contract says, and does nothing.

ghost use Rattle.wbt_replay_ranges.specs.Laws.{RunsStayInRange};

/// Each state of the run of a lawful trace is in range: each number fits its type with room for the steps that are left, each place
/// names something of the trace, and what is still to be done fits the turn that it stands in.
pub fn runs_stay_in_range()
    ensures { RunsStayInRange }
{}
