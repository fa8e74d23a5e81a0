//! The laws of the run that a forecast tells. Each function proves what its contract says, and does nothing.

ghost use Rattle.wbt_forecast_run.specs.Claims.{AsReplayed, ClockAlone, CountsAreTold, FewAreTold, MovesAreCut, RowsAreBounded, RunsEnd, RunsStaySound, RunsTellInOrder};

/// Each state of a lawful trace's run is in range, however far the run is let on; and each move, and what is forgotten, keeps it so.
pub fn runs_stay_sound()
    ensures { RunsStaySound }
{}

/// A run goes on from a state whose lists are cut as from the whole one.
pub fn moves_are_cut()
    ensures { MovesAreCut }
{
    wbt_replay_cut::laws::advance_is_cut();
}

/// A move that moves the clock leaves all else alone.
pub fn clock_alone()
    ensures { ClockAlone }
{}

/// What a run tells only grows at its ends, and a move that leaves an interval tells nothing.
pub fn runs_tell_in_order()
    ensures { RunsTellInOrder }
{}

/// A run tells at most 2^46 steps, entries and checks, however far it is let on.
pub fn few_are_told()
    ensures { FewAreTold }
{}

/// The run ends by itself, before it has made the most moves.
pub fn runs_end()
    ensures { RunsEnd }
{}

/// The changes that steps tell are those of the domains' exact counts.
pub fn counts_are_told()
    ensures { CountsAreTold }
{}

/// Where the ordered run isn't spent the forecast tells the run that `replay` tells: its totals and its ending are those of that journal, and what its
/// intervals count adds up to what that journal tells.
pub fn as_replayed()
    ensures { AsReplayed }
{
    wbt_forecast_rows::laws::runs_sum_up();
}

/// Each count of a domain that a row tells is at most the bound beside it, for every run: one of up to 2^40 steps.
pub fn rows_are_bounded()
    ensures { RowsAreBounded }
{}
