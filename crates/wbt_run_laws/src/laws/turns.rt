//! Turns, one after another.

ghost use Rattle.wbt_run_laws.specs.Elsewhere.{SharesMayMove, PlainEstimates};
ghost use Rattle.wbt_run_laws.specs.Noted.{NotedWriterTurnIsSince, NotedFlusherTurnIsSince, NotedNow, NotedMore};
ghost use Rattle.wbt_run_laws.specs.Phases.{FaultsAreCounted, FaultShows, OwnFaultsAreAll};
ghost use Rattle.wbt_run_laws.specs.Shown.{WriterTurnIsSince, FlusherTurnIsSince, SinceNow, SinceMore};
ghost use Rattle.wbt_run_laws.specs.Ticks.{FewPeaksHaveNoLine, PeaksAreTold, TimerSinceNow, TimerSinceMore};
ghost use Rattle.wbt_run_laws.specs.Worker.{WritersGo, FlusherGoes, WentNowhere, WentOn, LogIsWhole, TimerWentNowhere, TimerWentOn, TimerLogIsWhole};

/// What a turn of a CPU's writers or of one of its flushers says holds of all turns, one after another.
pub fn turns_compose()
    ensures of_writers { WriterTurnIsSince }
    ensures of_flushers { FlusherTurnIsSince }
    ensures now { SinceNow }
    ensures more { SinceMore }
{}

/// A flusher has failed exactly where as many faults of its own stand as it may have.
pub fn faults_show()
    ensures counted { FaultsAreCounted }
    ensures last { FaultShows }
    ensures own { OwnFaultsAreAll }
{}

/// And so with what turns note of shares and estimates, and with what checks decide.
pub fn noted_turns_compose()
    ensures of_writers { NotedWriterTurnIsSince }
    ensures of_flushers { NotedFlusherTurnIsSince }
    ensures now { NotedNow }
    ensures more { NotedMore }
{}

/// What a turn of the timer says holds of all its turns, one after another.
pub fn timer_turns_compose()
    ensures now { TimerSinceNow }
    ensures more { TimerSinceMore }
    ensures peaks { PeaksAreTold }
    ensures few { FewPeaksHaveNoLine }
{}

/// A worker's turns with its log: turns go on one after another, and a log that was empty tells just what was done.
pub fn workers_go_on()
    ensures writers { WritersGo }
    ensures flusher { FlusherGoes }
    ensures now { WentNowhere }
    ensures more { WentOn }
    ensures whole { LogIsWhole }
{}

/// And so do the timer's.
pub fn timer_goes_on()
    ensures now { TimerWentNowhere }
    ensures more { TimerWentOn }
    ensures whole { TimerLogIsWhole }
{}

/// What a flusher notes on seats that were joined may be taken as noted by its CPU.
pub fn joined_notes_may_move()
    ensures shares { SharesMayMove }
    ensures estimates { PlainEstimates }
{}
