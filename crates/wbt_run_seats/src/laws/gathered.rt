//! Notes that come together, and what they tell of a run.

ghost use Rattle.wbt_run_seats.specs.Gathered.{AllNotesComeTogether, GrownAreNotes, FirstIsGathered, TimerIsGathered, MoreAreGathered, MovedAreGathered, TimerTakesIn, GatheredTell};
ghost use Rattle.wbt_run_seats.specs.Left.{ClosesRun};

/// What CPUs noted is gathered by joins, whichever seats come first.
pub fn notes_are_gathered()
    ensures grown { GrownAreNotes }
    ensures first { FirstIsGathered }
    ensures timer { TimerIsGathered }
    ensures more { MoreAreGathered }
    ensures timer_takes_in { TimerTakesIn }
{}

/// A turn on gathered seats may be taken as one of its CPU.
pub fn turns_may_move()
    ensures { MovedAreGathered }
{}

/// With all stakes back all notes are there.
pub fn all_notes_come_together()
    ensures { AllNotesComeTogether }
{}

/// The joined notes tell what a run's journal is judged by.
pub fn gathered_tell()
    ensures { GatheredTell }
{}

/// And so does the closed throttle.
pub fn closes_run()
    ensures { ClosesRun }
{}
