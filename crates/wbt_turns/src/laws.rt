//! Laws of turns that follow one another. Each function proves what its contract says, and does nothing.

ghost use Rattle.wbt_turns.specs.Laws.{TimerTurnsFollowOneAnother, TurnsFollowOneAnother};

/// Before its first step all turns of a CPU are whole; they are after one more that was whole; and after that the last one may be cut off.
pub fn turns_follow()
    ensures { TurnsFollowOneAnother }
{}

/// So are those of the timer. Where no domain's last version stands, each of them publishes the limits of all domains.
pub fn timer_turns_follow()
    ensures { TimerTurnsFollowOneAnother }
{}
