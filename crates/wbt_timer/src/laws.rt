//! Laws of the timer. Each function proves what its contract says, and does nothing.

ghost use Rattle.wbt_timer.specs.Kinds.{IsSealedFirst, PublishesAll, TurnsFollowOneAnother};
ghost use Rattle.wbt_timer.specs.Ready.{IsReadyFirst};

/// The timer is ready for a turn at the opening of its kit.
pub fn timer_is_ready_first()
    ensures { IsReadyFirst }
{}

/// At the opening the timer has each publication behind it.
pub fn timer_is_sealed_first()
    ensures { IsSealedFirst }
{}

/// Turns of the timer that follow one another are whole, and the last one may be cut off.
pub fn timer_turns_follow()
    ensures { TurnsFollowOneAnother }
{}

/// A whole turn publishes the limits of all domains, where the last version of none of them stood before it.
pub fn whole_turn_publishes_all()
    ensures { PublishesAll }
{}
