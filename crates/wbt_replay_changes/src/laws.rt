//! The laws that moves are lists of changes. Each function proves what its contract says, and does nothing.

ghost use Rattle.wbt_replay_changes.specs.Laws.{ChangesHaveFacts, MovesAreChanges, OthersArePlain};

/// Each move of the ordered run makes of a state what its changes make of it.
pub fn moves_are_changes()
    ensures { MovesAreChanges }
{}

/// What is said of the operands of a change holds where a move makes it.
pub fn changes_have_facts()
    ensures { ChangesHaveFacts }
{}

/// Each change of a CPU's turn, but of a write, a check and an estimate, writes no page, checks no writer and updates no estimate.
pub fn others_are_plain()
    ensures { OthersArePlain }
{}
