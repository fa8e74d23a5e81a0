//! The laws of a state whose lists are cut. Each function proves what its contract says, and does nothing.

ghost use Rattle.wbt_replay_cut.specs.Laws.{AdvanceIsCut, ForgottenIsCut, OthersStand};

/// A run goes on from a state whose lists are cut as from the whole one.
pub fn advance_is_cut()
    ensures { AdvanceIsCut }
{}

/// To forget what was told is to cut all lists, whatever was cut before.
pub fn forgotten_is_cut()
    ensures { ForgottenIsCut }
{}

/// What is cut of a state is the beginnings of its lists, and nothing else.
pub fn others_stand()
    ensures { OthersStand }
{}
