//! The law of steps. The function proves what its contract says, and does nothing.

ghost use Rattle.wbt_replay_path.specs.Laws.{RunsFollowTheRelation};

/// A run that ends, and whose states are in range, follows the step relation: at each moment the steps and grants so far are those of
/// the relation, and lead to the run's state.
pub fn runs_follow_the_relation()
    ensures { RunsFollowTheRelation }
{}
