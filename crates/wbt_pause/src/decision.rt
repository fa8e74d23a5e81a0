//! A decision: what every kind of it has.

ghost use Rattle.std.specs.Prelude.{◌≡◌};
ghost use Rattle.wbt_pause.specs.Decision.{decided, exceeded_of, left_of};

use crate::reads::Task;
use crate::rule::Rule;

/// What a check decides about a writer.
#[derive(Clone, Copy, Debug, PartialEq, Eq)]
pub enum Kind {
    /// The writer goes on at once: for `decide`, where no domain is above its freerun.
    Free,
    /// The writer goes on after its pause.
    Go,
    /// Nothing may be dirtied now, but the context has so few pages that the writer goes on after its pause.
    Exempt,
    /// The writer asks again after its pause.
    Wait,
}

/// The decision.
#[derive(Clone, Copy, Debug, PartialEq, Eq)]
pub struct Decision {
    /// What the writer does.
    pub kind: Kind,
    /// How long it pauses first, in ticks, at most 200.
    pub pause: u64,
    /// How many pages it then may dirty before its next check.
    pub left: u64,
    /// The writer's numbers after the check.
    pub task: Task,
    /// Whether the context is over its threshold and the writer isn't free: for `decide`, where a domain is over its own besides.
    pub exceeded: bool,
}

/// The decision of a kind and a pause by a rule, with the writer's new numbers.
#[tactic(auto, unfolding(crate::specs::Decision::decided))]
pub fn make_decision(rule: &Rule, cap: u32, kind: Kind, pause: u64, task: Task) -> Decision
    ensures value { result ≡ decided rule.now cap kind pause task }
    ensures numbers { result.task ≡ task }
{
    Decision {
        kind,
        pause,
        left: pages_left(kind, task, u64::from(cap)),
        task,
        exceeded: kind != Kind::Free && rule.over,
    }
}

// What is left of the allowance, from 1 to cap.
fn pages_left(kind: Kind, task: Task, cap: u64) -> u64
    ensures { result ≡ left_of kind task cap }
{
    match kind {
        Kind::Wait => 0,
        _ => task
            .nr_dirtied_pause
            .saturating_sub(task.nr_dirtied)
            .max(1)
            .min(cap),
    }
}
