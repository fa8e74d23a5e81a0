//! The steps that a machine has made, of which it may forget the first.

ghost use Rattle.std.specs.Prelude.{◌≡◌, ◌+◌, ◌<◌, ◌^◌, ◌++◌, [], ◌∷◌, length, replicate, nat_le, OnOk, IfOk};
ghost use Rattle.wbt_replay_moves.specs.Definition.State.{no_step};
ghost use Rattle.wbt_replay_moves.specs.Steps.{steps_of};

use std::alloc::{AllocError, Global};
use std::marker::Model;
use wbt_grant::StepKind;
use wbt_journal::StepEntry;
use wbt_num::Items;

// What stands for a step that was forgotten.
const NO_STEP: StepEntry = StepEntry {
    who: 0,
    kind: StepKind::Add,
    context: 0,
    change: 0,
    domain: 0,
    peak: 0,
};

/// The steps made, in order. Of the first ones it may be known only how many they are.
#[derive(Drop)]
pub struct Steps {
    forgotten: u64,
    kept: Vec<StepEntry>,
}

impl Model for Steps {
    ghost use Rattle.wbt_replay_moves.specs.Steps.{Made};

    ghost Value = { Made };

    ghost view = { λ steps. record { forgotten = steps.forgotten; kept = steps.kept.items } };
}

impl Steps {
    /// No steps. It takes no memory until one is made.
    pub fn new(alloc: Global) -> Steps
        ensures { result ≡ record { forgotten = 0; kept = [] } }
    {
        Steps {
            forgotten: 0,
            kept: Vec::new(alloc),
        }
    }

    /// A step is made. It fails where memory is refused.
    pub fn push(&mut self, step: StepEntry) -> Result<(), AllocError>
        ensures { OnOk result (self.new ≡ record self.old { kept = self.old.kept ++ step ∷ [] }) }
    {
        self.kept.push(step)?;
        Ok(())
    }

    /// Whether at least so many steps were made, with those that were forgotten.
    #[tactic(auto, using(crate::proofs::Made::made_count))]
    pub fn is_at_least(&self, most: u64) -> bool
        ensures { result ≡ nat_le most (length (steps_of self.now)) }
    {
        most <= self.forgotten || most - self.forgotten <= self.kept.len() as u64
    }

    /// The steps that were made after those that were forgotten.
    pub fn kept(&self) -> &[StepEntry]
        ensures { result.now ≡ self.now.kept }
    {
        self.kept.as_slice()
    }

    /// All steps are forgotten, but not how many there were. The memory is kept for those to come.
    #[tactic(auto, using(crate::proofs::Made::made_count))]
    pub fn forget(&mut self)
        requires { length (steps_of self.old) < 2 ^ 64 }
        ensures { self.new ≡ record { forgotten = length (steps_of self.old); kept = [] } }
    {
        self.forgotten += self.kept.len() as u64;
        self.kept.clear();
    }

    /// The steps as a list. It takes no memory where none was forgotten.
    pub fn into_items(self, alloc: Global) -> Result<Items<StepEntry>, AllocError>
        ensures { IfOk result (λ list. list ≡ steps_of self) }
    {
        let Steps { forgotten, kept } = self;
        if forgotten == 0 {
            return Ok(Items::from_vec(kept));
        }
        all_steps(alloc, forgotten, kept.as_slice())
    }
}

// The list in which nothing stands for so many steps, and these come after them.
fn all_steps(
    alloc: Global,
    forgotten: u64,
    kept: &[StepEntry],
) -> Result<Items<StepEntry>, AllocError>
    ensures { IfOk result (λ list. list ≡ replicate forgotten no_step ++ kept.now) }
{
    let mut steps = Vec::new(alloc);
    for _ in 0..forgotten {
        steps.push(NO_STEP)?;
    }
    steps.extend_from_slice(kept)?;
    Ok(Items::from_vec(steps))
}
