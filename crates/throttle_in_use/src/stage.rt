//! Two threads that take turns: one is held before a step of its own, while the other does its work.

ghost use Rattle.std.specs.Prelude.{◌≡◌, true};
ghost use Rattle.wbt_io.specs.Gates.{both_are};

use crate::waiting::comes_to;
use std::sync::atomic::AtomicU64;
use std::sync::atomic::Ordering::SeqCst;
use wbt_io::Gate;

/// How far both have come.
#[derive(Drop)]
pub struct Stage {
    at: AtomicU64,
    // Not 0 where one went on before its turn.
    gave_up: AtomicU64,
}

/// The first stands before its step.
pub const HELD: u64 = 1;

/// The second has done its work.
pub const LET_GO: u64 = 2;

impl Stage {
    pub fn make() -> Stage {
        Stage {
            at: AtomicU64::new(0),
            gave_up: AtomicU64::new(0),
        }
    }

    pub fn wait_for(&self, stage: u64) {
        if !comes_to(&self.at, stage) {
            self.gave_up.store(1, SeqCst);
        }
    }

    pub fn come_to(&self, stage: u64) {
        self.at.store(stage, SeqCst);
    }

    /// Whether nobody went on before its turn.
    pub fn was_kept(&self) -> bool {
        self.gave_up.load(SeqCst) == 0
    }
}

/// Holds a CPU before the step that it asks for after so many, until the other thread lets it go.
#[derive(Clone, Copy)]
pub struct LetsIn<'a> {
    pub stage: &'a Stage,
    pub steps: u64,
}

impl<'a> Gate for LetsIn<'a> {
    ghost said = { λ _ _ _ answer. answer ≡ true };

    ghost one_answer = { λ gate cpu steps a b. both_are a b true };

    fn may_step(&self, _cpu: u32, steps: u64) -> bool
        ensures { result ≡ true }
    {
        if steps == self.steps {
            self.stage.come_to(HELD);
            self.stage.wait_for(LET_GO);
        }
        true
    }
}
