//! The numbers of the model that no formula gives, each as a numeral. Each function's contract is a law; calling it does nothing.

ghost use Rattle.std.specs.Prelude.{◌≡◌};
ghost use Rattle.wbt_rules.specs.Pace.{RestsAtMultiples};
ghost use Rattle.wbt_rules.specs.Places.{PassesEachOnce};
ghost use Rattle.wbt_rules.specs.declared.age.TheConstants.{DEFAULT_EXPIRE, EXPIRE_TICKS, MOST_NOTICED};
ghost use Rattle.wbt_rules.specs.declared.moments.TheConstants.{ESTIMATE_AGE, FLUSHER_REST, MOST_FAULTS, PERIOD_TICKS, RETRY_REST, TIMER_REST};

/// Between turns: ticks from a turn of the timer to its next, from a period to the next, that a flusher rests, that it rests after a batch
/// that its disk failed to write, and from an estimate to the next; and how many such batches end a flusher's turns.
pub fn rests()
    ensures timer { TIMER_REST ≡ 200 }
    ensures period { PERIOD_TICKS ≡ 3000 }
    ensures flusher { FLUSHER_REST ≡ 100 }
    ensures retry { RETRY_REST ≡ 1000 }
    ensures estimate { ESTIMATE_AGE ≡ 200 }
    ensures faults { MOST_FAULTS ≡ 8 }
{}

/// Of writeback by age: the default age in hundredths of a second, ticks of a hundredth, and the most numbers that a turn notices.
pub fn ages()
    ensures default { DEFAULT_EXPIRE ≡ 3000 }
    ensures ticks { EXPIRE_TICKS ≡ 10 }
    ensures noticed { MOST_NOTICED ≡ 64 }
{}

/// A scan that passes as many pages as its inode has passes each of them once, wherever it begins.
#[tactic(auto, using(crate::proofs::Places::passes_each_once))]
pub fn scans()
    ensures { PassesEachOnce }
{}

/// A task with a pace of N pages rests for it right before each of its pages whose number, from 0, is a multiple of N above 0.
#[tactic(auto, using(crate::proofs::Paces::rests_at_multiples))]
pub fn paces()
    ensures { RestsAtMultiples }
{}
