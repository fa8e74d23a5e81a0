//! The decision of a check.

ghost use Rattle.std.specs.Prelude.{◌≡◌, ◌≢◌, ◌≤◌, ◌↔◌};
ghost use Rattle.wbt_pause.specs.Decision.{decision_of};
ghost use Rattle.wbt_strict.specs.Decision.{strict_decision};
ghost use Rattle.wbt_calls.specs.Crossing as crossing;
ghost use Rattle.wbt_calls.specs.Ranges as spec;
ghost use Rattle.wbt_calls.specs.declared.status.TheConstants.{OK};

use wbt_calls::{Check, Decided};

/// What a check decides about a writer of a context whose device isn't strict.
#[unsafe(no_mangle)]
pub extern "C" fn wbt_decide(check: &Check, out: &mut Decided) -> u32
    ensures status { result ≡ spec.status_of check.now }
    ensures taken { result ≡ OK ↔ spec.IsTaken check.now }
    ensures decided { result ≡ OK → out.new ≡ crossing.decided_by (decision_of (crossing.reads_of check.now) (crossing.rates_of check.now.avg check.now.ratelimit) (crossing.task_of check.now.writer) check.now.moment) }
    ensures refused { result ≢ OK → out.new ≡ out.old }
    ensures at_most_200 { result ≡ OK → out.new.pause ≤ 200 }
{
    wbt_calls::decide(check, out)
}

/// What a check decides about a writer of a context whose device is strict.
#[unsafe(no_mangle)]
pub extern "C" fn wbt_strict_decide(check: &Check, out: &mut Decided) -> u32
    ensures status { result ≡ spec.strict_status_of check.now }
    ensures taken { result ≡ OK ↔ spec.IsStrictlyTaken check.now }
    ensures decided { result ≡ OK → out.new ≡ crossing.decided_by (strict_decision (crossing.reads_of check.now) (crossing.rates_of check.now.avg check.now.ratelimit) (crossing.task_of check.now.writer) check.now.moment) }
    ensures refused { result ≢ OK → out.new ≡ out.old }
    ensures at_most_200 { result ≡ OK → out.new.pause ≤ 200 }
{
    wbt_calls::strict_decide(check, out)
}
