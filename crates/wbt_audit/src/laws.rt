//! Laws of audits. Each function proves what its contract says, and does nothing.

ghost use Rattle.wbt_audit.specs.Righted.{LawfulVerdictsAreRight, BrokenVerdictsAreRight};

use wbt_journal::laws::{faultless_is_lawful, lawful_is_faultless};

/// A journal that the audit calls lawful is lawful for the trace, with each mark that its lines call for.
pub fn lawful_verdicts_are_right()
    ensures { LawfulVerdictsAreRight }
{
    faultless_is_lawful();
}

/// One that it calls broken isn't.
pub fn broken_verdicts_are_right()
    ensures { BrokenVerdictsAreRight }
{
    lawful_is_faultless();
}
