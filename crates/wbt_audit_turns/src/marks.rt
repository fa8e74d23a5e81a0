//! What marks change. The function proves what its contract says, and does nothing.

ghost use Rattle.wbt_audit_turns.specs.Marks.{MarksChangeNoOther};

/// A journal with the marks that its lines call for has the faults of the journal without them, but where it is judged what checks decide
/// and when they are due.
pub fn marks_change_no_other()
    ensures { MarksChangeNoOther }
{}
