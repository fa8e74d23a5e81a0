//! Laws of allowances. Each function proves what its contract says, and does nothing.

ghost use Rattle.wbt_task.specs.Laws.{CheckIsDueAgain, ChecksAreNear, DecisionsSettle, EndedTaskLeaks, EndedWritersLeak, HistoryGoesOn, OthersStay, PagesAreKept, PagesAreLeft, RoomIsKept, StaysBelow, WriteIsDue, WritesHavePages};

/// A history goes on from where its first part leads.
pub fn history_goes_on()
    ensures { HistoryGoesOn }
{}

/// An event leaves every other writer as it was.
pub fn others_stay()
    ensures { OthersStay }
{}

/// Behind a fresh write a check is due exactly where the allowance is used up, where the CPU made enough fresh writes, or
/// where no page is left.
pub fn write_is_due()
    ensures { WriteIsDue }
{}

/// Behind a check one is due exactly where the writer waits.
pub fn check_is_due_again()
    ensures { CheckIsDueAgain }
{}

/// Over any history, what the writers count, the leaks, and what checks settled grow together by one for each fresh write.
pub fn pages_are_kept()
    ensures { PagesAreKept }
{}

/// A task that ends raises its CPU's leaks by the sum over its writers of what each has counted, and nothing else that the CPU
/// counts.
pub fn ended_task_leaks()
    ensures { EndedTaskLeaks }
{}

/// So it is where the writers are told by themselves.
pub fn ended_writers_leak()
    ensures { EndedWritersLeak }
{}

/// So the counts have room for a history that isn't longer than that.
pub fn room_is_kept()
    ensures { RoomIsKept }
{}

/// A check that decides as the law of decisions says settles, and leaves pages.
pub fn decisions_settle()
    ensures { DecisionsSettle }
{}

/// The CPU's count of fresh writes stays below the number after which a check is due.
pub fn stays_below()
    ensures { StaysBelow }
{}

/// With k checks due in a history, the CPU makes fewer than k + 1 times that number of fresh writes.
pub fn checks_are_near()
    ensures { ChecksAreNear }
{}

/// A writer whose check isn't due has a page left, and none has more than cap.
pub fn pages_are_left()
    ensures { PagesAreLeft }
{}

/// So where checks stand when they are due, no writer writes a page that isn't left to it.
pub fn writes_have_pages()
    ensures { WritesHavePages }
{}
