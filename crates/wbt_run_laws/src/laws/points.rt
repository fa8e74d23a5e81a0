//! The points of the journal of a run over threads, each by itself, and all of them.

ghost use Rattle.wbt_run_laws.specs.Laws.{WorkedFoldsAreUp, WorkedCountsSumFolds, WorkedCountsStayFresh, WorkedTriplesAreOfTimer, WorkedTriplesStayNew, WorkedFractionsAreOfShares, WorkedPeriodsStayNew, WorkedEstimatesAreUp, WorkedNamesAreOfEstimates, WorkedNamesStayNew, WorkedChecksAreRight, WorkedWritesAreInOrder, WorkedFlushersAreInTurn, WorkedWaitsAreInOrder, WorkedWaitsAreOwn, WorkedNoneWaitsWhenDone, WorkedTimerFollows, WorkedTimerHasOpened, WorkedLeftIsInOrder, WorkedLeftPagesAreThere, WorkedLedgerIsEven, WorkedFoundWereDirtied, WorkedDirtiedWereCompleted, WorkedLeftIsBounded, WorkedEndingIsRight, WorkedIsLawful};

/// The folds of each counter have the versions 1 to n, each once, and each moves a batch.
pub fn folds_are_up()
    ensures { WorkedFoldsAreUp }
{}

/// Each count is the sum of the journal's folds up to its version.
pub fn counts_sum_folds()
    ensures { WorkedCountsSumFolds }
{}

/// No count is older than what its CPU had seen.
pub fn counts_stay_fresh()
    ensures { WorkedCountsStayFresh }
{}

/// Each triple that a check read is the one that the timer published for the domain as this version, the first being 0.
pub fn triples_are_of_timer()
    ensures { WorkedTriplesAreOfTimer }
{}

/// No version of a domain's triples that a CPU's checks read goes back.
pub fn triples_stay_new()
    ensures { WorkedTriplesStayNew }
{}

/// Each fraction is of a period that the domain has had, and of no more than was added.
pub fn fractions_are_of_shares()
    ensures { WorkedFractionsAreOfShares }
{}

/// No period that a CPU's checks read goes back.
pub fn periods_stay_new()
    ensures { WorkedPeriodsStayNew }
{}

/// The estimates of a context follow one another, from the first of the opening.
pub fn estimates_are_up()
    ensures { WorkedEstimatesAreUp }
{}

/// A check names an estimate that the journal has, or the first.
pub fn names_are_of_estimates()
    ensures { WorkedNamesAreOfEstimates }
{}

/// No version that a CPU's checks name goes back.
pub fn names_stay_new()
    ensures { WorkedNamesStayNew }
{}

/// Checks stand exactly where they are due, and decide as the law asks.
pub fn checks_are_right()
    ensures { WorkedChecksAreRight }
{}

/// The pages that a task wrote are the first of its pages, in order, and it did so on its CPU.
pub fn writes_are_in_order()
    ensures { WorkedWritesAreInOrder }
{}

/// Each flusher claims, hands over and completes in turn, and gives back what its disk failed to write.
pub fn flushers_are_in_turn()
    ensures { WorkedFlushersAreInTurn }
{}

/// Each flusher notices inodes of its ageing device, and takes for age the first one that waits, once it is due.
pub fn waits_are_in_order()
    ensures { WorkedWaitsAreInOrder }
{}

/// A flusher notices inodes, and takes them, in the part of its own CPU.
pub fn waits_are_own()
    ensures { WorkedWaitsAreOwn }
{}

/// Where all is done no inode waits for its age at the end of a part.
pub fn none_waits_when_done()
    ensures { WorkedNoneWaitsWhenDone }
{}

/// Each line of the timer may follow those before it.
pub fn timer_follows()
    ensures { WorkedTimerFollows }
{}

/// Each domain has its line of the opening.
pub fn timer_has_opened()
    ensures { WorkedTimerHasOpened }
{}

/// The pages that are left stand in order, each once, and are dirty or under writeback.
pub fn left_is_in_order()
    ensures { WorkedLeftIsInOrder }
{}

/// A page that is left is one that there is.
pub fn left_pages_are_there()
    ensures { WorkedLeftPagesAreThere }
{}

/// Each page was claimed as often as it was dirtied, and completed or given back as often as it was claimed, but for what is left.
pub fn ledger_is_even()
    ensures { WorkedLedgerIsEven }
{}

/// Each page that a write found dirty was dirtied by a write that is told.
pub fn found_were_dirtied()
    ensures { WorkedFoundWereDirtied }
{}

/// Each page that a write dirtied was completed, or it is left.
pub fn dirtied_were_completed()
    ensures { WorkedDirtiedWereCompleted }
{}

/// No domain has more pages left than its bound.
pub fn left_is_bounded()
    ensures { WorkedLeftIsBounded }
{}

/// The journal ends as the workers did.
pub fn ending_is_right()
    ensures { WorkedEndingIsRight }
{}

/// From the turns of all workers, the joined notes and the closed table: the journal is lawful.
pub fn worked_is_lawful()
    ensures { WorkedIsLawful }
{}
