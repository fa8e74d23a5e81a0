//! Laws of a whole run. Each function proves what its contract says, and does nothing.

ghost use Rattle.wbt_run_drain.specs.Drained.{DrainGoesOn};
ghost use Rattle.wbt_run_drain.specs.Laws.{WorkDirtiedCompleted, WorkFoundDirtied, WorkIsLawful, WorkNoneWaits};
ghost use Rattle.wbt_run_drain.specs.Cleaned.{CleanIsCleaned};

/// The journal of workers that have worked so is lawful for their trace, each page that a write found dirty was dirtied by a write that it
/// tells, and each that was dirtied was completed, or is left. Where all is done no inode waits for its age.
pub fn work_is_lawful()
    ensures lawful { WorkIsLawful }
    ensures found { WorkFoundDirtied }
    ensures completed { WorkDirtiedCompleted }
    ensures none_waits { WorkNoneWaits }
{}

/// A flusher's turn on seats that were brought together may be taken as one of its CPU.
pub fn drain_goes_on()
    ensures { DrainGoesOn }
{}

/// Of an inode that the sweep finds clean each dirtying of each page that no CPU holds was completed or absorbed.
pub fn clean_is_cleaned()
    ensures { CleanIsCleaned }
{}
