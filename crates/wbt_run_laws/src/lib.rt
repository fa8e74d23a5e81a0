//! What turns tell: between the records that words show and the logs that a journal is made of. No value is made here.
//!
//! A turn of a CPU's writers, of a flusher or of the timer changes a record and adds to a log. One relation says of both how they
//! grew, whatever the kinds of entry, and holds of turns one after another; and beside it stand walks: an object shows where
//! its tasks, its checks and its flushers are before a turn and after it. So, when all workers were joined and the table is
//! closed, the journal of their logs is lawful, point by point.
//!
//! ```text
//! a step      ->  Grew by its entry, or Gathered by none
//! a turn      ->  WriterTurn, FlusherTurn, TimerSince; with notes NotedWriterTurn, NotedFlusherTurn
//! all turns   ->  Since, NotedSince
//! a whole run ->  Worked, and from it each point of a lawful journal
//! ```
//!
//! The layers above state a turn's contract by these, and cite the laws.
//!
//! ```text
//! ghost use Rattle.wbt_run_laws.specs.Laws.{WorkedIsLawful};
//!
//! // From the turns of all workers, the joined notes and the closed table: the journal is lawful. The call does nothing: its contract is
//! // the law.
//! fn cited()
//!     ensures { WorkedIsLawful }
//! {
//!     wbt_run_laws::laws::points::worked_is_lawful();
//! }
//! ```
#![tactic(auto)]

pub mod laws;
