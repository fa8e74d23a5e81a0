//! The journal of a run: what its CPUs and its timer did, what is left, how it ended, and the one text that tells it.
//!
//! The layers above write `CpuJournal`s and timer entries, make a `Journal` of them with `merge`, and write its text with
//! `print`. `wbt_journal_reader` reads such a text again. `Field` and `Word` are what a line is made of.
//!
//! ```
//! use wbt_io::MemSink;
//! use wbt_journal::{Ending, Limits, TimerEntry, merge, print};
//!
//! // The journal of a run in which the timer published limits, and nothing else was done.
//! let limits = Limits { thresh: 19995, bg: 9985, hard: 19995 };
//! let timer = vec![in alloc; TimerEntry::Limits { domain: 0, now: 1, limits }]?;
//! let journal = merge(alloc, Vec::new(alloc), timer, Vec::new(alloc), Ending::Done)?;
//! let mut sink = MemSink::make(alloc, 4096, 4096, Vec::new(alloc))?;
//! assert_eq!(rt; print(alloc, &journal, &mut sink), Ok(()));
//! let text = b"timer\nlimits 0 1 19995 9985 19995\ncensus 0 0\ntotals 0 0\nend done\n";
//! assert_eq!(rt; sink.bytes(), text.as_slice());
//! ```
#![tactic(auto)]

mod columns;
pub mod digits;
mod entry;
mod field;
mod head;
mod journal;
mod kept;
pub mod laws;
mod line;
mod lines;
mod number;
mod out;
mod ranges;
mod read;
mod room;
mod step;
mod steps;
mod text;
mod timer;
mod totals;
mod word;
mod writers;

pub use entry::{CheckEntry, CpuJournal, DomainLine, Entry, EstEntry};
pub use field::Field;
pub use journal::{Ending, Journal, Left, StrictLine, merge};
pub use ranges::has_forms;
pub use step::StepEntry;
pub use text::{PrintEnd, print};
pub use timer::TimerEntry;
pub use totals::{dirty_of, done_of, fresh_of, writeback_of};
pub use wbt_counter::{Count, Counter, Fold};
pub use wbt_estimate::Estimate;
pub use wbt_flex::Fraction;
pub use wbt_grant::StepKind;
pub use wbt_num::Limits;
pub use wbt_pause::{Decision, Kind, Task};
pub use word::Word;
pub use writers::writers_in_order;
