//! A journal while its rows are read.

ghost use Rattle.std.specs.Prelude.{◌≡◌};
ghost use Rattle.wbt_journal_reader.specs.Rebuilding as spec;

use std::alloc::Global;
use wbt_counter::Count;
use wbt_journal::{CpuJournal, DomainLine, Ending, Journal};
use wbt_num::Items;

/// Which line came last, and so which may come next.
#[derive(Clone, Copy)]
pub enum Place {
    /// No line came.
    Start,
    /// One of the timer's part.
    Timer,
    /// One of a CPU's part, and it ends an entry or begins the part.
    Part,
    /// A check read the global domain, and maybe a cgroup.
    Read {
        global: DomainLine,
        cgroup: Option<DomainLine>,
    },
    /// It read the count of the context besides.
    Counted {
        global: DomainLine,
        cgroup: Option<DomainLine>,
        context: u32,
        count: Count,
    },
    /// A page that is left, and one after it has at least this number.
    Left {
        next: u64,
    },
    /// How many pages are left.
    Census,
    /// How many writes were fresh, and how many pages were done.
    Totals,
    /// How the run ended.
    End,
}

/// The journal so far.
#[derive(Drop)]
pub struct Builder {
    /// What its lines told. Its ending is set with the last line.
    pub journal: Journal,
    /// The part of the CPU whose lines are read, which isn't in the journal yet.
    pub part: CpuJournal,
    pub place: Place,
}

/// A part without entries.
pub fn empty_part(alloc: Global) -> CpuJournal
    ensures { result ≡ spec.empty_part }
{
    CpuJournal {
        entries: Items::new(alloc),
        checks: Items::new(alloc),
        estimates: Items::new(alloc),
    }
}

impl Builder {
    /// Before the first line.
    pub fn new(alloc: Global) -> Builder
        ensures { result ≡ spec.start }
    {
        Builder {
            journal: Journal {
                timer: Items::new(alloc),
                cpus: Items::new(alloc),
                steps: Items::new(alloc),
                bases: Items::new(alloc),
                homes: Items::new(alloc),
                left: Items::new(alloc),
                strict: Items::new(alloc),
                ending: Ending::Done,
            },
            part: empty_part(alloc),
            place: Place::Start,
        }
    }
}
