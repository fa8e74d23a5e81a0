//! A whole journal, and how it is made of its parts.

ghost use Rattle.std.specs.Prelude.{◌≡◌, [], Ok};

use crate::entry::CpuJournal;
use crate::step::StepEntry;
use crate::timer::TimerEntry;
use std::alloc::Global;
use wbt_num::{Items, NoMemory};

/// A page that is left dirty or under writeback.
#[derive(Clone, Copy, Debug, PartialEq, Eq)]
pub struct Left {
    /// The page.
    pub page: u32,
    /// Bit 0 is dirty, bit 1 is under writeback.
    pub word: u64,
}

/// How many pages of a context of a strict device there were, and how many there may be.
#[derive(Clone, Copy, Debug, PartialEq, Eq)]
pub struct StrictLine {
    /// The context.
    pub context: u32,
    /// Its greatest exact count after any step, in pages.
    pub most: u64,
    /// Its bound, in pages.
    pub bound: u64,
}

/// How a run ended.
#[derive(Clone, Copy, Debug, PartialEq, Eq)]
pub enum Ending {
    /// All tasks have ended, and all flushers are finished.
    Done,
    /// A CPU was stopped.
    Halted,
    /// No further step could be made.
    Spent,
    /// The disk of a flusher failed eight times.
    Faulted,
}

/// The journal of a run.
#[derive(Drop)]
pub struct Journal {
    /// What the timer did, in order.
    pub timer: Items<TimerEntry>,
    /// The parts of the CPUs, by number.
    pub cpus: Items<CpuJournal>,
    /// Every step, in order; none where the run was one of threads.
    pub steps: Items<StepEntry>,
    /// The bound of each domain without its peak, in pages. Step lines use it.
    pub bases: Items<u64>,
    /// The domain of each context. Step lines use it.
    pub homes: Items<u32>,
    /// The pages that are left, in order.
    pub left: Items<Left>,
    /// A line for each context of a strict device, in order; none where the run was one of threads.
    pub strict: Items<StrictLine>,
    /// How the run ended.
    pub ending: Ending,
}

/// The journal of these parts, without steps and without lines of strict devices. It takes no memory, and never fails.
pub fn merge(
    alloc: Global,
    cpus: Vec<CpuJournal>,
    timer: Vec<TimerEntry>,
    left: Vec<Left>,
    ending: Ending,
) -> Result<Journal, NoMemory>
    ensures { result ≡ Ok (record {
      timer = timer.items;
      cpus = cpus.items;
      steps = [];
      bases = [];
      homes = [];
      left = left.items;
      strict = [];
      ending = ending;
    }) }
{
    Ok(Journal {
        timer: Items::from_vec(timer),
        cpus: Items::from_vec(cpus),
        steps: Items::from_vec(Vec::new(alloc)),
        bases: Items::from_vec(Vec::new(alloc)),
        homes: Items::from_vec(Vec::new(alloc)),
        left: Items::from_vec(left),
        strict: Items::from_vec(Vec::new(alloc)),
        ending,
    })
}
