//! A flusher as its entries tell of it.

ghost use Rattle.std.specs.Prelude.{◌≡◌, true, IfOk};
ghost use Rattle.wbt_journal.specs.Flights.{new_flusher, scans, hands, is_landing, is_giving_back, taken, flown, landed, given_back, faulted};
ghost use Rattle.wbt_audit_walk.specs.Acts.{told_of};
ghost use Rattle.wbt_audit_turns.specs.Flown.{may_come, moved_by, IsBusy, is_leaving, left_batch};

use std::alloc::Global;
use std::marker::Model;
use wbt_audit_walk::act::Act;
use wbt_num::NoMemory;
use wbt_rules::MOST_FAULTS;

/// What a flusher does with the pages that it claimed.
#[derive(Clone, Copy, Debug, PartialEq, Eq)]
pub enum Phase {
    /// It claims more.
    Scanning,
    /// It completes those of its batch.
    Flying,
    /// It gives those of its batch back.
    Returning,
    /// Its disk failed as often as it may.
    Failed,
}

/// A flusher, which claims pages, hands them to its disk as a batch, and completes that batch in order. A batch that its disk fails to
/// write it gives back in order; after as many such batches as it may have it does nothing.
#[derive(Drop)]
pub struct Flusher {
    phase: Phase,
    // The pages that it claimed, and how many of them are completed or given back.
    pages: Vec<u32>,
    done: usize,
    // How many more batches its disk may fail to write.
    chances: u32,
}

impl Model for Flusher {
    ghost use Rattle.std.specs.Prelude.{drop};
    ghost use Rattle.wbt_journal.specs.Flights.{ToldFlusher};
    ghost use Rattle.wbt_audit_turns.specs.Flown.{told_flusher, IsFlusher};

    ghost Value = { ToldFlusher };

    ghost view = { λ f. told_flusher f.phase (drop f.done f.pages.items) f.chances };

    ghost invariant = { λ f. IsFlusher f.phase f.pages.items f.done f.chances };
}

impl Flusher {
    /// A flusher that has done nothing. It takes no memory until it claims a page.
    pub fn new(alloc: Global) -> Flusher
        ensures { result ≡ new_flusher }
    {
        Flusher {
            phase: Phase::Scanning,
            pages: Vec::new(alloc),
            done: 0,
            chances: MOST_FAULTS,
        }
    }

    /// It has done nothing.
    pub fn begin(&mut self)
        ensures { self.new ≡ new_flusher }
    {
        self.phase = Phase::Scanning;
        self.pages.clear();
        self.done = 0;
        self.chances = MOST_FAULTS;
    }

    /// It does what the act tells of it. Answers whether that may come; if it may not, the flusher is of no further use.
    pub fn follow(&mut self, act: &Act) -> Result<bool, NoMemory>
        ensures may { IfOk result (λ may. may ≡ may_come (told_of act.now) self.old) }
        ensures moved { IfOk result (λ may. may ≡ true → self.new ≡ moved_by (told_of act.now) self.old) }
    {
        match *act {
            Act::Claim { page, .. } => self.take(page),
            Act::Batch { pages, .. } => Ok(self.fly(pages)),
            Act::Done { page, .. } => Ok(self.land(page)),
            Act::Fault { pages, .. } => Ok(self.fail(pages)),
            Act::Back { page, .. } => Ok(self.give_back(page)),
            _ => Ok(true),
        }
    }

    // It claims a page. As the moves below it answers whether this may come.
    fn take(&mut self, page: u32) -> Result<bool, NoMemory>
        ensures may { IfOk result (λ may. may ≡ scans self.old.phase) }
        ensures moved { IfOk result (λ may. may ≡ true → self.new ≡ record self.old { phase = taken page self.old.phase }) }
    {
        match self.phase {
            Phase::Scanning => {
                self.pages.push(page)?;
                Ok(true)
            }
            _ => Ok(false),
        }
    }

    // It hands so many pages to its disk.
    fn fly(&mut self, count: u32) -> bool
        ensures may { result ≡ hands count self.old.phase }
        ensures moved { result ≡ true → self.new ≡ record self.old { phase = flown self.old.phase } }
    {
        if !self.holds(count) {
            return false;
        }
        self.phase = Phase::Flying;
        true
    }

    // Its disk fails to write so many pages.
    fn fail(&mut self, count: u32) -> bool
        ensures may { result ≡ hands count self.old.phase }
        ensures moved { result ≡ true → self.new ≡ faulted self.old.faults self.old.phase }
    {
        if !self.holds(count) {
            return false;
        }
        self.chances -= 1;
        if self.chances == 0 {
            self.phase = Phase::Failed;
        } else {
            self.phase = Phase::Returning;
        }
        true
    }

    // Whether it claims pages, has so many, and has some.
    fn holds(&self, count: u32) -> bool
        ensures { result ≡ hands count self.now.phase }
    {
        match self.phase {
            Phase::Scanning => count > 0 && count as usize == self.pages.len(),
            _ => false,
        }
    }

    // It completes a page.
    fn land(&mut self, page: u32) -> bool
        ensures may { result ≡ is_landing page self.old.phase }
        ensures moved { result ≡ true → self.new ≡ record self.old { phase = landed self.old.phase } }
    {
        match self.phase {
            Phase::Flying => self.leave(page),
            _ => false,
        }
    }

    // It gives a page back.
    fn give_back(&mut self, page: u32) -> bool
        ensures may { result ≡ is_giving_back page self.old.phase }
        ensures moved { result ≡ true → self.new ≡ record self.old { phase = given_back self.old.phase } }
    {
        match self.phase {
            Phase::Returning => self.leave(page),
            _ => false,
        }
    }

    // A page leaves the batch, if it is the next one.
    fn leave(&mut self, page: u32) -> bool
        requires { IsBusy self.old.phase }
        ensures may { result ≡ is_leaving page self.old.phase }
        ensures moved { result ≡ true → self.new ≡ record self.old { phase = left_batch self.old.phase } }
    {
        match self.pages.as_slice().get(self.done) {
            None => false,
            Some(next) => {
                if *next != page {
                    return false;
                }
                if self.done + 1 == self.pages.len() {
                    self.phase = Phase::Scanning;
                    self.pages.clear();
                    self.done = 0;
                    return true;
                }
                self.done += 1;
                true
            }
        }
    }
}
