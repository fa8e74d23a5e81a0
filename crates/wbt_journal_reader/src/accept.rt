//! Taking a row after the rows before it.

ghost use Rattle.std.specs.Prelude.{◌≡◌, Some, OnOk};
ghost use Rattle.wbt_journal_reader.specs.Rebuilding as spec;
ghost use Rattle.wbt_journal_reader.specs.Rebuilding.{Gives};

use crate::builder::{Builder, Place, empty_part};
use crate::row::{Decided, Row};
use std::alloc::{AllocError, AllocFailed, Global};
use std::mem;
use wbt_counter::Count;
use wbt_journal::{
    CheckEntry, DomainLine, Ending, Entry, EstEntry, Left, TimerEntry, dirty_of, done_of, fresh_of,
    writeback_of,
};

/// Why a row is not taken.
#[derive(Clone, Copy)]
pub enum AcceptError {
    /// It may not stand there.
    Refused,
    NoMemory,
}

impl<T: Drop> From<AllocFailed<T>> for AcceptError {
    ghost use Rattle.wbt_journal_reader.specs.declared.accept.AcceptError.TheVariants.{NoMemory};

    ghost from_gives = { λ _ error. error ≡ NoMemory };

    fn from(_error: AllocFailed<T>) -> AcceptError {
        AcceptError::NoMemory
    }
}

impl From<AllocError> for AcceptError {
    ghost use Rattle.wbt_journal_reader.specs.declared.accept.AcceptError.TheVariants.{NoMemory};

    ghost from_gives = { λ _ error. error ≡ NoMemory };

    fn from(_error: AllocError) -> AcceptError {
        AcceptError::NoMemory
    }
}

/// Whether a CPU's part may begin.
fn begins_part(place: Place) -> bool
    ensures { result ≡ spec.begins_part place }
{
    match place {
        Place::Timer => true,
        Place::Part => true,
        _ => false,
    }
}

/// Where a page that is left may come, or the census, the least number that such a page may have.
fn least_left(place: Place) -> Option<u64>
    ensures { result ≡ spec.least_left place }
{
    match place {
        Place::Timer => Some(0),
        Place::Part => Some(0),
        Place::Left { next } => Some(next),
        _ => None,
    }
}

impl Builder {
    /// Takes the next row, or refuses it.
    pub fn accept(&mut self, alloc: Global, row: Row) -> Result<(), AcceptError>
        ensures { Gives result self.new (spec.accept row self.old) }
    {
        match row {
            Row::Timer => self.timer(),
            Row::Timed(entry) => self.timed(entry),
            Row::Cpu(cpu) => self.cpu(alloc, cpu),
            Row::Entry(entry) => self.entry(entry),
            Row::Estimate(est) => self.estimate(est),
            Row::Read(read) => self.read(read),
            Row::Count { context, count } => self.count(context, count),
            Row::Check(decided) => self.check(decided),
            Row::Left(left) => self.left(alloc, left),
            Row::Census { dirty, writeback } => self.census(alloc, dirty, writeback),
            Row::Totals { fresh, done } => self.totals(fresh, done),
            Row::End(ending) => self.end(ending),
        }
    }

    fn timer(&mut self) -> Result<(), AcceptError>
        ensures { Gives result self.new (spec.take_timer self.old.place self.old) }
    {
        let Place::Start = self.place else {
            return Err(AcceptError::Refused);
        };
        self.place = Place::Timer;
        Ok(())
    }

    fn timed(&mut self, entry: TimerEntry) -> Result<(), AcceptError>
        ensures { Gives result self.new (spec.take_timed entry self.old.place self.old) }
    {
        let Place::Timer = self.place else {
            return Err(AcceptError::Refused);
        };
        self.journal.timer.push(entry)?;
        Ok(())
    }

    // Ends the part whose rows were read, if one was begun.
    fn close(&mut self, alloc: Global) -> Result<(), AllocError>
        ensures { OnOk result (self.new ≡ spec.close self.old) }
    {
        if let Place::Part = self.place {
            let part = mem::replace(&mut self.part, empty_part(alloc));
            self.journal.cpus.push(part)?;
        }
        Ok(())
    }

    fn cpu(&mut self, alloc: Global, cpu: u64) -> Result<(), AcceptError>
        ensures { Gives result self.new (spec.take_cpu cpu self.old) }
    {
        if !begins_part(self.place) {
            return Err(AcceptError::Refused);
        }
        self.close(alloc)?;
        if cpu != self.journal.cpus.as_slice().len() as u64 {
            return Err(AcceptError::Refused);
        }
        self.place = Place::Part;
        Ok(())
    }

    fn entry(&mut self, entry: Entry) -> Result<(), AcceptError>
        ensures { Gives result self.new (spec.take_entry entry self.old.place self.old) }
    {
        let Place::Part = self.place else {
            return Err(AcceptError::Refused);
        };
        self.part.entries.push(entry)?;
        Ok(())
    }

    fn estimate(&mut self, est: EstEntry) -> Result<(), AcceptError>
        ensures { Gives result self.new (spec.take_estimate est self.old.place self.old) }
    {
        let Place::Part = self.place else {
            return Err(AcceptError::Refused);
        };
        let place = self.part.estimates.as_slice().len() as u64;
        self.part.entries.push(Entry::Est(place))?;
        self.part.estimates.push(est)?;
        Ok(())
    }

    fn read(&mut self, read: DomainLine) -> Result<(), AcceptError>
        ensures { Gives result self.new (spec.take_read read self.old.place self.old) }
    {
        match self.place {
            Place::Part => {
                self.place = Place::Read {
                    global: read,
                    cgroup: None,
                };
                Ok(())
            }
            Place::Read {
                global,
                cgroup: None,
            } => {
                self.place = Place::Read {
                    global,
                    cgroup: Some(read),
                };
                Ok(())
            }
            _ => Err(AcceptError::Refused),
        }
    }

    fn count(&mut self, context: u32, count: Count) -> Result<(), AcceptError>
        ensures { Gives result self.new (spec.take_count context count self.old.place self.old) }
    {
        let Place::Read { global, cgroup } = self.place else {
            return Err(AcceptError::Refused);
        };
        self.place = Place::Counted {
            global,
            cgroup,
            context,
            count,
        };
        Ok(())
    }

    fn check(&mut self, decided: Decided) -> Result<(), AcceptError>
        ensures { Gives result self.new (spec.take_check decided self.old.place self.old) }
    {
        let Place::Counted {
            global,
            cgroup,
            context,
            count,
        } = self.place
        else {
            return Err(AcceptError::Refused);
        };
        if decided.context != context {
            return Err(AcceptError::Refused);
        }
        let place = self.part.checks.as_slice().len() as u64;
        self.part.entries.push(Entry::Check(place))?;
        self.part.checks.push(CheckEntry {
            task: decided.task,
            context,
            now: decided.now,
            global,
            cgroup,
            count,
            estimate: decided.estimate,
            decision: decided.decision,
        })?;
        self.place = Place::Part;
        Ok(())
    }

    fn left(&mut self, alloc: Global, left: Left) -> Result<(), AcceptError>
        ensures { Gives result self.new (spec.take_left left self.old) }
    {
        match least_left(self.place) {
            None => Err(AcceptError::Refused),
            Some(least) => self.left_from(alloc, least, left),
        }
    }

    fn left_from(&mut self, alloc: Global, least: u64, left: Left) -> Result<(), AcceptError>
        ensures { Gives result self.new (spec.take_left_from (Some least) left self.old) }
    {
        let page = u64::from(left.page);
        if page < least {
            return Err(AcceptError::Refused);
        }
        self.close(alloc)?;
        self.journal.left.push(left)?;
        self.place = Place::Left { next: page + 1 };
        Ok(())
    }

    fn census(&mut self, alloc: Global, dirty: u64, writeback: u64) -> Result<(), AcceptError>
        ensures { Gives result self.new (spec.take_census dirty writeback self.old) }
    {
        if least_left(self.place).is_none() {
            return Err(AcceptError::Refused);
        }
        if dirty != dirty_of(self.journal.left.as_slice()) as u64 {
            return Err(AcceptError::Refused);
        }
        if writeback != writeback_of(self.journal.left.as_slice()) as u64 {
            return Err(AcceptError::Refused);
        }
        self.close(alloc)?;
        self.place = Place::Census;
        Ok(())
    }

    fn totals(&mut self, fresh: u64, done: u64) -> Result<(), AcceptError>
        ensures { Gives result self.new (spec.take_totals fresh done self.old.place self.old) }
    {
        let Place::Census = self.place else {
            return Err(AcceptError::Refused);
        };
        if u128::from(fresh) != fresh_of(self.journal.cpus.as_slice()) {
            return Err(AcceptError::Refused);
        }
        if u128::from(done) != done_of(self.journal.cpus.as_slice()) {
            return Err(AcceptError::Refused);
        }
        self.place = Place::Totals;
        Ok(())
    }

    fn end(&mut self, ending: Ending) -> Result<(), AcceptError>
        ensures { Gives result self.new (spec.take_end ending self.old.place self.old) }
    {
        let Place::Totals = self.place else {
            return Err(AcceptError::Refused);
        };
        self.journal.ending = ending;
        self.place = Place::End;
        Ok(())
    }
}
