//! A CPU's log in a turn: what is to be told is reserved before the turn's first step.

ghost use Rattle.std.specs.Prelude.{◌≡◌, ◌+◌, ◌≤◌, ◌<◌, true, OnOk, OnErr, []};
ghost use Rattle.wbt_run_laws.specs.Log.{is_plain, with_entry, with_check, with_estimate};

use std::alloc::Global;
use std::marker::Model;
use std::mem;
use wbt_journal::{CheckEntry, CpuJournal, Entry, EstEntry};
use wbt_num::{Items, NoMemory};

/// The lists of a log, which is empty as long as a pen has them.
#[derive(Drop)]
pub struct Pen {
    entries: Vec<Entry>,
    checks: Vec<CheckEntry>,
    estimates: Vec<EstEntry>,
}

impl Model for Pen {
    ghost use Rattle.std.specs.Prelude.{◌-◌, vec_len};
    ghost use Rattle.std.specs.Vec.{vec_capacity};
    ghost use Rattle.wbt_run_steps.specs.Pens.{Paper};

    ghost Value = { Paper };

    ghost view = { λ pen. record {
      log = record { entries = pen.entries.items; checks = pen.checks.items; estimates = pen.estimates.items };
      room = vec_capacity pen.entries - vec_len pen.entries;
      checks = vec_capacity pen.checks - vec_len pen.checks;
      estimates = vec_capacity pen.estimates - vec_len pen.estimates;
    } };
}

impl Pen {
    /// Takes the lists out of a log.
    pub fn open(alloc: Global, log: &mut CpuJournal) -> Pen
        ensures { result.log ≡ log.old }
    {
        Pen {
            entries: mem::replace(&mut log.entries, Items::new(alloc)).into_vec(),
            checks: mem::replace(&mut log.checks, Items::new(alloc)).into_vec(),
            estimates: mem::replace(&mut log.estimates, Items::new(alloc)).into_vec(),
        }
    }

    /// Puts them back.
    pub fn close(self, log: &mut CpuJournal)
        ensures { log.new ≡ self.log }
    {
        let Pen {
            entries,
            checks,
            estimates,
        } = self;
        log.entries = Items::from_vec(entries);
        log.checks = Items::from_vec(checks);
        log.estimates = Items::from_vec(estimates);
    }

    /// Makes room for so many entries, and for so many checks and so many estimates among them.
    pub fn reserve(
        &mut self,
        entries: usize,
        checks: usize,
        estimates: usize,
    ) -> Result<(), NoMemory>
        ensures log { self.new.log ≡ self.old.log }
        ensures room { OnOk result (entries ≤ self.new.room) }
        ensures checks { OnOk result (checks ≤ self.new.checks) }
        ensures estimates { OnOk result (estimates ≤ self.new.estimates) }
    {
        self.entries.reserve(entries)?;
        self.checks.reserve(checks)?;
        self.estimates.reserve(estimates)?;
        Ok(())
    }

    /// Tells an entry, for which there is room, and which names no check and no estimate.
    pub fn tell(&mut self, entry: Entry)
        requires room { 1 ≤ self.old.room }
        requires plain { is_plain entry ≡ true }
        ensures log { self.new.log ≡ with_entry entry self.old.log }
        ensures room { self.new.room + 1 ≡ self.old.room }
        ensures checks { self.new.checks ≡ self.old.checks }
        ensures estimates { self.new.estimates ≡ self.old.estimates }
    {
        self.entries.push_reserved(entry);
    }

    /// Tells a check, for which there is room.
    pub fn tell_check(&mut self, check: CheckEntry)
        requires room { 1 ≤ self.old.room }
        requires checks { 1 ≤ self.old.checks }
        ensures log { self.new.log ≡ with_check check self.old.log }
        ensures room { self.new.room + 1 ≡ self.old.room }
        ensures checks { self.new.checks + 1 ≡ self.old.checks }
        ensures estimates { self.new.estimates ≡ self.old.estimates }
    {
        let place = self.checks.len() as u64;
        self.checks.push_reserved(check);
        self.entries.push_reserved(Entry::Check(place));
    }

    /// Tells an estimate, for which there is room.
    pub fn tell_estimate(&mut self, estimate: EstEntry)
        requires room { 1 ≤ self.old.room }
        requires estimates { 1 ≤ self.old.estimates }
        ensures log { self.new.log ≡ with_estimate estimate self.old.log }
        ensures room { self.new.room + 1 ≡ self.old.room }
        ensures checks { self.new.checks ≡ self.old.checks }
        ensures estimates { self.new.estimates + 1 ≡ self.old.estimates }
    {
        let place = self.estimates.len() as u64;
        self.estimates.push_reserved(estimate);
        self.entries.push_reserved(Entry::Est(place));
    }
}
