//! A walk through the CPUs' parts of a journal, entry by entry, each with its line.

ghost use Rattle.std.specs.Prelude.{◌≡◌, ◌+◌, ◌++◌, ◌∷◌, [], None, OnOk, IfOk};
ghost use Rattle.wbt_journal.specs.Items.{begins, items_of};
ghost use Rattle.wbt_journal.specs.Told.{told_entry};
ghost use Rattle.wbt_journal.specs.Verdict.{first_cpu_line};
ghost use Rattle.wbt_audit_walk.specs.Acts.{told_by};
ghost use Rattle.wbt_audit_walk.specs.Walks.{rest, left_of_part, left_parts, at_line, Begins, Went};

use crate::act::Act;
use wbt_journal::{CheckEntry, CpuJournal, Entry, EstEntry, Journal};
use wbt_num::NoMemory;

/// An entry of a CPU's part, or where a part begins.
#[derive(Clone, Copy, Debug)]
pub struct Step<'a> {
    /// Its first line, counted from the journal's first, which is 1.
    pub line: u64,
    /// The number of the part's CPU.
    pub cpu: usize,
    /// What the entry tells; none where the part begins.
    pub act: Option<Act<'a>>,
}

impl Step<'_> {
    /// The line that stands so many lines after its first one. A line past 2^64, for which there is no memory anyway, is refused as
    /// memory is.
    pub fn line_at(&self, after: u64) -> Result<u64, NoMemory>
        ensures { IfOk result (λ line. line ≡ self.now.line + after) }
    {
        self.line.checked_add(after).ok_or(NoMemory)
    }
}

/// What a walk still has before it.
#[derive(Clone, Copy)]
pub struct Walk<'a> {
    /// The line of the next step.
    pub line: u64,
    /// The CPU whose part was begun last.
    pub cpu: usize,
    /// The number of the next part.
    pub next: usize,
    /// The entries that are left of the part that was begun.
    pub entries: &'a [Entry],
    /// The checks and estimates that they name.
    pub checks: &'a [CheckEntry],
    pub estimates: &'a [EstEntry],
    /// The parts behind it.
    pub parts: &'a [CpuJournal],
}

impl<'a> Walk<'a> {
    /// A walk that begins with the part of the first CPU. A journal with 2^64 lines or more, for which there is no memory anyway,
    /// is refused as memory is.
    pub fn start(journal: &'a Journal) -> Result<Walk<'a>, NoMemory>
        ensures items { IfOk result (λ walk. rest walk ≡ items_of journal.now) }
        ensures line { IfOk result (λ walk. walk.line ≡ first_cpu_line journal.now) }
    {
        let lines = journal.timer.as_slice().len() as u64;
        let line = lines.checked_add(2).ok_or(NoMemory)?;
        Ok(Walk {
            line,
            cpu: 0,
            next: 0,
            entries: &[],
            checks: &[],
            estimates: &[],
            parts: journal.cpus.as_slice(),
        })
    }

    /// The next step, and none at the end.
    pub fn next(&mut self) -> Result<Option<Step<'a>>, NoMemory>
        ensures { IfOk result (Went self.old self.new) }
    {
        match self.next_act() {
            Some(act) => {
                let step = self.step(Some(act), act.lines())?;
                Ok(Some(step))
            }
            None => self.next_part(),
        }
    }

    // The next act of the part that was begun.
    fn next_act(&mut self) -> Option<Act<'a>>
        ensures told { left_of_part self.old ≡ told_by result ++ left_of_part self.new }
        ensures none { result ≡ None → left_of_part self.new ≡ [] }
        ensures other { self.new ≡ record self.old { entries = self.new.entries } }
    {
        match first_act(self.entries, self.checks, self.estimates) {
            Some((act, more)) => {
                self.entries = more;
                Some(act)
            }
            None => {
                self.entries = &[];
                None
            }
        }
    }

    // The next part, where none is left of the one that was begun.
    fn next_part(&mut self) -> Result<Option<Step<'a>>, NoMemory>
        requires { left_of_part self.old ≡ [] }
        ensures { IfOk result (Went self.old self.new) }
    {
        match self.parts.split_first() {
            None => Ok(None),
            Some((part, more)) => {
                self.begin(part, more)?;
                let step = self.step(None, 1)?;
                Ok(Some(step))
            }
        }
    }

    fn begin(&mut self, part: &'a CpuJournal, more: &'a [CpuJournal]) -> Result<(), NoMemory>
        requires { self.old.parts.now ≡ part.now ∷ more.now }
        ensures { OnOk result ((left_parts self.old ≡ begins self.new.cpu ∷ rest self.new) × (self.new.line ≡ self.old.line)) }
    {
        self.cpu = self.next;
        self.next = self.next.checked_add(1).ok_or(NoMemory)?;
        self.entries = part.entries.as_slice();
        self.checks = part.checks.as_slice();
        self.estimates = part.estimates.as_slice();
        self.parts = more;
        Ok(())
    }

    fn step(&mut self, act: Option<Act<'a>>, lines: u64) -> Result<Step<'a>, NoMemory>
        ensures step { IfOk result (λ step. step ≡ record { line = self.old.line; cpu = self.old.cpu; act = act.entry }) }
        ensures goes_on { IfOk result (λ _step. self.new ≡ at_line (self.old.line + lines) self.old) }
    {
        let line = self.line;
        self.line = line.checked_add(lines).ok_or(NoMemory)?;
        Ok(Step {
            line,
            cpu: self.cpu,
            act,
        })
    }
}

// The first act of the entries, and the entries behind it; none where they tell nothing.
fn first_act<'a>(
    entries: &'a [Entry],
    checks: &'a [CheckEntry],
    estimates: &'a [EstEntry],
) -> Option<(Act<'a>, &'a [Entry])>
    ensures { Begins (told_entry checks.now estimates.now) entries.now result }
{
    for (place, entry) in entries.iter().enumerate() {
        if let Some(act) = Act::of(entry, checks, estimates) {
            return Some((act, &entries[place + 1..]));
        }
    }
    None
}
