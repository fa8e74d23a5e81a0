//! How entries and checks change what is counted of tasks.

ghost use Rattle.std.specs.Prelude.{ℕ, Bool, ◌≡◌, ◌+◌, ◌*◌, ◌≤◌, max, nat_lt, if◌then◌else◌, [], ◌∷◌, length, All};
ghost use Rattle.wbt_journal.specs.declared.entry.Entry.TheVariants as entry;
ghost use Rattle.wbt_forecast_rows.specs.Small.{IsSmallTask};
ghost use Rattle.wbt_forecast_rows.specs.Tally as spec;

use crate::tally::{MOST_TOLD, TaskTally};
use wbt_journal::{CheckEntry, Entry};

/// Counts these entries in with each task.
pub fn count_entries(tallies: &mut [TaskTally], entries: &[Entry])
    requires small { All (IsSmallTask MOST_TOLD) tallies.old }
    requires few { length entries.now ≤ MOST_TOLD }
    ensures value { tallies.new ≡ spec.by_number (spec.task_after_entries entries.now) 0 tallies.old }
    ensures small { (most : ℕ) → All (IsSmallTask most) tallies.old → All (IsSmallTask (most + length entries.now)) tallies.new }
{
    for entry in entries {
        count_entry(tallies, entry);
    }
}

/// Counts these checks in with each task.
pub fn count_checks(tallies: &mut [TaskTally], checks: &[CheckEntry])
    requires small { All (IsSmallTask MOST_TOLD) tallies.old }
    requires few { length checks.now ≤ MOST_TOLD }
    ensures value { tallies.new ≡ spec.by_number (spec.task_after_checks checks.now) 0 tallies.old }
    ensures small { (most : ℕ) → All (IsSmallTask most) tallies.old → All (IsSmallTask (most + length checks.now)) tallies.new }
{
    for check in checks {
        count_check(tallies, check);
    }
}

// Counts an entry in with the task that it tells a write of.
fn count_entry(tallies: &mut [TaskTally], entry: &Entry)
    requires { All (IsSmallTask (2 * MOST_TOLD)) tallies.old }
    ensures { tallies.new ≡ spec.by_number (spec.task_after_entries (entry.entry.now ∷ [])) 0 tallies.old }
{
    match *entry {
        Entry::Write { task, .. } => count_write(tallies, task),
        _ => {}
    }
}

fn count_write(tallies: &mut [TaskTally], task: u32)
    requires { All (IsSmallTask (2 * MOST_TOLD)) tallies.old }
    ensures { (page : ℕ) (fresh : Bool) → tallies.new ≡ spec.by_number (spec.task_after_entries (entry.Write task page fresh ∷ [])) 0 tallies.old }
{
    let place = task as usize;
    if place < tallies.len() {
        tallies[place].pages += 1;
    }
}

// Counts a check in with its task.
fn count_check(tallies: &mut [TaskTally], check: &CheckEntry)
    requires { All (IsSmallTask (2 * MOST_TOLD)) tallies.old }
    ensures value { tallies.new ≡ spec.by_number (spec.task_after_checks (check.entry.now ∷ [])) 0 tallies.old }
    ensures small { (most : ℕ) → All (IsSmallTask most) tallies.old → All (IsSmallTask (most + 1)) tallies.new }
{
    let place = check.task as usize;
    if place < tallies.len() {
        tallies[place] = tallies[place].checked(check.decision.pause);
    }
}

impl TaskTally {
    // The tally after a check with a pause of so many ticks.
    fn checked(self, pause: u64) -> TaskTally
        requires { IsSmallTask (2 * MOST_TOLD) self }
        ensures value { result ≡ record self {
          checks = self.checks + 1;
          pauses = self.pauses + (if nat_lt 0 pause then 1 else 0);
          ticks = self.ticks + pause;
          longest = max self.longest pause;
        } }
        ensures small { (most : ℕ) → IsSmallTask most self → IsSmallTask (most + 1) result }
    {
        TaskTally {
            pages: self.pages,
            checks: self.checks + 1,
            pauses: self.pauses + u64::from(pause > 0),
            ticks: self.ticks + u128::from(pause),
            longest: self.longest.max(pause),
        }
    }
}
