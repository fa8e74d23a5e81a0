//! How entries change what is counted of contexts.

ghost use Rattle.std.specs.Prelude.{ℕ, ◌≡◌, ◌+◌, ◌*◌, ◌<◌, ◌≤◌, [], ◌∷◌, length, true, All};
ghost use Rattle.wbt_journal.specs.declared.entry.Entry.TheVariants as entry;
ghost use Rattle.wbt_trace.specs.Lawful.{AreFirsts};
ghost use Rattle.wbt_forecast_rows.specs.Small.{IsSmallContext};
ghost use Rattle.wbt_forecast_rows.specs.Tally as spec;

use crate::pages::context_of_page;
use crate::tally::{ContextTally, MOST_TOLD};
use wbt_journal::Entry;
use wbt_trace::Trace;

/// Counts these entries in with each context.
pub fn count_entries(tallies: &mut [ContextTally], trace: &Trace, entries: &[Entry])
    requires firsts { AreFirsts 0 trace.now.inodes }
    requires small { All (IsSmallContext MOST_TOLD) tallies.old }
    requires few { length entries.now ≤ MOST_TOLD }
    ensures value { tallies.new ≡ spec.by_number (spec.context_after trace.now entries.now) 0 tallies.old }
    ensures small { (most : ℕ) → All (IsSmallContext most) tallies.old → All (IsSmallContext (most + length entries.now)) tallies.new }
{
    for entry in entries {
        count_entry(tallies, trace, entry);
    }
}

// Counts an entry in with the context of its page.
fn count_entry(tallies: &mut [ContextTally], trace: &Trace, entry: &Entry)
    requires firsts { AreFirsts 0 trace.now.inodes }
    requires small { All (IsSmallContext (2 * MOST_TOLD)) tallies.old }
    ensures { tallies.new ≡ spec.by_number (spec.context_after trace.now (entry.entry.now ∷ [])) 0 tallies.old }
{
    match *entry {
        Entry::Write { page, fresh, .. } => count_page(tallies, trace, page, fresh),
        Entry::Done { page, .. } => count_written(tallies, trace, page),
        _ => {}
    }
}

// Counts a write in, where it is fresh.
fn count_page(tallies: &mut [ContextTally], trace: &Trace, page: u32, fresh: bool)
    requires firsts { AreFirsts 0 trace.now.inodes }
    requires small { All (IsSmallContext (2 * MOST_TOLD)) tallies.old }
    ensures { (task : ℕ) → tallies.new ≡ spec.by_number (spec.context_after trace.now (entry.Write task page fresh ∷ [])) 0 tallies.old }
{
    if fresh {
        count_dirtied(tallies, trace, page);
    }
}

fn count_dirtied(tallies: &mut [ContextTally], trace: &Trace, page: u32)
    requires firsts { AreFirsts 0 trace.now.inodes }
    requires small { All (IsSmallContext (2 * MOST_TOLD)) tallies.old }
    ensures { (task : ℕ) → tallies.new ≡ spec.by_number (spec.context_after trace.now (entry.Write task page true ∷ [])) 0 tallies.old }
{
    if let Some(context) = context_of_page(trace, page) {
        let place = context as usize;
        if place < tallies.len() {
            tallies[place].dirtied += 1;
        }
    }
}

fn count_written(tallies: &mut [ContextTally], trace: &Trace, page: u32)
    requires firsts { AreFirsts 0 trace.now.inodes }
    requires small { All (IsSmallContext (2 * MOST_TOLD)) tallies.old }
    ensures { (flusher : ℕ) → tallies.new ≡ spec.by_number (spec.context_after trace.now (entry.Done flusher page ∷ [])) 0 tallies.old }
{
    if let Some(context) = context_of_page(trace, page) {
        let place = context as usize;
        if place < tallies.len() {
            tallies[place].written += 1;
        }
    }
}
