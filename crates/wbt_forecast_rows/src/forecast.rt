//! A whole forecast.

ghost use Rattle.std.specs.Prelude.{◌≡◌, ◌≤◌, length};
ghost use Rattle.wbt_forecast_rows.specs.Small.{AreSmallTotals};
ghost use Rattle.wbt_forecast_rows.specs.Tally.{totals_after};

use crate::rows::IntervalRow;
use crate::tally::MOST_TOLD;
use wbt_journal::{Ending, Entry};
use wbt_num::Items;

/// How many writes of a run were fresh, and how many pages it completed.
#[derive(Clone, Copy, Debug, PartialEq, Eq)]
pub struct Totals {
    /// Writes that found their page clean.
    pub dirtied: u64,
    /// Pages whose writeback ended.
    pub cleaned: u64,
}

/// A forecast of a run.
#[derive(Drop)]
pub struct Forecast {
    /// The ticks of an interval, at least 1.
    pub every: u64,
    /// The rows of those intervals in which a step was made, in order.
    pub rows: Items<IntervalRow>,
    /// The sums of the whole run.
    pub totals: Totals,
    /// How the run ended.
    pub ending: Ending,
}

impl Totals {
    /// Before the first step of a run.
    pub fn none() -> Totals
        ensures { result ≡ record { dirtied = 0; cleaned = 0 } }
    {
        Totals {
            dirtied: 0,
            cleaned: 0,
        }
    }

    /// Counts these entries of a CPU in.
    pub fn count_entries(&mut self, entries: &[Entry])
        requires small { AreSmallTotals MOST_TOLD self.old }
        requires few { length entries.now ≤ MOST_TOLD }
        ensures { self.new ≡ totals_after entries.now self.old }
    {
        for entry in entries {
            match entry {
                Entry::Write { fresh: true, .. } => self.dirtied += 1,
                Entry::Done { .. } => self.cleaned += 1,
                _ => {}
            }
        }
    }
}
