//! The periods that each domain has had.

ghost use Rattle.std.specs.Prelude.{◌≡◌, ◌==◌, IfOk, OnOk, length};
ghost use Rattle.std.specs.List.{list_any};
ghost use Rattle.wbt_audit_reads.specs.Periods as spec;

use std::alloc::Global;
use wbt_audit_walk::places::Places;
use wbt_audit_walk::table::Table;
use wbt_journal::TimerEntry;
use wbt_num::NoMemory;

/// For each domain its periods, in order: 0, and the sum after each of its lines. A sum past 2^128, which takes 2^64 lines, for which
/// there is no memory anyway, is refused as memory is.
pub fn periods_by(
    alloc: Global,
    places: Places,
    timer: &[TimerEntry],
) -> Result<Table<u128>, NoMemory>
    ensures rows { IfOk result (λ periods. length periods ≡ places.domains) }
    ensures are { IfOk result (spec.ArePeriods places timer.now) }
{
    let mut periods = Table::start(alloc, places.domains as usize, 0u128)?;
    for entry in timer {
        begin(&mut periods, places, entry)?;
    }
    Ok(periods)
}

/// Whether a domain's periods, which rise, have one.
pub fn has_period(periods: &[u128], period: u64) -> bool
    ensures { spec.IsRising periods.now → result ≡ list_any (λ p. p == period) periods.now }
{
    periods.binary_search(&u128::from(period)).is_ok()
}

fn begin(periods: &mut Table<u128>, places: Places, entry: &TimerEntry) -> Result<(), NoMemory>
    ensures { OnOk result (periods.new ≡ spec.one_period_more places entry.entry.now periods.old) }
{
    match *entry {
        TimerEntry::Limits { .. } => Ok(()),
        TimerEntry::Period { domain, k } => push_to(periods, places.domain(domain), k),
    }
}

fn push_to(periods: &mut Table<u128>, place: Option<usize>, k: u64) -> Result<(), NoMemory>
    ensures { OnOk result (periods.new ≡ spec.period_more_at place k periods.old) }
{
    match place {
        None => Ok(()),
        Some(place) => {
            let last = last_of(periods.row(place));
            let next = last.checked_add(u128::from(k)).ok_or(NoMemory)?;
            periods.push(place, next)
        }
    }
}

fn last_of(row: &[u128]) -> u128
    ensures { result ≡ spec.last_in row.now }
{
    row.last().copied().unwrap_or(0)
}
