//! Lines of a journal, counted from its first, which is 1.

ghost use Rattle.std.specs.Prelude.{◌≡◌, IfOk};
ghost use Rattle.wbt_journal.specs.Verdict as spec;

use crate::walk::Walk;
use wbt_journal::Journal;
use wbt_num::NoMemory;

/// The line after the CPUs' parts, where the first page that is left stands if there is one. A journal with 2^64 lines or more,
/// for which there is no memory anyway, is refused as memory is.
pub fn first_left_line(journal: &Journal) -> Result<u64, NoMemory>
    ensures { IfOk result (λ line. line ≡ spec.first_left_line journal.now) }
{
    let mut walk = Walk::start(journal)?;
    let mut line = walk.line;
    'steps: while let Some(_step) = walk.next()? {
        line = walk.line;
    }
    Ok(line)
}

/// The line `census`.
pub fn census_at(journal: &Journal) -> Result<u64, NoMemory>
    ensures { IfOk result (λ line. line ≡ spec.census_at journal.now) }
{
    let first = first_left_line(journal)?;
    first
        .checked_add(journal.left.as_slice().len() as u64)
        .ok_or(NoMemory)
}

/// The line `end`.
pub fn end_at(journal: &Journal) -> Result<u64, NoMemory>
    ensures { IfOk result (λ line. line ≡ spec.end_at journal.now) }
{
    let census = census_at(journal)?;
    let strict = journal.strict.as_slice().len() as u64;
    let behind = strict.checked_add(2).ok_or(NoMemory)?;
    census.checked_add(behind).ok_or(NoMemory)
}
