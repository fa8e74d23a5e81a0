//! Point 13: each page was claimed as often as it was dirtied, and released as often as it was claimed, but for what is left.

ghost use Rattle.std.specs.Prelude.{◌≡◌, ℕ, ◌<◌, ◌++◌, List, length, replicate, slice_index_or, if◌then◌else◌, ◌==◌, IfOk, OnOk};
ghost use Rattle.std.specs.List.{list_all};
ghost use Rattle.wbt_journal.specs.Effects.{event_of as event_told};
ghost use Rattle.wbt_journal.specs.Items.{all_told};
ghost use Rattle.wbt_journal.specs.Leaves.{is_even_below, is_left_from};
ghost use Rattle.wbt_journal.specs.Told.{Told};
ghost use Rattle.wbt_journal.specs.Verdict as spec;
ghost use Rattle.wbt_trace.specs.Lawful.{IsLawful};
ghost use Rattle.wbt_audit_walk.specs.Acts.{told_of, told_by};
ghost use Rattle.wbt_audit_turns.specs.Balanced as balance;

use std::alloc::Global;
use wbt_audit_walk::act::Act;
use wbt_audit_walk::lines::census_at;
use wbt_audit_walk::things::pages_of;
use wbt_audit_walk::walk::Walk;
use wbt_book::{Event, is_dirty, is_writeback};
use wbt_journal::{Journal, Left};
use wbt_num::NoMemory;
use wbt_trace::Trace;

/// The line `census`, where the pages that are left don't stand in order, each once and dirty or under writeback, or a page wasn't
/// claimed as often as it was dirtied, or not released as often as it was claimed; else None. It takes 32 bytes a page.
pub fn ledger_fault(
    alloc: Global,
    trace: &Trace,
    journal: &Journal,
) -> Result<Option<u64>, NoMemory>
    requires { IsLawful trace.now }
    ensures { IfOk result (λ found. found ≡ spec.ledger_fault trace.now journal.now) }
{
    let mut tallies = no_tallies(alloc, pages_of(trace))?;
    let even = is_even(&mut tallies, journal)?;
    let in_order = is_left_in_order(journal.left.as_slice());
    if in_order && even {
        return Ok(None);
    }
    let census = census_at(journal)?;
    Ok(Some(census))
}

// Whether each page was claimed as often as it was dirtied, and released as often as it was claimed, but for what is left.
fn is_even(tallies: &mut [Tally], journal: &Journal) -> Result<bool, NoMemory>
    requires { tallies.old ≡ replicate (length tallies.old) balance.nothing }
    ensures { IfOk result (λ even. even ≡ is_even_below (all_told journal.now) journal.now.left (length tallies.old)) }
{
    let mut walk = Walk::start(journal)?;
    'steps: while let Some(step) = walk.next()? {
        pass(tallies, step.act)?;
    }
    enter_left(tallies, journal.left.as_slice())?;
    Ok(are_balanced(tallies))
}

// Whether pages that are left stand in order, each once, and are dirty or under writeback.
fn is_left_in_order(left: &[Left]) -> bool
    ensures { result ≡ is_left_from 0 left.now }
{
    let mut from = 0u64;
    for one in left {
        let page = u64::from(one.page);
        if page < from || one.word < 1 || one.word > 3 {
            return false;
        }
        from = page + 1;
    }
    true
}

// What was told of a page.
#[derive(Clone, Copy)]
struct Tally {
    // How often it was dirtied, also by giving it back.
    dirtied: u64,
    // How often it was claimed, and once more where it is left dirty.
    cleaned: u64,
    // How often it was claimed.
    claimed: u64,
    // How often it was completed or given back, and once more where it is left under writeback.
    released: u64,
}

const NOTHING: Tally = Tally {
    dirtied: 0,
    cleaned: 0,
    claimed: 0,
    released: 0,
};

impl Tally {
    // Both together. A sum of 2^64 or more, for which no journal has the memory, is refused as memory is.
    fn plus(self, more: Tally) -> Result<Tally, NoMemory>
        ensures { IfOk result (λ sum. sum ≡ balance.plus self more) }
    {
        Ok(Tally {
            dirtied: self.dirtied.checked_add(more.dirtied).ok_or(NoMemory)?,
            cleaned: self.cleaned.checked_add(more.cleaned).ok_or(NoMemory)?,
            claimed: self.claimed.checked_add(more.claimed).ok_or(NoMemory)?,
            released: self.released.checked_add(more.released).ok_or(NoMemory)?,
        })
    }
}

// So many pages of which nothing was told.
fn no_tallies(alloc: Global, pages: u32) -> Result<Vec<Tally>, NoMemory>
    ensures { IfOk result (λ tallies. tallies.items ≡ replicate pages balance.nothing) }
{
    let mut tallies = Vec::with_capacity(alloc, pages as usize)?;
    for _page in 0..pages {
        tallies.push(NOTHING)?;
    }
    Ok(tallies)
}

// What a step tells of a page.
fn pass(tallies: &mut [Tally], act: Option<Act>) -> Result<(), NoMemory>
    ensures { OnOk result ((rest all : List Told) → balance.Tallied tallies.old (told_by act.entry ++ rest) all → balance.Tallied tallies.new rest all) }
{
    match act {
        None => Ok(()),
        Some(act) => {
            enter(tallies, &act)?;
            Ok(())
        }
    }
}

// What an act tells of its page, if it has one.
fn enter(tallies: &mut [Tally], act: &Act) -> Result<(), NoMemory>
    ensures { OnOk result ((page : ℕ) → page < length tallies.old → slice_index_or tallies.new page balance.nothing ≡ balance.with_events (slice_index_or tallies.old page balance.nothing) page (event_told (told_of act.now))) }
{
    match event_of(act) {
        None => Ok(()),
        Some(event) => add(tallies, page_of(&event), tally_of(&event)),
    }
}

// Adds to the page's tally, if there is such a page.
fn add(tallies: &mut [Tally], page: u32, tally: Tally) -> Result<(), NoMemory>
    ensures { OnOk result ((of : ℕ) → of < length tallies.old → slice_index_or tallies.new of balance.nothing ≡ (if page == of then balance.plus (slice_index_or tallies.old of balance.nothing) tally else slice_index_or tallies.old of balance.nothing)) }
{
    let place = page as usize;
    if place < tallies.len() {
        tallies[place] = tallies[place].plus(tally)?;
    }
    Ok(())
}

// The page event of an act.
fn event_of(act: &Act) -> Option<Event>
    ensures { result ≡ event_told (told_of act.now) }
{
    match *act {
        Act::Write { page, fresh, .. } => {
            if fresh {
                Some(Event::Dirty(page))
            } else {
                None
            }
        }
        Act::Claim { page, .. } => Some(Event::Claim(page)),
        Act::Done { page, .. } => Some(Event::Complete(page)),
        Act::Back { page, absorbed, .. } => {
            if absorbed {
                Some(Event::Absorb(page))
            } else {
                Some(Event::Redirty(page))
            }
        }
        _ => None,
    }
}

fn page_of(event: &Event) -> u32
    ensures { result ≡ balance.page_of_event event.now }
{
    match *event {
        Event::Dirty(page) => page,
        Event::Claim(page) => page,
        Event::Complete(page) => page,
        Event::Redirty(page) => page,
        Event::Absorb(page) => page,
    }
}

// What an event adds to its page's tally.
fn tally_of(event: &Event) -> Tally
    ensures { result ≡ balance.tally_of_event event.now }
{
    match *event {
        Event::Dirty(_) => Tally {
            dirtied: 1,
            ..NOTHING
        },
        Event::Claim(_) => Tally {
            cleaned: 1,
            claimed: 1,
            ..NOTHING
        },
        Event::Redirty(_) => Tally {
            dirtied: 1,
            released: 1,
            ..NOTHING
        },
        Event::Complete(_) => Tally {
            released: 1,
            ..NOTHING
        },
        Event::Absorb(_) => Tally {
            released: 1,
            ..NOTHING
        },
    }
}

// The pages that are left.
fn enter_left(tallies: &mut [Tally], left: &[Left]) -> Result<(), NoMemory>
    ensures { OnOk result ((page : ℕ) → page < length tallies.old → slice_index_or tallies.new page balance.nothing ≡ balance.plus (slice_index_or tallies.old page balance.nothing) (balance.tally_of_left left.now page)) }
{
    for one in left {
        add(tallies, one.page, tally_of_left(one))?;
    }
    Ok(())
}

fn tally_of_left(left: &Left) -> Tally
    ensures { result ≡ balance.tally_of_one left.now }
{
    Tally {
        cleaned: u64::from(is_dirty(left.word)),
        released: u64::from(is_writeback(left.word)),
        ..NOTHING
    }
}

// Whether each page was claimed as often as it was dirtied, and released as often as it was claimed.
fn are_balanced(tallies: &[Tally]) -> bool
    ensures { result ≡ list_all balance.is_balanced tallies.now }
{
    tallies.iter().all(|tally| is_balanced(tally))
}

fn is_balanced(tally: &Tally) -> bool
    ensures { result ≡ balance.is_balanced tally.now }
{
    let cleaned = tally.dirtied == tally.cleaned;
    let released = tally.claimed == tally.released;
    cleaned && released
}
