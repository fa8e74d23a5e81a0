//! Point 15: no domain is left with more pages than its bound.

ghost use Rattle.std.specs.Prelude.{ℕ, ◌≡◌, ◌≤◌, nat_le, slice_get, IfOk};
ghost use Rattle.wbt_grant.specs.Formula.{fixed_bound as bound_without_peak};
ghost use Rattle.wbt_journal.specs.Leaves as leaves;
ghost use Rattle.wbt_journal.specs.Machine.{page_context};
ghost use Rattle.wbt_journal.specs.Side.{all_writers};
ghost use Rattle.wbt_journal.specs.Verdict as spec;
ghost use Rattle.wbt_trace.specs.Lawful.{IsLawful};

use std::alloc::Global;
use wbt_audit_walk::lines::census_at;
use wbt_audit_walk::things::{PageContexts, domain_of};
use wbt_book::{is_dirty, is_writeback};
use wbt_grant::fixed_bound;
use wbt_journal::{Journal, Left, TimerEntry, writers_in_order};
use wbt_num::NoMemory;
use wbt_rules::domains_of;
use wbt_trace::{Trace, Writer};

/// The line `census`, where a domain has more pages left than its bound; else None. Its time is that of a walk through the pages that
/// are left and the timer's lines for each domain, of which there are at most nine. It takes four bytes a page.
pub fn bound_fault(alloc: Global, trace: &Trace, journal: &Journal) -> Result<Option<u64>, NoMemory>
    requires { IsLawful trace.now }
    ensures { IfOk result (λ found. found ≡ spec.bound_fault trace.now journal.now) }
{
    let contexts = PageContexts::of(alloc, trace)?;
    let writers = writers_in_order(alloc, trace)?;
    for domain in 0..domains_of(trace) {
        if !is_within(trace, journal, &contexts, writers.as_slice(), domain) {
            let census = census_at(journal)?;
            return Ok(Some(census));
        }
    }
    Ok(None)
}

// Whether the domain has no more pages left than its bound.
fn is_within(
    trace: &Trace,
    journal: &Journal,
    contexts: &PageContexts,
    writers: &[Writer],
    domain: u32,
) -> bool
    requires lawful { IsLawful trace.now }
    requires contexts { (page : ℕ) → slice_get contexts.now page ≡ page_context trace.now page }
    requires writers { writers.now ≡ all_writers trace.now }
    ensures { result ≡ nat_le (leaves.count_of trace.now domain journal.now.left) (leaves.bound_of trace.now journal.now.timer domain) }
{
    let count = count_of(trace, contexts, domain, journal.left.as_slice());
    let peak = peak_of(domain, journal.timer.as_slice());
    count.saturating_sub(peak) <= fixed_part(trace, writers, domain)
}

// The bound of a domain without its peak.
fn fixed_part(trace: &Trace, writers: &[Writer], domain: u32) -> u64
    requires lawful { IsLawful trace.now }
    requires writers { writers.now ≡ all_writers trace.now }
    ensures { result ≡ bound_without_peak trace.now.cpus (leaves.writers_in trace.now domain) trace.now.cap (leaves.contexts_in trace.now domain) }
{
    let contexts = trace
        .contexts
        .as_slice()
        .iter()
        .filter(|context| is_inside(domain, context.domain))
        .count();
    fixed_bound(
        trace.cpus,
        writers_in(trace, writers, domain),
        u64::from(trace.cap),
        contexts as u64,
    )
}

// How many writers are in the domain.
fn writers_in(trace: &Trace, writers: &[Writer], domain: u32) -> u64
    requires { writers.now ≡ all_writers trace.now }
    ensures { result ≡ leaves.writers_in trace.now domain }
{
    let count = writers
        .iter()
        .filter(|writer| is_inside(domain, domain_of(trace, writer.context)))
        .count();
    count as u64
}

// Whether a context of this domain is in a domain; each is in the global one.
fn is_inside(domain: u32, of: u32) -> bool
    ensures { result ≡ leaves.is_inside domain of }
{
    domain == 0 || of == domain
}

// The greatest hard limit of the domain's lines.
fn peak_of(domain: u32, timer: &[TimerEntry]) -> u64
    ensures { result ≡ leaves.peak_of domain timer.now }
{
    let mut peak = 0;
    for entry in timer {
        peak = hard_in(domain, entry).max(peak);
    }
    peak
}

fn hard_in(domain: u32, entry: &TimerEntry) -> u64
    ensures { result ≡ leaves.hard_in domain entry.now }
{
    match *entry {
        TimerEntry::Limits {
            domain: of,
            limits,
            ..
        } => { if of == domain { limits.hard } else { 0 } }
        TimerEntry::Period { .. } => 0,
    }
}

// The dirty pages of the domain and those under writeback, by what is left.
fn count_of(trace: &Trace, contexts: &PageContexts, domain: u32, left: &[Left]) -> u64
    requires lawful { IsLawful trace.now }
    requires contexts { (page : ℕ) → slice_get contexts.now page ≡ page_context trace.now page }
    ensures { result ≡ leaves.count_of trace.now domain left.now }
{
    let mut count = 0;
    for one in left {
        count += pages_of_left(trace, contexts, domain, one);
    }
    count
}

fn pages_of_left(trace: &Trace, contexts: &PageContexts, domain: u32, left: &Left) -> u64
    requires lawful { IsLawful trace.now }
    requires contexts { (page : ℕ) → slice_get contexts.now page ≡ page_context trace.now page }
    ensures value { result ≡ leaves.pages_of_left trace.now domain left.now }
    ensures few { result ≤ 2 }
{
    match contexts.get(left.page) {
        None => 0,
        Some(context) => {
            if is_inside(domain, domain_of(trace, context)) {
                u64::from(is_dirty(left.word)) + u64::from(is_writeback(left.word))
            } else {
                0
            }
        }
    }
}
