//! What the lines of steps tell of each domain.

ghost use Rattle.std.specs.Prelude.{◌≡◌, ◌+◌, ◌^◌, ◌≤◌, pos, unsigned_abs, length, option_copied, vec_len, IfOk};
ghost use Rattle.wbt_journal.specs.Steps as spec;
ghost use Rattle.wbt_journal.specs.Near.{AreNear};

use crate::step::StepEntry;
use crate::timer::TimerEntry;
use std::alloc::{AllocError, Global};
use wbt_grant::StepKind;

/// The exact count of a domain after some steps, its bound without the peak, and its peak, in pages.
#[derive(Clone, Copy, Debug, PartialEq, Eq)]
pub struct Column {
    pub count: i128,
    pub base: u64,
    pub peak: u64,
}

impl Column {
    /// The domain's bound with the peak.
    pub fn bound(&self) -> i128
        ensures { result ≡ pos (self.now.base + self.now.peak) }
    {
        i128::from(self.base) + i128::from(self.peak)
    }

    // The column of a domain after a step.
    fn after(self, homes: &[u32], domain: usize, step: &StepEntry) -> Column
        requires { unsigned_abs self.count ≤ 2 ^ 96 }
        ensures value { result ≡ spec.column_after homes.now domain step.now self }
        ensures near { unsigned_abs result.count ≤ unsigned_abs self.count + 2 ^ 31 }
    {
        Column {
            count: self.count + i128::from(change_in(homes, domain, step)),
            base: self.base,
            peak: self.peak.max(u64::from(raised(step, domain))),
        }
    }
}

/// The columns before the first step.
pub fn first_columns(
    alloc: Global,
    timer: &[TimerEntry],
    bases: &[u64],
) -> Result<Vec<Column>, AllocError>
    ensures { IfOk result (λ columns. columns.items ≡ spec.first_columns 0 timer.now bases.now) }
{
    let mut columns = Vec::with_capacity(alloc, bases.len())?;
    for (domain, base) in bases.iter().enumerate() {
        let column = Column {
            count: 0,
            base: *base,
            peak: first_hard(domain, timer),
        };
        columns.push(column)?;
    }
    Ok(columns)
}

// The hard limit of a domain's first limits.
fn first_hard(domain: usize, timer: &[TimerEntry]) -> u64
    ensures { result ≡ spec.first_hard domain timer.now }
{
    for entry in timer {
        if let TimerEntry::Limits {
            domain: of,
            limits,
            ..
        } = entry
        {
            if *of as usize == domain {
                return limits.hard;
            }
        }
    }
    0
}

/// The columns after a step.
pub fn advance(columns: &mut [Column], homes: &[u32], step: &StepEntry, most: u128)
    requires near { AreNear most columns.old }
    requires room { most ≤ 2 ^ 96 }
    ensures value { columns.new ≡ spec.columns_after homes.now 0 step.now columns.old }
    ensures near { AreNear (most + 2 ^ 31) columns.new }
{
    for domain in 0..columns.len() {
        columns[domain] = columns[domain].after(homes, domain, step);
    }
}

// By how much a step changes the count of a domain.
fn change_in(homes: &[u32], domain: usize, step: &StepEntry) -> i8
    ensures { result ≡ spec.change_in homes.now domain step.now }
{
    if is_in(homes, step.context, domain) {
        step.change
    } else {
        0
    }
}

// Whether a context is in a domain.
fn is_in(homes: &[u32], context: u32, domain: usize) -> bool
    ensures { result ≡ spec.is_in homes.now context domain }
{
    domain == 0 || is_some_of(domain, homes.get(context as usize))
}

fn is_some_of(domain: usize, home: Option<&u32>) -> bool
    ensures { result ≡ spec.is_some_of domain (option_copied home.entry) }
{
    match home {
        Some(home) => *home as usize == domain,
        None => false,
    }
}

// What a step raises a domain's peak to.
fn raised(step: &StepEntry, domain: usize) -> u32
    ensures { result ≡ spec.raised step.now.kind step.now.domain domain step.now.peak }
{
    match step.kind {
        StepKind::Peak => {
            if step.domain as usize == domain {
                step.peak
            } else {
                0
            }
        }
        _ => 0,
    }
}
