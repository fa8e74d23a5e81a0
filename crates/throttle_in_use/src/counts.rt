//! What a closed throttle tells, with what it needs looked at before.

ghost use Rattle.std.specs.Prelude.{◌≡◌, ◌<◌, ◌≤◌, IsTrue};
ghost use Rattle.wbt_counter.specs.declared.counter.Counter.TheVariants.{Domain, Context};
ghost use Rattle.wbt_table.specs.Layout.{HasCounter, setting};
ghost use Rattle.wbt_table.specs.Seat.{IsAt};

use wbt_table::{Census, Counter, CpuSeat, Owed, Throttle};

/// What the words and the first CPU tell of a counter.
#[derive(Clone, Copy, Debug, PartialEq, Eq)]
pub struct Told {
    pub shared: i64,
    pub local: i64,
    pub owed: Owed,
}

/// What a throttle leaves.
#[derive(Clone, Copy, Debug, PartialEq, Eq)]
pub struct Left {
    // The two bits of the first page.
    pub first_page: u64,
    // Pages that are dirty or under writeback.
    pub pages: u32,
    pub context: Told,
    pub domain: Told,
    // The exact count of the context, and of the global domain.
    pub exact: (i64, i64),
}

// Whether there is such a counter.
fn has_counter(throttle: &Throttle, counter: Counter) -> bool
    ensures { IsTrue result → HasCounter throttle.now.layout counter }
{
    match counter {
        Counter::Domain(domain) => (domain as usize) < throttle.layout().firsts.as_slice().len(),
        Counter::Context(context) => {
            (context as usize) < throttle.layout().contexts.as_slice().len()
        }
    }
}

fn cpus_of(throttle: &Throttle) -> u32
    ensures value { result ≡ throttle.now.layout.cpus }
    ensures some { 1 ≤ result }
{
    throttle.layout().cpus
}

// The pages of the one inode, or 0.
fn pages_of(throttle: &Throttle) -> u32
    ensures { result ≤ (setting throttle.now.layout).pages }
{
    let inodes = throttle.layout().inodes.as_slice();
    if inodes.len() != 1 {
        return 0;
    }
    inodes[0].pages
}

fn told_of(census: &Census, counter: Counter) -> Told
    requires there { HasCounter census.now.layout counter }
    requires cpus { 1 ≤ census.now.layout.cpus }
{
    Told {
        shared: census.shared(counter).value,
        local: census.local(0, counter),
        owed: census.owed(0, counter),
    }
}

// The exact count of a counter.
fn exact(census: &Census, cpus: u32, counter: Counter) -> i64
    requires there { HasCounter census.now.layout counter }
    requires cpus { cpus ≤ census.now.layout.cpus }
{
    let mut sum = census.shared(counter).value;
    for cpu in 0..cpus {
        let owed = census.owed(cpu, counter);
        sum = sum
            .saturating_add(census.local(cpu, counter))
            .saturating_add(owed.event)
            .saturating_sub(owed.clear);
    }
    sum
}

fn pages_left(census: &Census, pages: u32) -> u32
    requires { pages ≤ (setting census.now.layout).pages }
{
    let mut left = 0;
    for page in 0..pages {
        if census.page(page) != 0 {
            left += 1;
        }
    }
    left
}

fn left_in(census: &Census, cpus: u32, pages: u32) -> Left
    requires counters { HasCounter census.now.layout (Context 0) × HasCounter census.now.layout (Domain 0) }
    requires cpus { (1 ≤ cpus) × (cpus ≤ census.now.layout.cpus) }
    requires pages { (0 < pages) × (pages ≤ (setting census.now.layout).pages) }
{
    Left {
        first_page: census.page(0),
        pages: pages_left(census, pages),
        context: told_of(census, Counter::Context(0)),
        domain: told_of(census, Counter::Domain(0)),
        exact: (
            exact(census, cpus, Counter::Context(0)),
            exact(census, cpus, Counter::Domain(0)),
        ),
    }
}

/// Closes a throttle. None where the seat doesn't hold all, or there is no page.
pub fn left_by(throttle: Throttle, seat: CpuSeat) -> Option<Left>
    requires { IsAt throttle seat }
{
    if !throttle.holds_all(&seat) {
        return None;
    }
    if !has_counter(&throttle, Counter::Context(0)) {
        return None;
    }
    if !has_counter(&throttle, Counter::Domain(0)) {
        return None;
    }
    let cpus = cpus_of(&throttle);
    let pages = pages_of(&throttle);
    if pages == 0 {
        return None;
    }
    let census = throttle.close(seat);
    Some(left_in(&census, cpus, pages))
}

/// The two bits of the first page, and the exact counts.
pub fn bits_and_counts(left: Option<Left>) -> Option<(u64, (i64, i64))> {
    match left {
        Some(left) => Some((left.first_page, left.exact)),
        None => None,
    }
}

/// How many pages are left, and the exact counts.
pub fn pages_and_counts(left: Option<Left>) -> Option<(u32, (i64, i64))> {
    match left {
        Some(left) => Some((left.pages, left.exact)),
        None => None,
    }
}
