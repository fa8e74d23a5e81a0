//! The exact count of a counter of a closed throttle.

ghost use Rattle.std.specs.Prelude.{◌≡◌, ◌+◌, ◌*◌, ◌^◌, ◌≤◌, ◌+ℤ◌, ◌-ℤ◌, unsigned_abs};
ghost use Rattle.wbt_table.specs.Layout.{HasCounter};
ghost use Rattle.wbt_table.specs.Census.{found_count};

use wbt_table::{Census, Counter};

/// Found from the words, and from what the CPUs still owe to the counter.
pub fn exact(census: &Census, cpus: u32, counter: Counter) -> i128
    requires there { HasCounter census.now.layout counter }
    requires cpus { (cpus ≡ census.now.layout.cpus) × (cpus ≤ 64) }
    ensures { result ≡ found_count census.now counter }
{
    let mut local = 0;
    let mut events = 0;
    let mut clears = 0;
    for cpu in 0..cpus {
        let owed = census.owed(cpu, counter);
        local = and(local, census.local(cpu, counter), cpu);
        events = and(events, owed.event, cpu);
        clears = and(clears, owed.clear, cpu);
    }
    found(census.shared(counter).value, local, events, clears)
}

// A sum of so many numbers, and one more.
fn and(sum: i128, number: i64, count: u32) -> i128
    requires few { count ≤ 64 }
    requires small { unsigned_abs sum ≤ count * 2 ^ 63 }
    ensures sum { result ≡ sum +ℤ number }
    ensures small { unsigned_abs result ≤ (count + 1) * 2 ^ 63 }
{
    sum + i128::from(number)
}

// The count in the shared word with all own numbers and events, less what was folded and not cleared.
fn found(shared: i64, local: i128, events: i128, clears: i128) -> i128
    requires small { (unsigned_abs local ≤ 2 ^ 69) × (unsigned_abs events ≤ 2 ^ 69) × (unsigned_abs clears ≤ 2 ^ 69) }
    ensures { result ≡ ((shared +ℤ local) +ℤ events) -ℤ clears }
{
    less(more(more(i128::from(shared), local), events), clears)
}

fn more(sum: i128, number: i128) -> i128
    requires { (unsigned_abs sum ≤ 2 ^ 80) × (unsigned_abs number ≤ 2 ^ 69) }
    ensures sum { result ≡ sum +ℤ number }
    ensures small { unsigned_abs result ≤ unsigned_abs sum + 2 ^ 69 }
{
    sum + number
}

fn less(sum: i128, number: i128) -> i128
    requires { (unsigned_abs sum ≤ 2 ^ 80) × (unsigned_abs number ≤ 2 ^ 69) }
    ensures { result ≡ sum -ℤ number }
{
    sum - number
}
