//! A counter of two CPUs: each adds to a number of its own, and folds it into the shared count where it reaches the batch.
#![tactic(auto)]

ghost use Rattle.std.specs.Prelude.{◌≡◌, ◌*◌, ◌^◌, ◌<◌, ◌≤◌, pos, ◌+ℤ◌, ◌-ℤ◌, unsigned_abs};

use wbt_counter::{Plan, plan_add};

/// One page more on a CPU: the shared count and the CPU's own number afterwards.
fn add(shared: i64, own: i64) -> (i64, i64)
    requires few { unsigned_abs shared < 2 ^ 40 }
    requires below_batch { unsigned_abs own < 32 }
    ensures one_more { result.0 +ℤ result.1 ≡ (shared +ℤ own) +ℤ pos 1 }
    ensures below_batch { unsigned_abs result.1 < 32 }
{
    match plan_add(own, 1, 32) {
        Plan::Keep { local } => (shared, local),
        Plan::Fold { delta } => (shared + delta, 0),
    }
}

/// The shared count after each CPU dirtied so many pages, in turns: at most a batch for each CPU away from the exact count.
fn shared_count(pages: u32) -> i64
    ensures error { unsigned_abs (pos (2 * pages) -ℤ result) ≤ 2 * 32 }
{
    let (mut shared, mut one, mut two) = (0, 0, 0);
    for _page in 0..pages {
        (shared, one) = add(shared, one);
        (shared, two) = add(shared, two);
    }
    shared
}

fn main(rt: HostRuntime) -> std::io::Result<()> {
    println!(rt; "2000 pages, counted as {}", shared_count(1000))
}
