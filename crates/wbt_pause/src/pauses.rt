//! The longest and the least pause, and how often a free writer checks.

ghost use Rattle.std.specs.Prelude.{◌≡◌, ◌+◌, ◌-◌, ◌*◌, ◌/◌, ◌^◌, ◌<◌, ◌≤◌};
ghost use Rattle.wbt_pause.specs.Claims.{IsWithinRoot};
ghost use Rattle.wbt_pause.specs.Pauses.{aimed_ticks, enough_pages, first_aim, in_time, least_pause, longest_pause, pages_in, poll_pages};

use wbt_num::ilog2;

/// No pause is longer, in ticks.
pub const LONGEST_PAUSE: u64 = 200;

/// A writer that dirties fewer pages between two pauses pauses longer instead.
pub const FEW_PAGES: u64 = 32;

/// The least pause.
#[derive(Clone, Copy, Debug, PartialEq, Eq)]
pub struct MinPause {
    /// The allowance after a pause, in pages.
    pub pages: u64,
    /// A pause that would be shorter isn't made; in ticks.
    pub pause: u64,
}

// What a writer is to dirty between two pauses, and the ticks that this takes.
#[derive(Clone, Copy)]
struct Aim {
    pages: u64,
    ticks: u64,
}

/// The longest pause of a writer, in ticks: at most 200, and shorter where the device soon writes what the context has.
/// `avg` is in pages a second. The kernel's `wb_max_pause`.
#[tactic(auto, unfolding(crate::specs::Pauses::longest_pause))]
pub fn max_pause(wb_dirty: u64, avg: u64) -> u64
    requires { wb_dirty < 2 ^ 33 }
    ensures value { result ≡ longest_pause wb_dirty avg }
    ensures at_least_one { 1 ≤ result }
    ensures at_most_200 { result ≤ 200 }
{
    (wb_dirty / (1 + avg / 128) + 1).min(LONGEST_PAUSE)
}

/// The least pause of a writer, and its allowance afterwards. `avg` is the device's average bandwidth and `ratelimit`
/// its context's rate limit; `task` is what the writer itself may dirty; all three in pages a second. The kernel's
/// `wb_min_pause`.
#[tactic(auto, unfolding(crate::specs::Pauses::least_pause))]
pub fn min_pause(max_pause: u64, avg: u64, ratelimit: u64, task: u128) -> MinPause
    requires longest_at_least_one { 1 ≤ max_pause }
    requires longest_at_most_200 { max_pause ≤ 200 }
    requires average_at_least_one { 1 ≤ avg }
    requires ratelimit_at_least_one { 1 ≤ ratelimit }
    requires task_in_range { task < 2 ^ 96 }
    ensures value { result ≡ least_pause max_pause avg ratelimit task }
    ensures in_range { result.pause ≤ 32000 }
    ensures allowance_in_range { ratelimit < 2 ^ 44 → result.pages ≤ 2 ^ 42 }
{
    let first = aim_first(max_pause, avg, ratelimit);
    let enough = aim_at_enough(max_pause, ratelimit, first);
    let aim = aim_in_time(max_pause, task, enough);
    let pause = if aim.pages >= FEW_PAGES {
        1 + aim.ticks / 2
    } else {
        aim.ticks
    };
    MinPause {
        pages: aim.pages,
        pause,
    }
}

/// How many pages a free writer dirties before its next check: the square root of what is free below the threshold, as a
/// power of two; 1 where nothing is. The kernel's `dirty_poll_interval`.
pub fn poll_interval(thresh: u64, dirty: u64) -> u64
    ensures value { result ≡ poll_pages thresh dirty }
    ensures within_root { IsWithinRoot result (thresh - dirty) }
    ensures above_half_the_root { thresh - dirty < 4 * (result * result) }
    ensures at_least_one { 1 ≤ result }
    ensures in_range { result ≤ 2 ^ 31 }
{
    if thresh > dirty {
        1 << (ilog2(thresh - dirty) / 2)
    } else {
        1
    }
}

// The aim that rates alone give.
fn aim_first(longest: u64, avg: u64, ratelimit: u64) -> Aim
    requires longest_at_most_200 { longest ≤ 200 }
    requires average_at_least_one { 1 ≤ avg }
    requires ratelimit_at_least_one { 1 ≤ ratelimit }
    ensures value { result ≡ first_aim longest avg ratelimit }
    ensures pages_in_range { result.pages ≤ 2 ^ 62 }
    ensures ticks_in_range { result.ticks ≤ 200 }
    ensures pages_small { ratelimit < 2 ^ 44 → result.pages ≤ 2 ^ 42 }
{
    let halvings = u64::from(ilog2(avg).saturating_sub(ilog2(ratelimit)));
    let ticks = (10 + halvings * 10000 / 1024).min(1 + longest / 2);
    Aim {
        pages: pages_at(ratelimit, ticks),
        ticks,
    }
}

// 32 pages, or what the longest pause gives, where the aim is fewer.
fn aim_at_enough(longest: u64, ratelimit: u64, aim: Aim) -> Aim
    requires longest_at_most_200 { longest ≤ 200 }
    requires ratelimit_at_least_one { 1 ≤ ratelimit }
    requires pages_in_range { aim.pages ≤ 2 ^ 62 }
    requires ticks_in_range { aim.ticks ≤ 200 }
    ensures value { result ≡ enough_pages longest ratelimit aim }
    ensures pages { result.pages ≤ 2 ^ 62 }
    ensures ticks { result.ticks ≤ 32000 }
    ensures pages_small { ratelimit < 2 ^ 44 → aim.pages ≤ 2 ^ 42 → result.pages ≤ 2 ^ 42 }
{
    if aim.pages >= FEW_PAGES {
        return aim;
    }
    let pages = pages_at(ratelimit, longest);
    if pages > FEW_PAGES {
        Aim {
            pages: FEW_PAGES,
            ticks: 1000 * FEW_PAGES / ratelimit,
        }
    } else {
        Aim {
            pages,
            ticks: longest,
        }
    }
}

// What the writer dirties in the longest pause, where the aim would take it longer.
fn aim_in_time(longest: u64, task: u128, aim: Aim) -> Aim
    requires longest_at_most_200 { longest ≤ 200 }
    requires task_in_range { task < 2 ^ 96 }
    requires pages_in_range { aim.pages ≤ 2 ^ 62 }
    requires ticks_in_range { aim.ticks ≤ 32000 }
    ensures value { result ≡ in_time longest task aim }
    ensures ticks { result.ticks ≤ 32000 }
    ensures no_more_pages { result.pages ≤ aim.pages }
{
    if 1000 * aim.pages as u128 / (task + 1) > longest as u128 {
        Aim {
            pages: (task * longest as u128 / 1024) as u64,
            ticks: longest,
        }
    } else {
        aim
    }
}

// Pages that a rate gives in so many ticks.
fn pages_at(rate: u64, ticks: u64) -> u64
    requires { ticks ≤ 200 }
    ensures value { result ≡ pages_in rate ticks }
    ensures in_range { result ≤ 2 ^ 62 }
    ensures small { rate < 2 ^ 44 → result ≤ 2 ^ 42 }
{
    (rate as u128 * ticks as u128 / 1024) as u64
}
