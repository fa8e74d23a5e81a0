//! The longest and the least pause, and the poll interval.

ghost use Rattle.std.specs.Prelude.{◌≡◌, ◌≢◌, ◌^◌, ◌<◌, ◌↔◌};
ghost use Rattle.wbt_pause.specs.Pauses.{least_pause, longest_pause, poll_pages};
ghost use Rattle.wbt_calls.specs.Crossing as crossing;
ghost use Rattle.wbt_calls.specs.Pausing as spec;

use crate::ranges::MOST_DIRTY;
use crate::status::{BAD_CONTEXT, BAD_ESTIMATE, OK};
use crate::types::Least;
use wbt_pause::{max_pause, min_pause};

/// The longest pause of a writer, in ticks.
pub fn longest_pause(wb_dirty: u64, avg: u64, out: &mut u64) -> u32
    ensures status { result ≡ spec.status_of_longest wb_dirty }
    ensures taken { result ≡ OK ↔ wb_dirty < 2 ^ 33 }
    ensures value { result ≡ OK → out.new ≡ longest_pause wb_dirty avg }
    ensures refused { result ≢ OK → out.new ≡ out.old }
{
    if wb_dirty > MOST_DIRTY {
        return BAD_CONTEXT;
    }
    *out = max_pause(wb_dirty, avg);
    OK
}

/// The least pause of a writer that may dirty `rate` pages a second, and its allowance after a pause.
pub fn least_pause(wb_dirty: u64, avg: u64, ratelimit: u64, rate: u64, out: &mut Least) -> u32
    ensures status { result ≡ spec.status_of_least wb_dirty avg ratelimit }
    ensures taken { result ≡ OK ↔ spec.IsLeastTaken wb_dirty avg ratelimit }
    ensures value { result ≡ OK → out.new ≡ crossing.least_in (least_pause (longest_pause wb_dirty avg) avg ratelimit rate) }
    ensures refused { result ≢ OK → out.new ≡ out.old }
{
    if wb_dirty > MOST_DIRTY {
        return BAD_CONTEXT;
    }
    if avg == 0 || ratelimit == 0 {
        return BAD_ESTIMATE;
    }
    let least = min_pause(max_pause(wb_dirty, avg), avg, ratelimit, rate as u128);
    *out = Least {
        pages: least.pages,
        pause: least.pause,
    };
    OK
}

/// How many pages a free writer dirties before its next check.
pub fn poll_interval(thresh: u64, dirty: u64) -> u64
    ensures { result ≡ poll_pages thresh dirty }
{
    wbt_pause::poll_interval(thresh, dirty)
}
