//! The longest and the least pause, and the poll interval.

ghost use Rattle.std.specs.Prelude.{◌≡◌, ◌≢◌, ◌^◌, ◌<◌, ◌↔◌};
ghost use Rattle.wbt_pause.specs.Pauses.{least_pause, longest_pause, poll_pages};
ghost use Rattle.wbt_calls.specs.Crossing as crossing;
ghost use Rattle.wbt_calls.specs.Pausing as spec;
ghost use Rattle.wbt_calls.specs.declared.status.TheConstants.{OK};

use wbt_calls::Least;

/// The longest pause of a writer, in ticks.
#[unsafe(no_mangle)]
pub extern "C" fn wbt_longest_pause(wb_dirty: u64, avg: u64, out: &mut u64) -> u32
    ensures status { result ≡ spec.status_of_longest wb_dirty }
    ensures taken { result ≡ OK ↔ wb_dirty < 2 ^ 33 }
    ensures value { result ≡ OK → out.new ≡ longest_pause wb_dirty avg }
    ensures refused { result ≢ OK → out.new ≡ out.old }
{
    wbt_calls::longest_pause(wb_dirty, avg, out)
}

/// The least pause of a writer that may dirty `rate` pages a second, and its allowance after a pause.
#[unsafe(no_mangle)]
pub extern "C" fn wbt_least_pause(
    wb_dirty: u64,
    avg: u64,
    ratelimit: u64,
    rate: u64,
    out: &mut Least,
) -> u32
    ensures status { result ≡ spec.status_of_least wb_dirty avg ratelimit }
    ensures taken { result ≡ OK ↔ spec.IsLeastTaken wb_dirty avg ratelimit }
    ensures value { result ≡ OK → out.new ≡ crossing.least_in (least_pause (longest_pause wb_dirty avg) avg ratelimit rate) }
    ensures refused { result ≢ OK → out.new ≡ out.old }
{
    wbt_calls::least_pause(wb_dirty, avg, ratelimit, rate, out)
}

/// How many pages a free writer dirties before its next check.
#[unsafe(no_mangle)]
pub extern "C" fn wbt_poll_interval(thresh: u64, dirty: u64) -> u64
    ensures { result ≡ poll_pages thresh dirty }
{
    wbt_calls::poll_interval(thresh, dirty)
}
