//! When a task rests between its pages.

ghost use Rattle.std.specs.Prelude.{◌≡◌, ◌+◌, ◌<◌, ◌^◌};
ghost use Rattle.wbt_rules.specs.Pace as spec;

use wbt_trace::Pace;

/// For how many ticks a task rests right before its next page, that has written so many pages since it began or rested so.
pub fn pause_of(pace: Option<Pace>, since: u32) -> Option<u64>
    ensures { result ≡ spec.pause_of pace since }
{
    match pace {
        Some(pace) if pace.pages <= since => Some(pace.ticks),
        _ => None,
    }
}

/// How many pages these are after one more; always 0 where the task has no pace.
pub fn since_after(pace: Option<Pace>, since: u32) -> u32
    requires { since + 1 < 2 ^ 32 }
    ensures { result ≡ spec.since_after pace since }
{
    match pace {
        None => 0,
        Some(_) => since + 1,
    }
}
