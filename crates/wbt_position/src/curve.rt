//! The position polynomial: the third power of how far a domain is from its setpoint.
//!
//! ```text
//!  2048 |*
//!       |  *
//!       |     *
//!  1024 |          *    *    *
//!       |                         *
//!       |                           *
//!     0 +----------------------------*---> dirty pages
//!        freerun     setpoint     limit
//! ```

ghost use Rattle.std.specs.Prelude.{◌≡◌, ◌+◌, ◌*◌, ◌/◌, ◌^◌, ◌<◌, ◌≤◌, pos, ◌-ℤ◌, ◌*ℤ◌, unsigned_abs, FitsSigned};
ghost use Rattle.std.specs.Int.{w128};
ghost use Rattle.wbt_position.specs.Polynom.{cut, distance, polynom_value, scaled};

use crate::odd::odd;
use wbt_num::floor_shift;

/// How fast writers may go by the domain's dirty pages, on the scale 1024, from 2048 down to 0 or little more at the limit.
/// All three are counts of pages. The kernel's `pos_ratio_polynom`.
pub fn polynom(setpoint: u64, dirty: u64, limit: u64) -> u64
    requires setpoint_below_limit { setpoint ≤ limit }
    requires limit_in_range { limit ≤ 2 ^ 32 }
    requires dirty_in_range { dirty < 2 ^ 33 }
    ensures value { result ≡ polynom_value setpoint dirty limit }
    ensures at_most { result ≤ 2048 }
{
    let x = distance(setpoint, dirty, limit);
    let square = scaled(x, x);
    let cube = scaled(square, x);
    cut(cube)
}

// How far dirty pages lie below the setpoint, in 1024ths of the way to the limit.
fn distance(setpoint: u64, dirty: u64, limit: u64) -> i128
    requires setpoint_below_limit { setpoint ≤ limit }
    requires limit_in_range { limit ≤ 2 ^ 32 }
    requires dirty_in_range { dirty < 2 ^ 33 }
    ensures value { result ≡ distance setpoint dirty limit }
    ensures bounded { unsigned_abs result ≤ 2 ^ 43 }
{
    let below = gap(setpoint, dirty);
    let way = odd(limit - setpoint);
    below / way as i128
}

// 1024 times what the setpoint is above dirty pages.
fn gap(setpoint: u64, dirty: u64) -> i128
    requires setpoint_in_range { setpoint ≤ 2 ^ 32 }
    requires dirty_in_range { dirty < 2 ^ 33 }
    ensures value { result ≡ (pos setpoint -ℤ pos dirty) *ℤ pos 1024 }
    ensures bounded { unsigned_abs result ≤ 2 ^ 43 }
{
    (setpoint as i128 - dirty as i128) * 1024
}

// A product on the scale 1024, rounded down also below zero.
fn scaled(p: i128, x: i128) -> i128
    requires { FitsSigned w128 (p *ℤ x) }
    ensures value { result ≡ scaled p x }
    ensures bounded { unsigned_abs result ≤ unsigned_abs p * unsigned_abs x / 1024 + 1 }
{
    floor_shift(p * x, 10)
}

// 1024 more, cut to 0 at least and 2048 at most.
fn cut(cube: i128) -> u64
    requires { unsigned_abs cube ≤ 2 ^ 120 }
    ensures value { result ≡ cut cube }
    ensures at_most { result ≤ 2048 }
{
    (cube + 1024).clamp(0, 2048) as u64
}
