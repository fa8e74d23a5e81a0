//! The position ratio.

ghost use Rattle.std.specs.Prelude.{◌≡◌, ◌+◌, ◌*◌, ◌/◌, ◌^◌, ◌<◌, ◌≤◌};
ghost use Rattle.wbt_num.specs.Limits.{IsLawful};
ghost use Rattle.wbt_limits.specs.Limits.{setpoint as setpoint_of};
ghost use Rattle.wbt_position.specs.Position.{bent, context_setpoint, context_span, near_empty, on_line, position_ratio, share_of, weight_of};
ghost use Rattle.wbt_position.specs.Laws.{WeighsAsAsked};

use crate::curve::polynom;
use crate::odd::{odd, odd_wide};
use wbt_limits::freerun;
use wbt_num::Limits;

/// What was read of a domain and of one context in it.
#[derive(Clone, Copy, Debug, PartialEq, Eq)]
pub struct DomainRead {
    /// The domain's limits.
    pub limits: Limits,
    /// The domain's dirty pages, those under writeback among them.
    pub dirty: u64,
    /// The context's part of the domain's threshold, in pages.
    pub wb_thresh: u64,
}

/// How fast the context's writers may go, in 1024ths of its rate limit. It is 0 from the hard limit on, and at most
/// 2^32 - 1. `wb_dirty` is the context's dirty pages, `avg` the average bandwidth of its device in pages a second. The
/// kernel's `wb_position_ratio`.
#[tactic(auto, unfolding(crate::specs::Position::position_ratio))]
pub fn position(read: &DomainRead, wb_dirty: u64, avg: u64) -> u64
    requires lawful { IsLawful read.now.limits }
    requires average_in_range { avg < 2 ^ 44 }
    ensures value { result ≡ position_ratio read.now wb_dirty avg }
    ensures in_range { result < 2 ^ 32 }
    ensures none_at_the_limit { read.now.limits.hard ≤ read.now.dirty → result ≡ 0 }
{
    if read.limits.hard <= read.dirty {
        return 0;
    }
    let setpoint = setpoint(&read.limits);
    let p = polynom(setpoint, read.dirty, read.limits.hard);
    let weight = weight(read);
    let share = share(weight, read.limits.thresh);
    let middle = line_setpoint(setpoint, share);
    let span = line_span(read.limits.thresh, weight, avg, share);
    bend(p, middle, span, weight / 2, wb_dirty)
}

/// Where the control holds the domain, in pages: the middle of freerun and hard limit.
pub fn setpoint(limits: &Limits) -> u64
    ensures value { result ≡ setpoint_of limits.now }
    ensures below_limit { IsLawful limits.now → result ≤ limits.now.hard }
{
    freerun(limits).midpoint(limits.hard)
}

// The context's weight in the domain, in pages.
fn weight(read: &DomainRead) -> u64
    requires lawful { IsLawful read.now.limits }
    requires below_limit { read.now.dirty < read.now.limits.hard }
    ensures value { result ≡ weight_of read.now }
    ensures asked { WeighsAsAsked read.now result }
    ensures in_range { result ≤ 2 ^ 32 }
{
    let least = (read.limits.hard - read.dirty) / 8;
    read.wb_thresh.min(read.limits.thresh).max(least)
}

// The weight's part of the threshold, in 65536ths.
fn share(weight: u64, thresh: u64) -> u64
    requires weight_in_range { weight ≤ 2 ^ 32 }
    requires thresh_in_range { thresh ≤ 2 ^ 32 }
    ensures value { result ≡ share_of weight thresh }
    ensures in_range { result ≤ 2 ^ 48 }
{
    weight * 65536 / odd(thresh)
}

// The context's setpoint.
fn line_setpoint(setpoint: u64, share: u64) -> u128
    requires setpoint_in_range { setpoint ≤ 2 ^ 32 }
    requires share_in_range { share ≤ 2 ^ 48 }
    ensures value { result ≡ context_setpoint setpoint share }
    ensures in_range { result ≤ 2 ^ 64 }
{
    setpoint as u128 * share as u128 / 65536
}

// From the context's setpoint to the end of its line.
fn line_span(thresh: u64, weight: u64, avg: u64, share: u64) -> u128
    requires thresh_in_range { thresh ≤ 2 ^ 32 }
    requires average_in_range { avg < 2 ^ 44 }
    requires share_in_range { share ≤ 2 ^ 48 }
    ensures value { result ≡ context_span thresh weight avg share }
    ensures in_range { result ≤ 2 ^ 80 }
{
    let pages = thresh.saturating_sub(weight) + 8 * avg;
    pages as u128 * share as u128 / 65536
}

// The polynomial's value, bent by how many pages the context has.
fn bend(p: u64, setpoint: u128, span: u128, half: u64, wb_dirty: u64) -> u64
    requires p_in_range { p ≤ 2048 }
    requires setpoint_in_range { setpoint ≤ 2 ^ 64 }
    requires span_in_range { span ≤ 2 ^ 80 }
    requires half_in_range { half ≤ 2 ^ 32 }
    ensures value { result ≡ bent p setpoint span half wb_dirty }
    ensures in_range { result < 2 ^ 32 }
{
    let p = line(p, setpoint, span, wb_dirty);
    let p = faster_near_empty(p, half, wb_dirty);
    p.min(4294967295) as u64
}

// The context's line at its pages.
fn line(p: u64, setpoint: u128, span: u128, wb_dirty: u64) -> u128
    requires p_in_range { p ≤ 2048 }
    requires setpoint_in_range { setpoint ≤ 2 ^ 64 }
    requires span_in_range { span ≤ 2 ^ 80 }
    ensures value { result ≡ on_line p setpoint span wb_dirty }
    ensures in_range { result ≤ 2 ^ 92 }
{
    let end = setpoint + span;
    if (wb_dirty as u128) < end - span / 4 {
        p as u128 * (end - wb_dirty as u128) / odd_wide(end - setpoint)
    } else {
        p as u128 / 4
    }
}

// Faster where the context has few pages.
fn faster_near_empty(p: u128, half: u64, wb_dirty: u64) -> u128
    requires p_in_range { p ≤ 2 ^ 92 }
    requires half_in_range { half ≤ 2 ^ 32 }
    ensures { result ≡ near_empty p half wb_dirty }
{
    if wb_dirty >= half {
        p
    } else if wb_dirty > half / 8 {
        p * half as u128 / wb_dirty as u128
    } else {
        p * 8
    }
}
