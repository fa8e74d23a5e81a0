//! When a flusher writes, how much at once, and when its batch has landed.

ghost use Rattle.std.specs.Prelude.{◌≡◌, ◌+◌, ◌/◌, ◌%◌, ◌<◌, ◌≤◌, ◌||◌, ◌⊎◌, ◌↔◌, min, get_or, IfSome, IsNone, IsFalse, IsTrue};
ghost use Rattle.wbt_limits.specs.Flusher.{chunk_of as chunk_value};
ghost use Rattle.wbt_limits.specs.Limits.{IsOverBackground};
ghost use Rattle.wbt_rules.specs.Flusher as spec;
ghost use Rattle.wbt_rules.specs.Flusher.{HasLanded, IsWithinChunk, is_over_background};
ghost use Rattle.wbt_trace.specs.Lawful.{IsChunk};

use wbt_limits::over_background;
use wbt_num::Limits;
use wbt_trace::{Device, FlusherLine, Trace};

/// Whether a domain that reads so many pages is over background, or one before it was.
pub fn is_or_was_over(over: bool, reading: u64, limits: &Limits) -> bool
    ensures value { result ≡ (over || is_over_background reading limits.now) }
    ensures over { IsTrue result ↔ (IsTrue over ⊎ IsOverBackground reading limits.now) }
{
    if over {
        return true;
    }
    over_background(reading, limits)
}

/// How many pages a flusher claims at most before it hands them over, where its device writes `avg` pages a second on average
/// and the global domain's hard limit, in pages, was `hard` when the flusher loaded it last.
pub fn chunk_of(avg: u64, hard: u64) -> u64
    ensures value { result ≡ chunk_value avg hard }
    ensures some { 1 ≤ result }

    // The first multiple of 1024 above what the device writes in half a second, or above an eighth of the hard limit where that is
    // less.
    ensures multiple { result % 1024 ≡ 0 }
    ensures more { min (avg / 2) (hard / 8) < result }
    ensures first { result ≤ min (avg / 2) (hard / 8) + 1024 }
{
    ((avg / 2).min(hard / 8) + 1024) / 1024 * 1024
}

/// With how many pages a scan for the device ends: [`chunk_of`], or as many as its line says, where these are fewer.
#[tactic(auto, unfolding(crate::specs::Flusher::quota_of))]
pub fn quota_of(device: &Device, avg: u64, hard: u64) -> u64
    ensures value { result ≡ spec.quota_of device.now avg hard }
    ensures some { IfSome device.now.chunk IsChunk → 1 ≤ result }
    ensures within { IsWithinChunk device.now.chunk result }
    ensures most { result ≤ chunk_value avg hard }
    ensures plain { IsNone device.now.chunk → result ≡ chunk_value avg hard }
{
    let most = chunk_of(avg, hard);
    match device.chunk {
        None => most,
        Some(pages) => most.min(u64::from(pages)),
    }
}

/// What the line of the flusher's device says of a scan's pages; none where there is no line.
pub fn chunk_at(trace: &Trace, flusher: u32) -> Option<u32>
    ensures { result ≡ spec.chunk_at trace.now flusher }
{
    let device = device_in(trace.flushers.as_slice(), flusher);
    match trace.devices.as_slice().get(device as usize) {
        None => None,
        Some(device) => device.chunk,
    }
}

// The device of the flusher; 0 where it isn't there.
fn device_in(flushers: &[FlusherLine], flusher: u32) -> u32
    ensures { result ≡ (get_or flushers.now flusher (record { device = 0; cpu = 0 })).device }
{
    match flushers.get(flusher as usize) {
        None => 0,
        Some(line) => line.device,
    }
}

/// Whether so many pages are no more than a device's line says.
pub fn is_within_chunk(chunk: Option<u32>, pages: u64) -> bool
    ensures value { result ≡ spec.is_within_chunk chunk pages }
    ensures within { IsTrue result ↔ IsWithinChunk chunk pages }
{
    match chunk {
        None => true,
        Some(most) => pages <= u64::from(most),
    }
}

/// Whether the disk has written a batch: the moment `until` that it answered isn't after this one. Both are in ticks.
pub fn has_landed(until: u64, now: u64) -> bool
    ensures value { result ≡ spec.has_landed until now }
    ensures landed { IsTrue result ↔ HasLanded until now }
    ensures flies { IsFalse result ↔ (now < until) }
{
    until <= now
}
