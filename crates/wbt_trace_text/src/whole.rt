//! What a trace must have, and the trace after its last line.

ghost use Rattle.std.specs.Prelude.{◌≡◌, length};
ghost use Rattle.wbt_trace.specs.Lawful.{has_flusher as has_flusher_value};
ghost use Rattle.wbt_trace_text.specs.Reading.{have_flushers as have_flushers_value, missing_in, end_of, fault_at as fault_value};
ghost use Rattle.wbt_trace_text.specs.Seen.{seen};
ghost use Rattle.wbt_trace.specs.Sofar.{trace_so_far};

use crate::builder::Builder;
use crate::fault::{Missing, Refusal, TraceFault};
use wbt_num::{Items, MOST_CAP, Settings};
use wbt_trace::{DEFAULT_BACKGROUND_RATIO, DEFAULT_RATIO, FlusherLine, Trace};

/// The fault of a line that is refused.
pub fn fault_at(line: u64, refusal: Refusal) -> TraceFault
    ensures { result ≡ fault_value line refusal }
{
    match refusal {
        Refusal::UnknownName => TraceFault::UnknownName { line },
        Refusal::Twice => TraceFault::Twice { line },
        Refusal::OutOfRange => TraceFault::OutOfRange { line },
        Refusal::Limit => TraceFault::Limit { line },
    }
}

fn has_flusher(device: u32, flushers: &[FlusherLine]) -> bool
    ensures { result ≡ has_flusher_value device flushers.now }
{
    flushers.iter().any(|flusher| flusher.device == device)
}

fn have_flushers(devices: u32, flushers: &[FlusherLine]) -> bool
    ensures { result ≡ have_flushers_value devices flushers.now }
{
    for device in 0..devices {
        if !has_flusher(device, flushers) {
            return false;
        }
    }
    true
}

impl Builder {
    fn missing(&self) -> Option<Missing>
        ensures { result ≡ missing_in (seen self.now) }
    {
        if self.cpus.is_none() {
            return Some(Missing::Cpus);
        }
        if self.avail.len() == 0 {
            return Some(Missing::Avail);
        }
        if have_flushers(self.devices.len() as u32, self.flushers.as_slice()) {
            return None;
        }
        Some(Missing::Flusher)
    }

    fn into_trace(self) -> Trace
        ensures { result ≡ trace_so_far (seen self) }
    {
        Trace {
            cpus: self.cpus.unwrap_or(0),
            cap: self.cap.unwrap_or(MOST_CAP),
            settings: Settings {
                ratio: self.ratio.unwrap_or(DEFAULT_RATIO),
                bg_ratio: self.bg_ratio.unwrap_or(DEFAULT_BACKGROUND_RATIO),
                bytes: self.bytes.unwrap_or(0),
                bg_bytes: self.bg_bytes.unwrap_or(0),
            },
            avail: Items::from_vec(self.avail),
            devices: Items::from_vec(self.devices),
            cgroups: Items::from_vec(self.cgroups),
            contexts: Items::from_vec(self.contexts),
            inodes: Items::from_vec(self.inodes),
            tasks: Items::from_vec(self.tasks),
            flushers: Items::from_vec(self.flushers),
            actions: Items::from_vec(self.actions),
            order: Items::from_vec(self.order),
            halt: self.halt,
        }
    }

    /// The trace, or what is missing.
    pub fn finish(self) -> Result<Trace, TraceFault>
        ensures { result ≡ end_of (seen self) }
    {
        match self.missing() {
            Some(what) => Err(TraceFault::Missing { what }),
            None => Ok(self.into_trace()),
        }
    }
}
