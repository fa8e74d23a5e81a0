//! Contexts of strict devices.

ghost use Rattle.std.specs.Prelude.{◌≡◌, ◌<◌, ◌≤◌, ◌↔◌, IsTrue, length};
ghost use Rattle.wbt_limits.specs.Context.{context_background};
ghost use Rattle.wbt_num.specs.Limits.{IsLawful};
ghost use Rattle.wbt_rules.specs.Strict as spec;
ghost use Rattle.wbt_rules.specs.Things.{context_at};

use crate::things::context_device;
use wbt_limits::wb_bg;
use wbt_position::DomainRead;
use wbt_trace::Trace;

/// Whether the context is one of a strict device, which holds it to its own part of each threshold.
#[tactic(auto, unfolding(crate::specs::Strict::is_strict))]
pub fn is_strict(trace: &Trace, context: u32) -> bool
    requires context { context < length trace.now.contexts }
    requires device { (context_at trace.now context).device < length trace.now.devices }
    ensures { result ≡ spec.is_strict trace.now context }
{
    context_device(trace, context).strict
}

/// Whether a context that reads so many pages is over its own part of the domain's background threshold.
pub fn is_over_own(reading: u64, read: &DomainRead) -> bool
    requires lawful { IsLawful read.now.limits }
    requires part { read.now.wb_thresh ≤ read.now.limits.thresh }
    ensures value { result ≡ spec.is_over_own reading read.now }
    ensures over { IsTrue result ↔ (context_background read.now.wb_thresh read.now.limits.bg read.now.limits.thresh < reading) }
{
    wb_bg(read.wb_thresh, read.limits.bg, read.limits.thresh) < reading
}
