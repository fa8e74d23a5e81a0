//! What a check or an update of an estimate decides by, of what it read of a domain.

ghost use Rattle.std.specs.Prelude.{◌≡◌, ◌<◌, ◌≤◌, ◌^◌, length};
ghost use Rattle.wbt_num.specs.Limits.{IsLawful};
ghost use Rattle.wbt_rules.specs.Things.{context_at, device_at};
ghost use Rattle.wbt_trace.specs.Sofar.{least_shares as least_value};
ghost use Rattle.wbt_journal.specs.Checks as spec;

use crate::entry::DomainLine;
use wbt_position::DomainRead;
use wbt_rules::{context_device, least_shares, part_read};
use wbt_trace::Trace;

impl DomainLine {
    /// The line's limits, the pages that its count reads, and the context's part of the threshold by its fraction, in pages, which is at
    /// most the threshold.
    pub fn read_for(&self, trace: &Trace, context: u32) -> DomainRead
        requires context { context < length trace.now.contexts }
        requires device { (context_at trace.now context).device < length trace.now.devices }
        requires min { (device_at trace.now (context_at trace.now context).device).min ≤ (device_at trace.now (context_at trace.now context).device).max }
        requires max { (device_at trace.now (context_at trace.now context).device).max ≤ 100 }
        requires least { least_value trace.now.devices ≤ 100 }
        requires lawful { IsLawful self.now.limits }
        requires num { self.now.share.num ≤ self.now.share.den }
        requires den { 1 ≤ self.now.share.den }
        requires few { self.now.share.den < 2 ^ 41 }
        ensures value { result ≡ spec.domain_read trace.now context self.now }
        ensures part { result.wb_thresh ≤ self.now.limits.thresh }
    {
        part_read(
            &context_device(trace, context),
            least_shares(trace.devices.as_slice()),
            &self.limits,
            &self.share,
            self.count.reading(),
        )
    }
}
