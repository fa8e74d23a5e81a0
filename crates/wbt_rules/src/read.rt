//! What is read of a domain for a context.

ghost use Rattle.std.specs.Prelude.{◌≡◌, ◌<◌, ◌≤◌, ◌^◌};
ghost use Rattle.wbt_num.specs.Limits.{IsLawful};
ghost use Rattle.wbt_rules.specs.Read as spec;

use wbt_flex::Fraction;
use wbt_limits::wb_thresh;
use wbt_num::Limits;
use wbt_position::DomainRead;
use wbt_trace::Device;

/// What is read of a domain for a context of the device: the limits, `dirty` pages, and the context's part of the threshold in
/// pages, where `share` is its fraction of the domain and `least` the least shares of all devices together, in percent.
pub fn part_read(
    device: &Device,
    least: u32,
    limits: &Limits,
    share: &Fraction,
    dirty: u64,
) -> DomainRead
    requires lawful { IsLawful limits.now }
    requires num { share.now.num ≤ share.now.den }
    requires den { 1 ≤ share.now.den }
    requires few { share.now.den < 2 ^ 41 }
    requires least { least ≤ 100 }
    requires min { device.now.min ≤ device.now.max }
    requires max { device.now.max ≤ 100 }
    ensures value { result ≡ spec.part_read device.now least limits.now share.now dirty }
    ensures part { result.wb_thresh ≤ limits.now.thresh }
{
    DomainRead {
        limits: *limits,
        dirty,
        wb_thresh: wb_thresh(
            limits.thresh,
            share.num,
            share.den,
            least,
            device.min,
            device.max,
        ),
    }
}
