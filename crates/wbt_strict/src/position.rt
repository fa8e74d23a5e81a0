//! The position ratio of a context of a strict device.

ghost use Rattle.std.specs.Prelude.{◌≡◌, ◌+◌, ◌/◌, ◌<◌, ◌≤◌};
ghost use Rattle.wbt_num.specs.Limits.{IsLawful};
ghost use Rattle.wbt_limits.specs.Limits.{setpoint as setpoint_of};
ghost use Rattle.wbt_position.specs.Polynom.{polynom_value};
ghost use Rattle.wbt_strict.specs.Position as spec;

use wbt_limits::wb_bg;
use wbt_position::{DomainRead, polynom, setpoint};

/// A context with fewer pages than these isn't held back by its own threshold.
pub const FEW_PAGES: u64 = 8;

/// How fast the writers of a context of a strict device may go, in 1024ths of its rate limit. It is 0 from the domain's hard limit
/// on, and from the context's threshold on. Below them it is at most what the domain's pages allow, by the polynomial, and what the
/// context's own pages allow: the polynomial between the middle of its background threshold and its threshold, and the threshold. With
/// fewer than 8 pages the context goes twice as fast as the domain's pages allow. `wb_dirty` is the context's dirty pages, those
/// under writeback among them. The kernel's `wb_position_ratio` of a device with BDI_CAP_STRICTLIMIT.
///
/// Requires: lawful limits, and a threshold of the context of at most that of its domain.
#[tactic(auto, unfolding(crate::specs::Position::strict_ratio))]
pub fn strict_position(read: &DomainRead, wb_dirty: u64) -> u64
    requires lawful { IsLawful read.now.limits }
    requires part { read.now.wb_thresh ≤ read.now.limits.thresh }
    ensures value { result ≡ spec.strict_ratio read.now wb_dirty }
    ensures at_most { result ≤ 2048 }
    ensures none_at_the_limit { read.now.limits.hard ≤ read.now.dirty → result ≡ 0 }
    ensures none_at_the_threshold { FEW_PAGES ≤ wb_dirty → read.now.wb_thresh ≤ wb_dirty → result ≡ 0 }
    ensures not_above_the_domain { FEW_PAGES ≤ wb_dirty → result ≤ polynom_value (setpoint_of read.now.limits) read.now.dirty read.now.limits.hard }
{
    if read.limits.hard <= read.dirty {
        return 0;
    }
    let p = polynom(setpoint(&read.limits), read.dirty, read.limits.hard);
    if wb_dirty < FEW_PAGES {
        return (2 * p).min(2048);
    }
    if read.wb_thresh <= wb_dirty {
        return 0;
    }
    let middle = middle(read);
    if middle == 0 {
        return 0;
    }
    if middle == read.wb_thresh {
        return 0;
    }
    p.min(polynom(middle, wb_dirty, read.wb_thresh))
}

/// Where the control holds the context, in pages: the middle of its background threshold and its threshold.
pub fn middle(read: &DomainRead) -> u64
    requires lawful { IsLawful read.now.limits }
    requires part { read.now.wb_thresh ≤ read.now.limits.thresh }
    ensures value { result ≡ spec.context_middle read.now }
    ensures below { result ≤ read.now.wb_thresh }
{
    (read.wb_thresh + wb_bg(read.wb_thresh, read.limits.bg, read.limits.thresh)) / 2
}
