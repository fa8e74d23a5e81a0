//! The thresholds of a domain at a moment, and its limits under them.

ghost use Rattle.std.specs.Prelude.{◌≡◌, ◌<◌, length};
ghost use Rattle.wbt_num.specs.Limits.{IsLawful};
ghost use Rattle.wbt_rules.specs.Thresholds as spec;
ghost use Rattle.wbt_rules.specs.Thresholds.{DomainFits};

use wbt_limits::{Pair, cgroup_avail, follow_limit, thresholds};
use wbt_num::Limits;
use wbt_trace::{Avail, Cgroup, Trace};

/// The thresholds of a domain at a moment, in pages, where the global domain and the domain itself read so many pages.
pub fn thresholds_at(trace: &Trace, moment: u64, domain: u32, global: u64, reading: u64) -> Pair
    requires { DomainFits trace.now domain }
    ensures { result ≡ spec.thresholds_at trace.now moment domain global reading }
{
    let avail = avail_at(moment, trace.avail.as_slice());
    if domain == 0 {
        return thresholds(avail, &trace.settings, None);
    }
    let cgroup = cgroup_of(trace, domain - 1);
    let pages = cgroup_avail(cgroup.filepages, cgroup.headroom, reading, avail, global);
    thresholds(pages, &trace.settings, Some(avail))
}

fn cgroup_of(trace: &Trace, cgroup: u32) -> Cgroup
    requires { cgroup < length trace.now.cgroups }
    ensures { result ≡ spec.cgroup_of trace.now cgroup }
{
    trace.cgroups.as_slice()[cgroup as usize]
}

/// The limits under these thresholds, in pages, where the hard limit was `before` and the domain reads so many pages: the
/// hard limit follows.
pub fn limits_after(pair: Pair, before: u64, reading: u64) -> Limits
    ensures { result ≡ spec.limits_after pair before reading }
{
    let following = follow_limit(before, pair.thresh, reading);
    Limits {
        thresh: pair.thresh,
        bg: pair.bg,
        hard: pair.thresh.max(following),
    }
}

/// The first limits of a domain, in pages, at the moment of the opening: no page is counted, and the hard limit is the threshold.
pub fn first_limits(trace: &Trace, moment: u64, domain: u32) -> Limits
    requires { DomainFits trace.now domain }
    ensures value { result ≡ spec.first_limits trace.now moment domain }
    ensures lawful { IsLawful result }
{
    let Pair { thresh, bg } = thresholds_at(trace, moment, domain, 0, 0);
    Limits {
        thresh,
        bg,
        hard: thresh,
    }
}

/// The available pages at a moment: those of the last `avail` line whose tick is at most the moment, or 0.
pub fn avail_at(now: u64, avail: &[Avail]) -> u64
    ensures { result ≡ spec.avail_among now 0 avail.now }
{
    let mut pages = 0;
    for line in avail {
        if line.from <= now {
            pages = line.pages;
        }
    }
    pages
}
