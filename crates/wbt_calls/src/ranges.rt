//! Which numbers are taken.

ghost use Rattle.std.specs.Prelude.{◌≡◌, ◌↔◌, false};
ghost use Rattle.wbt_num.specs.Limits.{IsLawful};
ghost use Rattle.wbt_pause.specs.Reads.{IsCounted};
ghost use Rattle.wbt_strict.specs.Claims.{ArePartsWithin};
ghost use Rattle.wbt_calls.specs.Crossing.{limits_in, reads_of, task_of};
ghost use Rattle.wbt_calls.specs.Ranges as spec;

use crate::status::{
    BAD_CAP, BAD_CGROUP, BAD_CONTEXT, BAD_CPUS, BAD_DOMAIN, BAD_ESTIMATE, BAD_FLAG, BAD_NOW,
    BAD_PART, BAD_WRITER, OK,
};
use crate::types::{Check, Domain, Writer};
use wbt_num::{MAX_LIMIT, MOST_CPUS};

/// The greatest cap.
pub const MOST_LEFT: u64 = 1024;

/// The most pages that a writer counts: 2^52 - 1.
pub const MOST_DIRTIED: u64 = 4503599627370495;

/// The most pages of a context: 2^33 - 1.
pub const MOST_DIRTY: u64 = 8589934591;

/// The last moment: 2^62 - 1.
pub const MOST_MOMENT: u64 = 4611686018427387903;

/// The greatest rate, in pages a second: 2^44 - 1.
pub const MOST_RATE: u64 = 17592186044415;

/// Whether a number isn't 1 to `most`.
pub fn is_out(n: u64, most: u64) -> bool
    ensures { result ≡ spec.is_out n most }
{
    n == 0 || n > most
}

/// Whether the limits of a domain aren't lawful.
pub fn is_unlawful(domain: &Domain) -> bool
    ensures value { result ≡ spec.is_unlawful domain.now }
    ensures lawful { result ≡ false ↔ IsLawful (limits_in domain.now) }
{
    domain.bg > domain.thresh || domain.thresh > domain.hard || domain.hard > MAX_LIMIT
}

/// Whether a writer's counts leave no room.
pub fn is_overfull(writer: &Writer) -> bool
    ensures value { result ≡ spec.is_overfull writer.now }
    ensures counted { result ≡ false ↔ IsCounted (task_of writer.now) }
{
    writer.nr_dirtied > MOST_DIRTIED || writer.nr_dirtied_pause > MOST_DIRTIED
}

/// The status of a check.
pub fn status_of(check: &Check) -> u32
    ensures value { result ≡ spec.status_of check.now }
    ensures taken { result ≡ OK ↔ spec.IsTaken check.now }
{
    let status = status_of_reads(check);
    if status == OK {
        status_of_rest(check)
    } else {
        status
    }
}

/// The status of a check in a context of a strict device.
pub fn strict_status_of(check: &Check) -> u32
    ensures value { result ≡ spec.strict_status_of check.now }
    ensures taken { result ≡ OK ↔ spec.IsStrictlyTaken check.now }
{
    if is_part_above(check) {
        return BAD_PART;
    }
    status_of(check)
}

// Whether the context's threshold is above its domain's, in some domain.
fn is_part_above(check: &Check) -> bool
    ensures value { result ≡ spec.is_part_above check.now }
    ensures parts { result ≡ false ↔ ArePartsWithin (reads_of check.now) }
{
    check.global.wb_thresh > check.global.thresh
        || (check.has_cgroup != 0 && check.cgroup.wb_thresh > check.cgroup.thresh)
}

// Of its machine and its domains.
fn status_of_reads(check: &Check) -> u32
    ensures value { result ≡ spec.status_of_reads check.now }
    ensures taken { result ≡ OK ↔ spec.AreReadsTaken check.now }
{
    if is_out(check.cpus, MOST_CPUS as u64) {
        BAD_CPUS
    } else if is_out(check.cap, MOST_LEFT) {
        BAD_CAP
    } else if check.wb_dirty > MOST_DIRTY {
        BAD_CONTEXT
    } else if is_unlawful(&check.global) {
        BAD_DOMAIN
    } else if check.has_cgroup > 1 {
        BAD_FLAG
    } else if check.has_cgroup == 1 && is_unlawful(&check.cgroup) {
        BAD_CGROUP
    } else {
        OK
    }
}

// Of the writer, the rates and the moment.
fn status_of_rest(check: &Check) -> u32
    ensures value { result ≡ spec.status_of_rest check.now }
    ensures taken { result ≡ OK ↔ spec.IsRestTaken check.now }
{
    if is_overfull(&check.writer) {
        BAD_WRITER
    } else if is_out(check.avg, MOST_RATE) || check.ratelimit == 0 {
        BAD_ESTIMATE
    } else if check.moment > MOST_MOMENT {
        BAD_NOW
    } else {
        OK
    }
}
