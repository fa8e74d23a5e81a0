//! What a check reads besides its loads: fractions of its domains, with the one that is kept where another thread came between.

ghost use Rattle.std.specs.Prelude.{◌≡◌, ◌<◌, IfSome, length};
ghost use Rattle.wbt_fraction.specs.Several.{HasShare, IsSeatOf};
ghost use Rattle.wbt_writer.specs.Desk.{AreProper, IsProper};
ghost use Rattle.wbt_writer.specs.Lines as spec;
ghost use Rattle.wbt_writer.specs.Lines.{HasLines, LinesRead, ReadsGroup, ReadsShare};
ghost use Rattle.wbt_writer.specs.Loads.{IsGroup};

use crate::loads::Loads;
use crate::work::Fractions;
use wbt_flex::Fraction;
use wbt_fraction::{ShareSeat, Shares};
use wbt_journal::DomainLine;
use wbt_run_steps::DomainLoad;

/// What a check reads of its domains.
#[derive(Clone, Copy)]
pub struct Lines {
    pub global: DomainLine,
    /// Of the context's cgroup, where it has one.
    pub cgroup: Option<DomainLine>,
}

/// The lines of a check of a context, which has these fractions so far.
pub fn read_lines(
    context: u32,
    loads: &Loads,
    kept: Fractions,
    shares: &Shares,
    seat: &mut ShareSeat,
) -> Lines
    requires seat { IsSeatOf shares.now seat.old }
    requires domain { 0 < length shares.now.domains }
    requires context { context < length shares.now.homes }
    requires group { IfSome loads.now.group (λ load. (load.domain < length shares.now.domains) × HasShare shares.now.homes load.domain context) }
    requires kept { AreProper kept }
    ensures seat { IsSeatOf shares.now seat.new }
    ensures lines { HasLines loads.now result }
    ensures read { LinesRead context result kept seat.old seat.new }
    ensures proper { AreProper (spec.fractions_after result kept) }
{
    let share = read_share(0, context, kept.global, shares, seat);
    let global = line_of(0, &loads.global, share);
    let cgroup = read_group(context, &loads.group, kept.group, shares, seat);
    Lines { global, cgroup }
}

// The line of the context's cgroup, where it has one.
fn read_group(
    context: u32,
    load: &Option<DomainLoad>,
    kept: Fraction,
    shares: &Shares,
    seat: &mut ShareSeat,
) -> Option<DomainLine>
    requires seat { IsSeatOf shares.now seat.old }
    requires group { IfSome load.now (λ load. (load.domain < length shares.now.domains) × HasShare shares.now.homes load.domain context) }
    requires kept { IsProper kept }
    ensures seat { IsSeatOf shares.now seat.new }
    ensures line { spec.HasGroupLine load.now result }
    ensures read { ReadsGroup context result kept seat.old seat.new }
    ensures proper { IsProper (spec.share_after result kept) }
{
    match load {
        None => None,
        Some(load) => {
            let share = read_share(load.domain, context, kept, shares, seat);
            Some(line_of(load.domain, load, share))
        }
    }
}

// The fraction of a context in a domain; the one that is kept where a period began between the looks.
fn read_share(
    domain: u32,
    context: u32,
    kept: Fraction,
    shares: &Shares,
    seat: &mut ShareSeat,
) -> Fraction
    requires seat { IsSeatOf shares.now seat.old }
    requires domain { domain < length shares.now.domains }
    requires share { HasShare shares.now.homes domain context }
    requires kept { IsProper kept }
    ensures seat { IsSeatOf shares.now seat.new }
    ensures read { ReadsShare domain context result kept seat.old seat.new }
    ensures proper { IsProper result }
{
    match shares.read(seat, domain, context) {
        Ok(fraction) => fraction,
        Err(_) => kept,
    }
}

fn line_of(domain: u32, load: &DomainLoad, share: Fraction) -> DomainLine
    ensures { result ≡ record { domain = domain; triple = load.now.version; limits = load.now.limits; count = load.now.count; share = share } }
{
    DomainLine {
        domain,
        triple: load.version,
        limits: load.limits,
        count: load.count,
        share,
    }
}

/// The fractions that are kept then.
pub fn fractions_after(lines: &Lines, kept: Fractions) -> Fractions
    ensures { result ≡ spec.fractions_after lines.now kept }
{
    let group = match lines.cgroup {
        None => kept.group,
        Some(line) => line.share,
    };
    Fractions {
        global: lines.global.share,
        group,
    }
}
