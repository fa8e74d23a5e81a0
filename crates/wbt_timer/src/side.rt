//! What the timer keeps between its turns.

ghost use Rattle.std.specs.Prelude.{◌≡◌, ◌+◌, ◌<◌, ◌≤◌, ◌^◌, ◌++◌, length, IfOk, IfErr};
ghost use Rattle.std.specs.Vec.{vec_capacity, vec_len};
ghost use Rattle.wbt_trace.specs.Lawful.{IsLawful};
ghost use Rattle.wbt_journal.specs.Machine.{domains};
ghost use Rattle.wbt_rules.specs.Thresholds.{DomainFits, first_limits as limits_at};
ghost use Rattle.wbt_run_laws.specs.Closed.{opening_lines, first_lines};
ghost use Rattle.wbt_timer.specs.Side as spec;
ghost use Rattle.wbt_timer.specs.Side.{IsTimerOf, IsFirstSide};

use std::alloc::Global;
use std::marker::Model;
use wbt_io::NoMemory;
use wbt_journal::TimerEntry;
use wbt_num::Items;
use wbt_rules::{PERIOD_TICKS, TIMER_REST, domains_of, first_limits};
use wbt_trace::Trace;

/// What the timer keeps of a domain.
#[derive(Clone, Copy, Debug, PartialEq, Eq)]
pub struct DomainSide {
    /// The hard limit that it published last, in pages.
    pub hard: u64,
    /// The moment at which it did, in ticks; first that of the opening.
    pub at: u64,
    /// How many periods are still to begin, since another thread came between each time.
    pub owed: u64,
}

/// The timer between two turns.
#[derive(Drop)]
pub struct TimerSide {
    // Of the trace: its settings, available pages and cgroups.
    pub(crate) machine: Trace,
    // The moment of its last turn; first that of the opening.
    pub(crate) last: u64,
    // The moment at which the next periods begin.
    pub(crate) period: u64,
    // By number.
    pub(crate) domains: Vec<DomainSide>,
}

impl Model for TimerSide {
    ghost use Rattle.wbt_timer.specs.Side.{Side, IsSide};

    ghost Value = { Side };

    ghost view = { λ s. record { machine = s.machine; last = s.last; period = s.period; domains = s.domains.items } };

    ghost invariant = { λ s. IsSide (record { machine = s.machine; last = s.last; period = s.period; domains = s.domains.items }) };
}

impl TimerSide {
    /// The timer of a trace whose opening was at the moment `now`, in ticks. It logs the first limits of each domain. Where
    /// memory is refused nothing is logged.
    pub fn make(
        alloc: Global,
        trace: &Trace,
        now: u64,
        log: &mut Vec<TimerEntry>,
    ) -> Result<TimerSide, NoMemory>
        requires lawful { IsLawful trace.now }
        requires moment { now < 2 ^ 62 }
        ensures timer { IfOk result (λ side. IsTimerOf trace.now side) }
        ensures first { IfOk result (λ side. IsFirstSide trace.now now side) }
        ensures logged { IfOk result (λ _. log.new.items ≡ log.old.items ++ opening_lines trace.now now (limits_at trace.now now)) }
        ensures refused { IfErr result (λ _. log.new.items ≡ log.old.items) }
    {
        let machine = machine_of(alloc, trace)?;
        let domains = first_sides(alloc, trace, now)?;
        log.reserve(domains.len())?;
        log_first(trace, now, log);
        Ok(TimerSide {
            machine,
            last: now,
            period: now + PERIOD_TICKS,
            domains,
        })
    }

    // The moment of the next turn.
    pub(crate) fn next(&self) -> u64
        ensures { result ≡ spec.next_of self.now }
    {
        self.last + TIMER_REST
    }
}

// What the timer needs of a trace.
fn machine_of(alloc: Global, trace: &Trace) -> Result<Trace, NoMemory>
    ensures settings { IfOk result (λ machine. machine.settings ≡ trace.now.settings) }
    ensures avail { IfOk result (λ machine. machine.avail ≡ trace.now.avail) }
    ensures cgroups { IfOk result (λ machine. machine.cgroups ≡ trace.now.cgroups) }
{
    Ok(Trace {
        cpus: trace.cpus,
        cap: trace.cap,
        settings: trace.settings,
        avail: Items::from_vec(trace.avail.as_slice().to_vec(alloc)?),
        devices: Items::new(alloc),
        cgroups: Items::from_vec(trace.cgroups.as_slice().to_vec(alloc)?),
        contexts: Items::new(alloc),
        inodes: Items::new(alloc),
        tasks: Items::new(alloc),
        flushers: Items::new(alloc),
        actions: Items::new(alloc),
        order: Items::new(alloc),
        halt: None,
    })
}

fn first_sides(alloc: Global, trace: &Trace, now: u64) -> Result<Vec<DomainSide>, NoMemory>
    requires few { length trace.now.cgroups < 2 ^ 31 }
    requires fits { (domain : _) → domain < domains trace.now → DomainFits trace.now domain }
    ensures { IfOk result (λ sides. sides.items ≡ spec.first_sides trace.now now (domains trace.now)) }
{
    let mut sides = Vec::new(alloc);
    for domain in 0..domains_of(trace) {
        sides.push(DomainSide {
            hard: first_limits(trace, now, domain).hard,
            at: now,
            owed: 0,
        })?;
    }
    Ok(sides)
}

// Logs the first limits of each domain. There is room for them.
fn log_first(trace: &Trace, now: u64, log: &mut Vec<TimerEntry>)
    requires few { length trace.now.cgroups < 2 ^ 31 }
    requires fits { (domain : _) → domain < domains trace.now → DomainFits trace.now domain }
    requires room { vec_len log.old + domains trace.now ≤ vec_capacity log.old }
    ensures { log.new.items ≡ log.old.items ++ opening_lines trace.now now (limits_at trace.now now) }
{
    for domain in 0..domains_of(trace) {
        log.push_reserved(TimerEntry::Limits {
            domain,
            now,
            limits: first_limits(trace, now, domain),
        });
    }
}
