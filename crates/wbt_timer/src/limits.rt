//! The limits of a turn.

ghost use Rattle.std.specs.Prelude.{◌≡◌, ◌+◌, ◌++◌, ◌<◌, ◌≤◌, ◌^◌, All, IsTrue, false, get_or, length, set};
ghost use Rattle.std.specs.Vec.{vec_capacity, vec_len};
ghost use Rattle.wbt_num.specs.Limits.{IsLawful};
ghost use Rattle.wbt_num.specs.declared.limits.TheConstants.{MAX_LIMIT};
ghost use Rattle.wbt_rules.specs.Thresholds.{DomainFits};
ghost use Rattle.wbt_kit.specs.Kit.{AreSeatsOf, HasTimer};
ghost use Rattle.wbt_table.specs.Layout.{domains};
ghost use Rattle.wbt_table.specs.declared.answer.Put.TheVariants.{Stopped};
ghost use Rattle.wbt_timer.specs.Gate.{AskedBeforePublishing, LoadsCount};
ghost use Rattle.wbt_timer.specs.Kinds.{CutsTurn, HasSealed, PutSteps, TakesTurn};
ghost use Rattle.wbt_timer.specs.Turn as spec;
ghost use Rattle.wbt_timer.specs.Turn.{Counted, IsTimerStopped, Published, PublishedFirst, PublishedSome, line_for, no_side, side_after};

use crate::side::DomainSide;
use wbt_counter::{Count, Counter};
use wbt_grant::Who;
use wbt_io::Gate;
use wbt_journal::TimerEntry;
use wbt_kit::{Kit, Seats};
use wbt_num::Limits;
use wbt_rules::{limits_after, thresholds_at};
use wbt_table::Put;
use wbt_trace::Trace;

// For each domain in order: the step `count`, and the limits by its reading; the step `peak`, and those that publish; and the line, where
// the limits were published. False where the gate stopped a publication, which was the last then.
pub fn publish_each<G: Gate>(
    machine: &Trace,
    sides: &mut Vec<DomainSide>,
    kit: &Kit,
    seats: &mut Seats,
    now: u64,
    gate: &G,
    log: &mut Vec<TimerEntry>,
) -> bool
    requires fits { (domain : _) → domain < length sides.old.items → DomainFits machine.now domain }
    requires few { length sides.old.items < 2 ^ 31 }
    requires hards { All (λ s. s.hard ≤ MAX_LIMIT) sides.old.items }
    requires there { length sides.old.items ≡ domains kit.now.throttle.layout }
    requires seats { AreSeatsOf kit.now seats.old }
    requires timer { (r : _) × HasTimer r seats.old }
    requires room { vec_len log.old + length sides.old.items ≤ vec_capacity log.old }
    ensures seats { AreSeatsOf kit.now seats.new }
    ensures all { IsTrue result → (global : _) × PublishedFirst machine.now now (length sides.old.items) global sides.old.items sides.new.items seats.old seats.new log.old.items log.new.items }
    ensures some { result ≡ false → (global : _) × PublishedSome machine.now now global sides.old.items sides.new.items seats.old seats.new log.old.items log.new.items }
    ensures stopped { result ≡ false → IsTimerStopped (G.said gate.now kit.now.throttle.layout.cpus) seats.new }
    ensures asked { AskedBeforePublishing kit.now (G.said gate.now kit.now.throttle.layout.cpus) seats.old seats.new }
    ensures takes_turn { IsTrue result → HasSealed seats.old → TakesTurn (length sides.old.items) seats.old seats.new }
    ensures cuts_turn { result ≡ false → HasSealed seats.old → CutsTurn (length sides.old.items) seats.old seats.new }
    ensures hards { All (λ s. s.hard ≤ MAX_LIMIT) sides.new.items }
    ensures room { (vec_len log.new ≤ vec_len log.old + length sides.old.items) × (vec_capacity log.new ≡ vec_capacity log.old) }
{
    let mut global = 0;
    for domain in 0..sides.len() as u32 {
        let count = read(kit, seats, domain);
        if domain == 0 {
            global = count.reading();
        }
        let before = sides[domain as usize].hard;
        let limits = limits_by(machine, now, domain, global, before, &count);
        let put = publish(kit, seats, domain, limits, gate);
        note(put, domain, now, limits, sides, log);
        if !is_through(put) {
            return false;
        }
    }
    true
}

// What was published is kept and told.
fn note(
    put: Put,
    domain: u32,
    now: u64,
    limits: Limits,
    sides: &mut Vec<DomainSide>,
    log: &mut Vec<TimerEntry>,
)
    requires there { domain < length sides.old.items }
    requires room { vec_len log.old < vec_capacity log.old }
    ensures side { sides.new.items ≡ set sides.old.items domain (side_after put now limits (get_or sides.old.items domain no_side)) }
    ensures line { log.new.items ≡ log.old.items ++ line_for put domain now limits }
    ensures room { (vec_len log.new ≤ vec_len log.old + 1) × (vec_capacity log.new ≡ vec_capacity log.old) }
{
    match put {
        Put::Done => {
            let owed = sides[domain as usize].owed;
            sides[domain as usize] = DomainSide {
                hard: limits.hard,
                at: now,
                owed,
            };
            log.push_reserved(TimerEntry::Limits {
                domain,
                now,
                limits,
            });
        }
        Put::Stopped => {}
        Put::Last => {}
    }
}

// Whether the gate let a publication go on.
fn is_through(put: Put) -> bool
    ensures { result ≡ spec.is_through put }
{
    match put {
        Put::Done => true,
        Put::Stopped => false,
        Put::Last => true,
    }
}

// The step `count`.
fn read(kit: &Kit, seats: &mut Seats, domain: u32) -> Count
    requires there { domain < domains kit.now.throttle.layout }
    requires seats { AreSeatsOf kit.now seats.old }
    requires timer { (r : _) × HasTimer r seats.old }
    ensures seats { AreSeatsOf kit.now seats.new }
    ensures counted { Counted domain result seats.old seats.new }
    ensures step { LoadsCount kit.now domain seats.old seats.new }
{
    kit.throttle
        .load_count(&mut seats.cpu, Who::Timer, Counter::Domain(domain))
}

// The limits of a domain at a moment, where the global domain reads so many pages, by its own count and its hard limit before.
fn limits_by(
    machine: &Trace,
    now: u64,
    domain: u32,
    global: u64,
    before: u64,
    count: &Count,
) -> Limits
    requires { DomainFits machine.now domain }
    ensures { result ≡ spec.limits_by machine.now now domain global before count.now }
{
    let reading = count.reading();
    let pair = thresholds_at(machine, now, domain, global, reading);
    limits_after(pair, before, reading)
}

// The step `peak`, and those that publish.
fn publish<G: Gate>(kit: &Kit, seats: &mut Seats, domain: u32, limits: Limits, gate: &G) -> Put
    requires there { domain < domains kit.now.throttle.layout }
    requires lawful { IsLawful limits }
    requires seats { AreSeatsOf kit.now seats.old }
    requires timer { (r : _) × HasTimer r seats.old }
    ensures seats { AreSeatsOf kit.now seats.new }
    ensures published { Published domain limits result seats.old seats.new }
    ensures steps { HasSealed seats.old → PutSteps result seats.old seats.new }
    ensures stopped { result ≡ Stopped → IsTimerStopped (G.said gate.now kit.now.throttle.layout.cpus) seats.new }
    ensures asked { AskedBeforePublishing kit.now (G.said gate.now kit.now.throttle.layout.cpus) seats.old seats.new }
{
    kit.throttle.raise_peak(&mut seats.cpu, domain, limits.hard);
    kit.throttle.publish(&mut seats.cpu, domain, limits, gate)
}
