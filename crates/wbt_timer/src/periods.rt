//! The periods of a turn.

ghost use Rattle.std.specs.Prelude.{◌≡◌, ◌+◌, ◌<◌, ◌≤◌, ◌^◌, All, length};
ghost use Rattle.std.specs.Vec.{vec_capacity, vec_len};
ghost use Rattle.wbt_kit.specs.Kit.{AreSeatsOf};
ghost use Rattle.wbt_timer.specs.Turn.{Tried, TriedEach};

use crate::side::DomainSide;
use wbt_journal::TimerEntry;
use wbt_kit::{Kit, Seats};

// In each domain so many periods that have come, with those that are owed, begin at once.
pub fn begin_each(
    sides: &mut Vec<DomainSide>,
    come: u64,
    kit: &Kit,
    seats: &mut Seats,
    log: &mut Vec<TimerEntry>,
)
    requires few { length sides.old.items < 2 ^ 31 }
    requires there { length sides.old.items ≡ length kit.now.shares.domains }
    requires owed { All (λ s. s.owed + come < 2 ^ 63) sides.old.items }
    requires seats { AreSeatsOf kit.now seats.old }
    requires room { vec_len log.old + length sides.old.items ≤ vec_capacity log.old }
    ensures seats { AreSeatsOf kit.now seats.new }
    ensures each { TriedEach come (length sides.old.items) sides.old.items sides.new.items seats.old seats.new log.old.items log.new.items }
{
    for domain in 0..sides.len() as u32 {
        let k = sides[domain as usize].owed + come;
        let owed = begin(kit, seats, domain, k, log);
        sides[domain as usize].owed = owed;
    }
}

// Begins so many periods of a domain at once, and answers how many are owed: all, where another thread came between.
fn begin(kit: &Kit, seats: &mut Seats, domain: u32, k: u64, log: &mut Vec<TimerEntry>) -> u64
    requires there { domain < length kit.now.shares.domains }
    requires seats { AreSeatsOf kit.now seats.old }
    requires room { vec_len log.old < vec_capacity log.old }
    ensures seats { AreSeatsOf kit.now seats.new }
    ensures tried { Tried domain k result seats.old seats.new log.old.items log.new.items }
    ensures room { (vec_len log.new ≤ vec_len log.old + 1) × (vec_capacity log.new ≡ vec_capacity log.old) }
{
    if k == 0 {
        return 0;
    }
    match kit.shares.new_period(&mut seats.share, domain, k) {
        Ok(true) => {
            log.push_reserved(TimerEntry::Period { domain, k });
            0
        }
        Ok(false) => 0,
        Err(_) => k,
    }
}
