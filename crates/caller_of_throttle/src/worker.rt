//! A worker: it dirties pages of its own, and cleans them.

ghost use Rattle.std.specs.Prelude.{◌≡◌, ◌<◌};
ghost use Rattle.wbt_table.specs.declared.answer.Claim.TheVariants.{Mine};
ghost use Rattle.wbt_table.specs.Layout.{setting};
ghost use Rattle.wbt_table.specs.Callers.{StepsFor, HasClaimed, MayWrite};
ghost use Rattle.caller_of_throttle.specs.Work.{IsPart, Worked};

use wbt_io::Gate;
use wbt_table::{Claim, CpuSeat, Throttle};

/// What a worker does: the pages from `first` on are its own, so many, and each writer of its CPU dirties 32 of them.
#[derive(Clone, Copy)]
pub struct Part {
    pub cpu: u32,
    /// Its first writer.
    pub writer: u32,
    pub first: u32,
    pub pages: u32,
}

/// Dirties the pages of a part in turn, and pays for each. How many were paid for: the gate may stop the CPU before.
pub fn dirty_part<G: Gate>(throttle: &Throttle, seat: &mut CpuSeat, part: Part, gate: &G) -> u32
    requires seat { StepsFor throttle.now part.cpu seat.old }
    requires part { IsPart throttle.now.layout part }
    ensures { Worked throttle.now part.cpu seat.old seat.new }
{
    for i in 0..part.pages {
        let writer = part.writer + i / 32;
        if !dirty_page(throttle, seat, part.cpu, writer, part.first + i, gate) {
            return i;
        }
    }
    part.pages
}

/// Claims and completes the pages of a part in turn, and pays for each. How many were paid for: the gate may stop the CPU before.
pub fn clean_part<G: Gate>(throttle: &Throttle, seat: &mut CpuSeat, part: Part, gate: &G) -> u32
    requires seat { StepsFor throttle.now part.cpu seat.old }
    requires part { IsPart throttle.now.layout part }
    ensures { Worked throttle.now part.cpu seat.old seat.new }
{
    for i in 0..part.pages {
        if !clean_page(throttle, seat, part.cpu, part.first + i, gate) {
            return i;
        }
    }
    part.pages
}

/// Does both.
pub fn work<G: Gate>(throttle: &Throttle, mut seat: CpuSeat, part: Part, gate: &G) -> CpuSeat
    requires seat { StepsFor throttle.now part.cpu seat }
    requires part { IsPart throttle.now.layout part }
    ensures { Worked throttle.now part.cpu seat result }
{
    dirty_part(throttle, &mut seat, part, gate);
    clean_part(throttle, &mut seat, part, gate);
    seat
}

// Dirties a page, and pays. False where the writer has no page left, or the CPU was stopped.
fn dirty_page<G: Gate>(
    throttle: &Throttle,
    seat: &mut CpuSeat,
    cpu: u32,
    writer: u32,
    page: u32,
    gate: &G,
) -> bool
    requires seat { StepsFor throttle.now cpu seat.old }
    requires may { MayWrite throttle.now.layout cpu writer page }
    ensures { Worked throttle.now cpu seat.old seat.new }
{
    if seat.left(writer) == 0 {
        return false;
    }
    if seat.owes(cpu) {
        return false;
    }
    match throttle.dirty(seat, writer, page) {
        Ok(_) => throttle.settle(seat, cpu, gate).all,
        Err(_) => false,
    }
}

// Claims a page until no other CPU comes between, completes it, and pays. False where it isn't dirty, or the CPU was stopped.
fn clean_page<G: Gate>(
    throttle: &Throttle,
    seat: &mut CpuSeat,
    cpu: u32,
    page: u32,
    gate: &G,
) -> bool
    requires seat { StepsFor throttle.now cpu seat.old }
    requires page { page < (setting throttle.now.layout).pages }
    ensures { Worked throttle.now cpu seat.old seat.new }
{
    for _try in 0..u64::MAX {
        match claim_page(throttle, seat, cpu, page, gate) {
            Claim::Mine => return complete_page(throttle, seat, cpu, page, gate),
            Claim::Missed {
                first: _,
                second: _,
            } => {}
            _ => return false,
        }
    }
    false
}

fn claim_page<G: Gate>(
    throttle: &Throttle,
    seat: &mut CpuSeat,
    cpu: u32,
    page: u32,
    gate: &G,
) -> Claim
    requires seat { StepsFor throttle.now cpu seat.old }
    requires page { page < (setting throttle.now.layout).pages }
    ensures worked { Worked throttle.now cpu seat.old seat.new }
    ensures mine { result ≡ Mine → HasClaimed cpu page seat.new }
{
    throttle.claim(seat, cpu, page, gate)
}

fn complete_page<G: Gate>(
    throttle: &Throttle,
    seat: &mut CpuSeat,
    cpu: u32,
    page: u32,
    gate: &G,
) -> bool
    requires seat { StepsFor throttle.now cpu seat.old }
    requires page { page < (setting throttle.now.layout).pages }
    requires mine { HasClaimed cpu page seat.old }
    ensures { Worked throttle.now cpu seat.old seat.new }
{
    if seat.owes(cpu) {
        return false;
    }
    match throttle.complete(seat, cpu, page) {
        Ok(()) => throttle.settle(seat, cpu, gate).all,
        Err(_) => false,
    }
}
