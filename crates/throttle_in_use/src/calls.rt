//! Calls of a throttle, with what they need looked at before them.

ghost use Rattle.std.specs.Prelude.{◌≡◌, ◌*◌, ◌<◌, ◌≤◌, IsTrue, IfOk, IfErr, IfSome};
ghost use Rattle.wbt_num.specs.Limits.{IsLawful};
ghost use Rattle.wbt_num.specs.declared.most.TheConstants.{MOST_PAGES};
ghost use Rattle.wbt_table.specs.declared.answer.Claim.TheVariants.{Mine};
ghost use Rattle.wbt_table.specs.Layout.{IsLayout, setting};
ghost use Rattle.wbt_table.specs.Seat.{IsAt};
ghost use Rattle.wbt_table.specs.Callers.{StepsFor, MayWrite, HasClaimed};
ghost use Rattle.throttle_in_use.specs.Seats.{Leaves};

use std::alloc::{AllocError, Global};
use wbt_io::{FreeGate, Gate};
use wbt_num::{Items, Limits, NoMemory};
use wbt_table::{Back, Claim, CpuSeat, Dirtied, Layout, Place, Settled, Throttle, Writer};

/// So many CPUs with 32 writers each in the one context, and an inode of so many pages.
pub fn layout(alloc: Global, cpus: u32, pages: u32) -> Result<Layout, AllocError>
    requires cpus { (1 ≤ cpus) × (cpus ≤ 32) }
    requires pages { pages ≤ MOST_PAGES }
    ensures { IfOk result IsLayout }
{
    layout_of(alloc, cpus, pages, 100000)
}

/// The same, with so many page steps for each CPU.
pub fn layout_of(
    alloc: Global,
    cpus: u32,
    pages: u32,
    page_steps: u64,
) -> Result<Layout, AllocError>
    requires cpus { (1 ≤ cpus) × (cpus ≤ 32) }
    requires pages { pages ≤ MOST_PAGES }
    requires page_steps { (1 ≤ page_steps) × (page_steps ≤ 100000) }
    ensures { IfOk result IsLayout }
{
    firsts_of(
        alloc,
        cpus,
        pages,
        page_steps,
        Limits {
            thresh: 100,
            bg: 50,
            hard: 100,
        },
    )
}

/// One CPU and one page, under these first limits.
pub fn layout_with(alloc: Global, first: Limits) -> Result<Layout, AllocError>
    requires lawful { IsLawful first }
    ensures { IfOk result IsLayout }
{
    firsts_of(alloc, 1, 1, 100000, first)
}

fn firsts_of(
    alloc: Global,
    cpus: u32,
    pages: u32,
    page_steps: u64,
    first: Limits,
) -> Result<Layout, AllocError>
    requires cpus { (1 ≤ cpus) × (cpus ≤ 32) }
    requires pages { pages ≤ MOST_PAGES }
    requires page_steps { (1 ≤ page_steps) × (page_steps ≤ 100000) }
    requires lawful { IsLawful first }
    ensures { IfOk result IsLayout }
{
    let mut firsts = Items::new(alloc);
    firsts.push(first)?;
    let mut contexts = Items::new(alloc);
    contexts.push(0)?;
    let mut inodes = Items::new(alloc);
    inodes.push(Place {
        context: 0,
        first: 0,
        pages,
    })?;
    let mut writers = Items::new(alloc);
    for writer in 0..cpus * 32 {
        writers.push(Writer {
            cpu: writer / 32,
            context: 0,
        })?;
    }
    Ok(Layout {
        cpus,
        cap: 1024,
        firsts,
        contexts,
        inodes,
        writers,
        page_steps,
    })
}

/// Whether the seat steps for a CPU.
pub fn steps_for(throttle: &Throttle, seat: &CpuSeat, cpu: u32) -> bool
    requires { IsAt throttle.now seat.now }
    ensures { IsTrue result → StepsFor throttle.now cpu seat.now }
{
    if cpu >= throttle.layout().cpus {
        return false;
    }
    seat.holds(cpu)
}

/// The steps that a CPU has made.
pub fn steps_of(throttle: &Throttle, seat: &CpuSeat, cpu: u32) -> u64
    requires { StepsFor throttle.now cpu seat.now }
{
    seat.steps(cpu)
}

/// Whether a CPU owes a counter something.
pub fn owes(throttle: &Throttle, seat: &CpuSeat, cpu: u32) -> bool
    requires { StepsFor throttle.now cpu seat.now }
{
    seat.owes(cpu)
}

/// Whether there is such a page in the one inode.
pub fn has_page(throttle: &Throttle, page: u32) -> bool
    ensures { IsTrue result → page < (setting throttle.now.layout).pages }
{
    let inodes = throttle.layout().inodes.as_slice();
    if inodes.len() != 1 {
        return false;
    }
    page < inodes[0].pages
}

// Whether the writer is one of the CPU's, and may write the page.
fn may_write(throttle: &Throttle, cpu: u32, writer: u32, page: u32) -> bool
    ensures { IsTrue result → MayWrite throttle.now.layout cpu writer page }
{
    let writers = throttle.layout().writers.as_slice();
    let inodes = throttle.layout().inodes.as_slice();
    if writer as usize >= writers.len() {
        return false;
    }
    if inodes.len() != 1 {
        return false;
    }
    let who = writers[writer as usize];
    if who.cpu != cpu {
        return false;
    }
    if who.context != inodes[0].context {
        return false;
    }
    page < inodes[0].pages
}

/// Dirties a page, and pays what is then owed. None where the writer may not.
pub fn write_page<G: Gate>(
    throttle: &Throttle,
    seat: &mut CpuSeat,
    cpu: u32,
    writer: u32,
    page: u32,
    gate: &G,
) -> Option<(Dirtied, bool)>
    requires { StepsFor throttle.now cpu seat.old }
    ensures { StepsFor throttle.now cpu seat.new }
{
    if !may_write(throttle, cpu, writer, page) {
        return None;
    }
    if seat.left(writer) == 0 {
        return None;
    }
    if seat.owes(cpu) {
        return None;
    }
    match throttle.dirty(seat, writer, page) {
        Ok(dirtied) => Some((dirtied, throttle.settle(seat, cpu, gate).all)),
        Err(_) => None,
    }
}

/// Pays what the CPU owes to counters, under a gate.
pub fn settle_under<G: Gate>(throttle: &Throttle, seat: &mut CpuSeat, cpu: u32, gate: &G) -> Settled
    requires { StepsFor throttle.now cpu seat.old }
    ensures { StepsFor throttle.now cpu seat.new }
{
    throttle.settle(seat, cpu, gate)
}

/// Pays what the CPU owes to counters, under no gate: whether all is paid.
pub fn settle(throttle: &Throttle, seat: &mut CpuSeat, cpu: u32) -> bool
    requires { StepsFor throttle.now cpu seat.old }
    ensures { StepsFor throttle.now cpu seat.new }
{
    settle_under(throttle, seat, cpu, &FreeGate).all
}

/// Claims a page under a gate.
pub fn claim_under<G: Gate>(
    throttle: &Throttle,
    seat: &mut CpuSeat,
    cpu: u32,
    page: u32,
    gate: &G,
) -> Claim
    requires seat { StepsFor throttle.now cpu seat.old }
    requires page { page < (setting throttle.now.layout).pages }
    ensures seat { StepsFor throttle.now cpu seat.new }
    ensures mine { result ≡ Mine → HasClaimed cpu page seat.new }
{
    throttle.claim(seat, cpu, page, gate)
}

/// Claims a page under no gate.
pub fn claim_once(throttle: &Throttle, seat: &mut CpuSeat, cpu: u32, page: u32) -> Claim
    requires seat { StepsFor throttle.now cpu seat.old }
    requires page { page < (setting throttle.now.layout).pages }
    ensures seat { StepsFor throttle.now cpu seat.new }
    ensures mine { result ≡ Mine → HasClaimed cpu page seat.new }
{
    claim_under(throttle, seat, cpu, page, &FreeGate)
}

/// Claims a page: whether the CPU holds it then.
pub fn claims(throttle: &Throttle, seat: &mut CpuSeat, cpu: u32, page: u32) -> bool
    requires seat { StepsFor throttle.now cpu seat.old }
    requires page { page < (setting throttle.now.layout).pages }
    ensures seat { StepsFor throttle.now cpu seat.new }
    ensures mine { IsTrue result → HasClaimed cpu page seat.new }
{
    match claim_once(throttle, seat, cpu, page) {
        Claim::Mine => true,
        _ => false,
    }
}

/// Completes a page that the CPU has claimed, and pays what is then owed. False where the CPU still owes something, or has no page
/// step left.
pub fn complete_claimed(throttle: &Throttle, seat: &mut CpuSeat, cpu: u32, page: u32) -> bool
    requires seat { StepsFor throttle.now cpu seat.old }
    requires page { page < (setting throttle.now.layout).pages }
    requires mine { HasClaimed cpu page seat.old }
    ensures { StepsFor throttle.now cpu seat.new }
{
    if seat.owes(cpu) {
        return false;
    }
    match throttle.complete(seat, cpu, page) {
        Ok(()) => settle(throttle, seat, cpu),
        Err(_) => false,
    }
}

/// Gives back a page that the CPU has claimed, under a gate. None where the CPU still owes something, or has no page step left.
pub fn give_back_under<G: Gate>(
    throttle: &Throttle,
    seat: &mut CpuSeat,
    cpu: u32,
    page: u32,
    gate: &G,
) -> Option<Back>
    requires seat { StepsFor throttle.now cpu seat.old }
    requires page { page < (setting throttle.now.layout).pages }
    requires mine { HasClaimed cpu page seat.old }
    ensures seat { StepsFor throttle.now cpu seat.new }
    ensures leaves { IfSome result (λ back. Leaves (setting throttle.now.layout) cpu page back seat.new) }
{
    if seat.owes(cpu) {
        return None;
    }
    match throttle.give_back(seat, cpu, page, gate) {
        Ok(back) => Some(back),
        Err(_) => None,
    }
}

/// Gives back a page that the CPU has claimed, under no gate.
pub fn give_back_once(throttle: &Throttle, seat: &mut CpuSeat, cpu: u32, page: u32) -> Option<Back>
    requires seat { StepsFor throttle.now cpu seat.old }
    requires page { page < (setting throttle.now.layout).pages }
    requires mine { HasClaimed cpu page seat.old }
    ensures seat { StepsFor throttle.now cpu seat.new }
    ensures leaves { IfSome result (λ back. Leaves (setting throttle.now.layout) cpu page back seat.new) }
{
    give_back_under(throttle, seat, cpu, page, &FreeGate)
}

/// Moves a CPU into a seat of its own.
pub fn split_off(
    throttle: &Throttle,
    alloc: Global,
    seat: &mut CpuSeat,
    cpu: u32,
) -> Result<CpuSeat, NoMemory>
    requires seat { StepsFor throttle.now cpu seat.old }
    ensures ok { IfOk result (λ other. IsAt throttle.now seat.new × IsAt throttle.now other) }
    ensures err { IfErr result (λ _. IsAt throttle.now seat.new) }
{
    match throttle.split(alloc, seat, cpu) {
        Ok(other) => Ok(other),
        Err(none) => Err(none),
    }
}

/// Joins seats.
pub fn joined(throttle: &Throttle, into: CpuSeat, from: CpuSeat) -> CpuSeat
    requires { IsAt throttle.now into × IsAt throttle.now from }
    ensures { IsAt throttle.now result }
{
    let mut all = into;
    throttle.join(&mut all, from);
    all
}
