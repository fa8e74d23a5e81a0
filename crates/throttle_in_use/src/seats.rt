//! Seats of single CPUs and of the timer, each looked at before it is used.

ghost use Rattle.std.specs.Prelude.{IfOk, IsTrue};
ghost use Rattle.wbt_num.specs.Limits.{IsLawful};
ghost use Rattle.wbt_table.specs.Layout.{IsLayout};
ghost use Rattle.wbt_table.specs.Seat.{IsAt};
ghost use Rattle.wbt_table.specs.Callers.{StepsFor};
ghost use Rattle.throttle_in_use.specs.Seats.{Loads, Ticks};

use crate::calls::{split_off, steps_for};
use crate::unready::Unready;
use std::alloc::Global;
use wbt_grant::Who;
use wbt_io::{Gate, HaltGate};
use wbt_num::{Limits, NoMemory};
use wbt_table::{CpuSeat, Layout, Loaded, Put, Throttle};

/// The seats of two CPUs, and the timer with the first.
#[derive(Drop)]
pub struct Two {
    pub one: CpuSeat,
    pub two: CpuSeat,
}

/// The seats of four CPUs, and the timer with the first.
#[derive(Drop)]
pub struct Four {
    pub one: CpuSeat,
    pub two: CpuSeat,
    pub three: CpuSeat,
    pub four: CpuSeat,
}

/// A throttle, and its first seat.
pub fn opened(alloc: Global, layout: Layout) -> Result<(Throttle, CpuSeat), NoMemory>
    requires { IsLayout layout }
    ensures { IfOk result (λ t. Ticks t.0 t.1) }
{
    Throttle::make(alloc, layout)
}

/// Moves the timer into a seat of its own.
pub fn timer_apart(
    throttle: &Throttle,
    alloc: Global,
    seat: &mut CpuSeat,
) -> Result<CpuSeat, NoMemory>
    requires { Ticks throttle.now seat.old }
    ensures { IfOk result (λ timer. Ticks throttle.now timer × IsAt throttle.now seat.new) }
{
    throttle.split(alloc, seat, throttle.layout().cpus)
}

/// Whether the seat loads limits for a CPU.
pub fn loads_for(throttle: &Throttle, seat: &CpuSeat, cpu: u32) -> bool
    requires { IsAt throttle.now seat.now }
    ensures { IsTrue result → Loads throttle.now cpu seat.now }
{
    if throttle.layout().firsts.as_slice().is_empty() {
        return false;
    }
    if cpu >= throttle.layout().cpus {
        return false;
    }
    steps_for(throttle, seat, cpu)
}

/// Loads the limits of the global domain, for a CPU.
pub fn load_under<G: Gate>(throttle: &Throttle, seat: &mut CpuSeat, cpu: u32, gate: &G) -> Loaded
    requires { Loads throttle.now cpu seat.old }
    ensures { Loads throttle.now cpu seat.new }
{
    throttle.load_limits(seat, Who::Cpu(cpu), 0, gate)
}

/// A load that is stopped after so many steps of CPU 0: how many it has made then.
pub fn stopped_after(throttle: &Throttle, seat: &mut CpuSeat, halt: u64) -> Option<u64>
    requires { Loads throttle.now 0 seat.old }
    ensures { Loads throttle.now 0 seat.new }
{
    match load_under(throttle, seat, 0, &HaltGate { halt }) {
        Loaded::Stopped => Some(seat.steps(0)),
        _ => None,
    }
}

/// Raises the peak of the global domain for limits, and publishes them.
pub fn publish_under<G: Gate>(
    throttle: &Throttle,
    seat: &mut CpuSeat,
    limits: Limits,
    gate: &G,
) -> Put
    requires seat { Ticks throttle.now seat.old }
    requires lawful { IsLawful limits }
    ensures { Ticks throttle.now seat.new }
{
    throttle.raise_peak(seat, 0, limits.hard);
    throttle.publish(seat, 0, limits, gate)
}

// Moves a CPU into a seat of its own, which steps for it.
fn seat_apart(
    throttle: &Throttle,
    alloc: Global,
    seat: &mut CpuSeat,
    cpu: u32,
) -> Result<CpuSeat, Unready>
    requires { IsAt throttle.now seat.old }
    ensures { IfOk result (λ other. IsAt throttle.now seat.new × StepsFor throttle.now cpu other) }
{
    if !steps_for(throttle, seat, cpu) {
        return Err(Unready::NotItsSeat);
    }
    match split_off(throttle, alloc, seat, cpu) {
        Ok(other) => {
            if !steps_for(throttle, &other, cpu) {
                return Err(Unready::NotItsSeat);
            }
            Ok(other)
        }
        Err(_) => Err(Unready::NoMemory),
    }
}

/// The seat of all, as those of the CPUs 0 and 1.
pub fn two_seats(throttle: &Throttle, alloc: Global, seat: CpuSeat) -> Result<Two, Unready>
    requires { IsAt throttle.now seat }
    ensures one { IfOk result (λ seats. StepsFor throttle.now 0 seats.one) }
    ensures two { IfOk result (λ seats. StepsFor throttle.now 1 seats.two) }
{
    let mut one = seat;
    let two = seat_apart(throttle, alloc, &mut one, 1)?;
    if !steps_for(throttle, &one, 0) {
        return Err(Unready::NotItsSeat);
    }
    Ok(Two { one, two })
}

/// The seat of all, as those of the CPUs 0 to 3.
pub fn four_seats(throttle: &Throttle, alloc: Global, seat: CpuSeat) -> Result<Four, Unready>
    requires { IsAt throttle.now seat }
    ensures one { IfOk result (λ seats. StepsFor throttle.now 0 seats.one) }
    ensures two { IfOk result (λ seats. StepsFor throttle.now 1 seats.two) }
    ensures three { IfOk result (λ seats. StepsFor throttle.now 2 seats.three) }
    ensures four { IfOk result (λ seats. StepsFor throttle.now 3 seats.four) }
{
    let mut one = seat;
    let two = seat_apart(throttle, alloc, &mut one, 1)?;
    let three = seat_apart(throttle, alloc, &mut one, 2)?;
    let four = seat_apart(throttle, alloc, &mut one, 3)?;
    if !steps_for(throttle, &one, 0) {
        return Err(Unready::NotItsSeat);
    }
    Ok(Four {
        one,
        two,
        three,
        four,
    })
}
