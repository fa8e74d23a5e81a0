//! Seats of single CPUs.

ghost use Rattle.std.specs.Prelude.{◌≡◌, ◌+◌, ◌<◌, IfOk};
ghost use Rattle.caller_of_throttle.specs.Work.{HoldsFirst, IsSplit};

use std::alloc::Global;
use wbt_num::NoMemory;
use wbt_table::{CpuSeat, Throttle};

/// Moves the last of the CPUs that a seat holds into a seat of its own. The first CPUs and the timer stay.
pub fn split_last(
    throttle: &Throttle,
    alloc: Global,
    seat: &mut CpuSeat,
    cpu: u32,
) -> Result<CpuSeat, NoMemory>
    requires seat { HoldsFirst throttle.now (cpu + 1) seat.old }
    requires cpu { cpu < throttle.now.layout.cpus }
    ensures { IfOk result (λ other. IsSplit throttle.now cpu seat.old seat.new other) }
{
    match throttle.split(alloc, seat, cpu) {
        Ok(other) => Ok(other),
        Err(none) => Err(none),
    }
}
