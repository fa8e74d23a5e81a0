//! A throttle that a CPU and the timer use.

ghost use Rattle.wbt_num.specs.Limits.{IsLawful};
ghost use Rattle.wbt_table.specs.Layout.{IsLayout};
ghost use Rattle.throttle_in_use.specs.Seats.{Loads, Ticks};

use crate::seats::{load_under, loads_for, opened, publish_under, stopped_after, timer_apart};
use crate::unready::Unready;
use std::alloc::Global;
use std::marker::Model;
use wbt_io::{FreeGate, Gate};
use wbt_num::Limits;
use wbt_table::{CpuSeat, Layout, Loaded, Put, Throttle};

/// A throttle of which CPU 0 loads limits and the timer publishes them, each by a seat of its own.
#[derive(Drop)]
pub struct Timed {
    throttle: Throttle,
    seat: CpuSeat,
    timer: CpuSeat,
}

impl Model for Timed {
    ghost Value = { Unit {0} };

    ghost view = { λ _. tt };

    ghost invariant = { λ s. (Loads s.throttle 0 s.seat) × (Ticks s.throttle s.timer) };
}

impl Timed {
    pub fn open(alloc: Global, layout: Layout) -> Result<Timed, Unready>
        requires { IsLayout layout }
    {
        let (throttle, mut seat) = opened(alloc, layout)?;
        let timer = timer_apart(&throttle, alloc, &mut seat)?;
        if !loads_for(&throttle, &seat, 0) {
            return Err(Unready::NotItsSeat);
        }
        Ok(Timed {
            throttle,
            seat,
            timer,
        })
    }

    /// The CPU loads the limits of the global domain.
    pub fn load(&mut self) -> Loaded {
        load_under(&self.throttle, &mut self.seat, 0, &FreeGate)
    }

    /// A load that is stopped after so many steps of the CPU: how many it has made then.
    pub fn stopped_after(&mut self, halt: u64) -> Option<u64> {
        stopped_after(&self.throttle, &mut self.seat, halt)
    }

    /// The timer raises the peak of the global domain for limits, and publishes them.
    pub fn publish<G: Gate>(&mut self, limits: Limits, gate: &G) -> Put
        requires { IsLawful limits }
    {
        publish_under(&self.throttle, &mut self.timer, limits, gate)
    }
}
