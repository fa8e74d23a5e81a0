//! A throttle that one CPU uses.

ghost use Rattle.std.specs.Prelude.{◌≡◌, ◌<◌, ◌≤◌, IsTrue};
ghost use Rattle.wbt_num.specs.declared.most.TheConstants.{MOST_PAGES};
ghost use Rattle.wbt_table.specs.Layout.{setting};
ghost use Rattle.wbt_table.specs.Callers.{StepsFor, HasClaimed};

use crate::calls::{
    claim_once, complete_claimed, give_back_under, has_page, layout_of, owes, settle, settle_under,
    steps_for, steps_of, write_page,
};
use crate::counts::{Left, left_by};
use crate::inodes::{clear, mark, passes_with_both_bits};
use crate::unready::Unready;
use std::alloc::Global;
use std::marker::Model;
use wbt_io::{FreeGate, Gate};
use wbt_table::{Back, Claim, CpuSeat, Dirtied, Settled, Throttle};

/// A throttle of one context and one inode, of which CPU 0 makes the steps, by its writer 0.
#[derive(Drop)]
pub struct Lone {
    throttle: Throttle,
    seat: CpuSeat,
    // Whether the CPU is known to hold page 0: it has claimed it, and then made no step but tries to give it back.
    holds: bool,
}

impl Model for Lone {
    ghost Value = { Unit {0} };

    ghost view = { λ _. tt };

    ghost invariant = { λ s. (StepsFor s.throttle 0 s.seat) × (0 < (setting s.throttle.layout).pages) × (IsTrue s.holds → HasClaimed 0 0 s.seat) };
}

impl Lone {
    /// So many CPUs, pages, and page steps for each CPU.
    pub fn open(alloc: Global, cpus: u32, pages: u32, page_steps: u64) -> Result<Lone, Unready>
        requires cpus { (1 ≤ cpus) × (cpus ≤ 32) }
        requires pages { pages ≤ MOST_PAGES }
        requires page_steps { (1 ≤ page_steps) × (page_steps ≤ 100000) }
    {
        let (throttle, seat) = Throttle::make(alloc, layout_of(alloc, cpus, pages, page_steps)?)?;
        if !steps_for(&throttle, &seat, 0) {
            return Err(Unready::NotItsSeat);
        }
        if !has_page(&throttle, 0) {
            return Err(Unready::NotItsSeat);
        }
        Ok(Lone {
            throttle,
            seat,
            holds: false,
        })
    }

    /// Dirties a page, and pays what is then owed. None where the writer may not.
    pub fn write_under<G: Gate>(&mut self, page: u32, gate: &G) -> Option<(Dirtied, bool)> {
        self.holds = false;
        write_page(&self.throttle, &mut self.seat, 0, 0, page, gate)
    }

    pub fn write(&mut self, page: u32) -> Option<(Dirtied, bool)> {
        self.write_under(page, &FreeGate)
    }

    /// Claims page 0.
    pub fn claim(&mut self) -> Claim {
        self.holds = false;
        match claim_once(&self.throttle, &mut self.seat, 0, 0) {
            Claim::Mine => {
                self.holds = true;
                Claim::Mine
            }
            other => other,
        }
    }

    /// Claims page 0. Whether it was found with both bits: then the CPU owes its inode the mark.
    pub fn passes_with_both_bits(&mut self) -> bool {
        self.holds = false;
        passes_with_both_bits(&self.throttle, &mut self.seat, 0, 0)
    }

    /// Completes page 0, and pays what is then owed. False where the CPU isn't known to hold it, owes something or has no page step left.
    pub fn complete(&mut self) -> bool {
        if !self.holds {
            return false;
        }
        self.holds = false;
        complete_claimed(&self.throttle, &mut self.seat, 0, 0)
    }

    /// Gives page 0 back. None where the CPU isn't known to hold it, owes something or has no page step left. Where it was missed or
    /// stopped the CPU holds the page still.
    pub fn give_back<G: Gate>(&mut self, gate: &G) -> Option<Back> {
        if !self.holds {
            return None;
        }
        self.holds = false;
        match give_back_under(&self.throttle, &mut self.seat, 0, 0, gate) {
            Some(Back::Missed { first, second }) => {
                self.holds = true;
                Some(Back::Missed { first, second })
            }
            Some(Back::Stopped) => {
                self.holds = true;
                Some(Back::Stopped)
            }
            other => other,
        }
    }

    /// Marks the inode: whether its mark was clear. None where there is no inode.
    pub fn mark(&mut self) -> Option<bool> {
        self.holds = false;
        mark(&self.throttle, &mut self.seat, 0, 0)
    }

    /// Clears the mark of the inode. False where there is no inode.
    pub fn clear(&mut self) -> bool {
        self.holds = false;
        clear(&self.throttle, &mut self.seat, 0, 0)
    }

    /// Pays what the CPU owes to counters.
    pub fn settle_under<G: Gate>(&mut self, gate: &G) -> Settled {
        self.holds = false;
        settle_under(&self.throttle, &mut self.seat, 0, gate)
    }

    /// Whether all is then paid.
    pub fn settle(&mut self) -> bool {
        self.holds = false;
        settle(&self.throttle, &mut self.seat, 0)
    }

    /// Whether the CPU owes a counter something.
    pub fn owes(&self) -> bool {
        owes(&self.throttle, &self.seat, 0)
    }

    /// The steps that the CPU has made.
    pub fn steps(&self) -> u64 {
        steps_of(&self.throttle, &self.seat, 0)
    }

    /// Closes the throttle. None where the seat doesn't hold all.
    pub fn left(self) -> Option<Left> {
        let Lone {
            throttle,
            seat,
            holds: _,
        } = self;
        left_by(throttle, seat)
    }
}
