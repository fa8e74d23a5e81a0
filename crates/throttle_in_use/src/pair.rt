//! A throttle that two CPUs use.

ghost use Rattle.std.specs.Prelude.{◌≡◌, ◌<◌, ◌≤◌, IsTrue};
ghost use Rattle.wbt_num.specs.declared.most.TheConstants.{MOST_PAGES};
ghost use Rattle.wbt_table.specs.Layout.{setting};
ghost use Rattle.wbt_table.specs.Callers.{StepsFor, HasClaimed};

use crate::calls::{
    claim_once, complete_claimed, give_back_once, has_page, joined, layout, owes, settle,
    write_page,
};
use crate::counts::{Left, left_by};
use crate::seats::{Two, two_seats};
use crate::unready::Unready;
use std::alloc::Global;
use std::marker::Model;
use wbt_io::FreeGate;
use wbt_table::{Back, Claim, CpuSeat, Dirtied, Throttle};

/// A throttle of one context and one inode, of which the CPUs 0 and 1 make the steps, each by a seat of its own and by its first writer.
#[derive(Drop)]
pub struct Pair {
    throttle: Throttle,
    one: CpuSeat,
    two: CpuSeat,
    // Whether CPU 0 is known to hold page 0, and CPU 1.
    one_holds: bool,
    two_holds: bool,
}

impl Model for Pair {
    ghost Value = { Unit {0} };

    ghost view = { λ _. tt };

    ghost invariant = { λ s. (StepsFor s.throttle 0 s.one) × (StepsFor s.throttle 1 s.two) × (0 < (setting s.throttle.layout).pages) × (IsTrue s.one_holds → HasClaimed 0 0 s.one) × (IsTrue s.two_holds → HasClaimed 1 0 s.two) };
}

impl Pair {
    /// So many pages.
    pub fn open(alloc: Global, pages: u32) -> Result<Pair, Unready>
        requires { pages ≤ MOST_PAGES }
    {
        let (throttle, seat) = Throttle::make(alloc, layout(alloc, 2, pages)?)?;
        if !has_page(&throttle, 0) {
            return Err(Unready::NotItsSeat);
        }
        match two_seats(&throttle, alloc, seat) {
            Ok(seats) => {
                let Two { one, two } = seats;
                Ok(Pair {
                    throttle,
                    one,
                    two,
                    one_holds: false,
                    two_holds: false,
                })
            }
            Err(unready) => Err(unready),
        }
    }

    /// CPU 0 dirties page 0, and pays what it then owes. None where it may not.
    pub fn one_writes(&mut self) -> Option<(Dirtied, bool)> {
        self.one_holds = false;
        write_page(&self.throttle, &mut self.one, 0, 0, 0, &FreeGate)
    }

    /// CPU 1 does.
    pub fn two_writes(&mut self) -> Option<(Dirtied, bool)> {
        self.two_holds = false;
        write_page(&self.throttle, &mut self.two, 1, 32, 0, &FreeGate)
    }

    /// CPU 0 claims page 0.
    pub fn one_claims(&mut self) -> Claim {
        self.one_holds = false;
        match claim_once(&self.throttle, &mut self.one, 0, 0) {
            Claim::Mine => {
                self.one_holds = true;
                Claim::Mine
            }
            other => other,
        }
    }

    /// CPU 1 does.
    pub fn two_claims(&mut self) -> Claim {
        self.two_holds = false;
        match claim_once(&self.throttle, &mut self.two, 1, 0) {
            Claim::Mine => {
                self.two_holds = true;
                Claim::Mine
            }
            other => other,
        }
    }

    /// CPU 0 completes page 0, and pays what it then owes. False where it isn't known to hold it, owes something or has no page step left.
    pub fn one_completes(&mut self) -> bool {
        if !self.one_holds {
            return false;
        }
        self.one_holds = false;
        complete_claimed(&self.throttle, &mut self.one, 0, 0)
    }

    /// CPU 1 does.
    pub fn two_completes(&mut self) -> bool {
        if !self.two_holds {
            return false;
        }
        self.two_holds = false;
        complete_claimed(&self.throttle, &mut self.two, 1, 0)
    }

    /// CPU 0 gives page 0 back. None where it isn't known to hold it, owes something or has no page step left.
    pub fn one_gives_back(&mut self) -> Option<Back> {
        if !self.one_holds {
            return None;
        }
        self.one_holds = false;
        give_back_once(&self.throttle, &mut self.one, 0, 0)
    }

    /// Whether CPU 0 owes a counter something.
    pub fn one_owes(&self) -> bool {
        owes(&self.throttle, &self.one, 0)
    }

    /// CPU 0 pays what it owes to counters: whether all is then paid.
    pub fn one_settles(&mut self) -> bool {
        self.one_holds = false;
        settle(&self.throttle, &mut self.one, 0)
    }

    /// Joins the seats and closes the throttle. None where they don't hold all.
    pub fn left(self) -> Option<Left> {
        let Pair {
            throttle,
            one,
            two,
            one_holds: _,
            two_holds: _,
        } = self;
        let all = joined(&throttle, one, two);
        left_by(throttle, all)
    }
}
