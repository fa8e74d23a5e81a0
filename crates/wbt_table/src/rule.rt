//! What a seat knows, the rule of the words, and what a step tells.

use crate::layout::Layout;
use atomic_table::{Join, Play, Split, TableRule};
use std::collections::LinkedList;
use std::marker::{Brand, PhantomData};
use wbt_grant::{CpuRecord, LastStep, TimerRecord, Who};

/// What is logged of a step or a grant.
#[derive(Clone, Copy)]
pub struct Logged {
    /// How many steps and grants all CPUs and the timer had made before it.
    pub moment: u64,
    /// Who made it.
    pub maker: Who,
    /// The step, with its word and what it found there; none for a grant, which is no step.
    pub made: Option<LastStep>,
}

/// What a seat knows: the throttle's layout, the record and the log of each CPU that it holds, and those of the timer where it
/// holds it. No value of it is made.
pub struct View {
    pub layout: Layout,
    pub cpus: LinkedList<Option<CpuRecord>>,
    pub timer: Option<TimerRecord>,
    /// By CPU, all that it made, the newest first.
    pub logs: LinkedList<Option<LinkedList<Logged>>>,
    pub timer_log: Option<LinkedList<Logged>>,
}

/// Pages that a writer was granted since its CPU's last step.
#[derive(Clone, Copy)]
pub struct Granted {
    pub writer: u32,
    /// How many pages it then has left.
    pub left: u64,
}

// Words and views show a state of the step relation, which meets the relation's rule.
pub struct Law;

impl TableRule<(), View, Layout> for Law {
    ghost use Rattle.wbt_table.specs.Rule.{Kept, first_view};

    ghost holds = { Kept };

    ghost first = { first_view };
}

/// Names a step: by its kind and the grant that comes with it all of its effect is known.
pub trait Named {
    ghost use Rattle.wbt_table.specs.Rule.{GrantedStep};

    ghost turn: { GrantedStep };
}

impl Named for Brand {
    ghost use Rattle.wbt_table.specs.Steps.{no_turn};

    ghost turn = { no_turn };
}

// A step of a CPU: its record becomes what it makes of it.
pub struct Turns<C> {
    of: PhantomData<C>,
}

impl<C: Named> Play<(), View> for Turns<C> {
    ghost use Rattle.wbt_table.specs.Rule.{Turned};

    ghost then = { λ st m n m'. Turned C.turn n m m' };
}

// A step of the timer.
pub struct Ticks<C> {
    of: PhantomData<C>,
}

impl<C: Named> Play<(), View> for Ticks<C> {
    ghost use Rattle.wbt_table.specs.Rule.{Ticked};

    ghost then = { λ st m n m'. Ticked C.turn n m m' };
}

/// Names the CPU that a split moves.
pub trait Moved {
    ghost use Rattle.std.specs.Prelude.{ℕ};

    ghost cpu: { ℕ };
}

impl Moved for Brand {
    ghost cpu = { 0 };
}

// One CPU goes to a new seat.
pub struct Parts<C> {
    of: PhantomData<C>,
}

impl<C: Moved> Split<View> for Parts<C> {
    ghost use Rattle.wbt_table.specs.Rule.{without, alone};

    ghost left = { without C.cpu };

    ghost right = { alone C.cpu };
}

// The timer goes to a new seat.
pub struct TimerParts;

impl Split<View> for TimerParts {
    ghost use Rattle.wbt_table.specs.Rule.{without_timer, timer_alone};

    ghost left = { without_timer };

    ghost right = { timer_alone };
}

// One seat gets what another had.
pub struct Together;

impl Join<View> for Together {
    ghost use Rattle.wbt_table.specs.Rule.{both_of, spent_view};

    ghost both = { both_of };

    ghost spent = { spent_view };
}
