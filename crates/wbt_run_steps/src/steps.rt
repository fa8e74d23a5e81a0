//! Steps that every turn takes, with their entries.

ghost use Rattle.std.specs.Prelude.{◌≡◌, ◌+◌, ◌≤◌};
ghost use Rattle.wbt_table.specs.Rule.{Has};
ghost use Rattle.wbt_kit.specs.Kit.{AreSeatsOf};
ghost use Rattle.wbt_run_steps.specs.Gate.{AskedBeforeEach};
ghost use Rattle.wbt_run_steps.specs.Kinds.{StepsToPay};
ghost use Rattle.wbt_run_steps.specs.Pens.{with_fold};
ghost use Rattle.wbt_run_steps.specs.Steps.{AreOwed, IsAnswered, Settled};

use crate::pen::Pen;
use wbt_counter::Fold;
use wbt_io::Gate;
use wbt_journal::Entry;
use wbt_kit::{Kit, Seats};

/// Whether the gate lets the CPU make a step.
pub fn may_step<G: Gate>(cpu: u32, seats: &Seats, gate: &G) -> bool
    requires held { (r : _) × Has seats.now.cpu.cpus cpu r }
    ensures { IsAnswered cpu (G.said gate.now) result seats.now }
{
    gate.may_step(cpu, seats.cpu.steps(cpu))
}

/// Pays what the CPU owes to counters. Each fold is told. False where the gate stopped it.
pub fn settle<G: Gate>(cpu: u32, kit: &Kit, seats: &mut Seats, gate: &G, pen: &mut Pen) -> bool
    requires seats { AreSeatsOf kit.now seats.old }
    requires held { (r : _) × Has seats.old.cpu.cpus cpu r }
    requires owed { AreOwed cpu kit.now seats.old }
    requires room { 3 ≤ pen.old.room }
    ensures seats { AreSeatsOf kit.now seats.new }
    ensures settled { Settled cpu kit.now (G.said gate.now) result seats.old seats.new pen.old.log pen.new.log }
    ensures asked { AskedBeforeEach cpu (G.said gate.now) seats.old seats.new }
    ensures kinds { StepsToPay cpu result seats.old seats.new }
    ensures room { pen.old.room ≤ pen.new.room + 3 }
    ensures checks { pen.new.checks ≡ pen.old.checks }
    ensures estimates { pen.new.estimates ≡ pen.old.estimates }
{
    let settled = kit.throttle.settle(&mut seats.cpu, cpu, gate);
    tell_fold(pen, settled.first);
    tell_fold(pen, settled.second);
    tell_fold(pen, settled.third);
    settled.all
}

/// A fold that was made is told.
pub fn tell_fold(pen: &mut Pen, fold: Option<Fold>)
    requires room { 1 ≤ pen.old.room }
    ensures log { pen.new.log ≡ with_fold fold pen.old.log }
    ensures room { pen.old.room ≤ pen.new.room + 1 }
    ensures checks { pen.new.checks ≡ pen.old.checks }
    ensures estimates { pen.new.estimates ≡ pen.old.estimates }
{
    if let Some(fold) = fold {
        pen.tell(Entry::Folded(fold));
    }
}
