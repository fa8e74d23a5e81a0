//! A page is given back.

ghost use Rattle.std.specs.Prelude.{◌≡◌, ◌+◌, ◌≤◌, IfOk, IfErr};
ghost use Rattle.wbt_table.specs.Calls.{CanComplete, HasNoPageSteps, HasPageSteps};
ghost use Rattle.wbt_table.specs.Layout.{setting};
ghost use Rattle.wbt_table.specs.Rule.{Holds};
ghost use Rattle.wbt_kit.specs.Kit.{AreSeatsOf};
ghost use Rattle.wbt_run_steps.specs.Backs.{AnswersBack, TellsBack};
ghost use Rattle.wbt_run_steps.specs.Gate.{AskedBeforeEach};
ghost use Rattle.wbt_run_steps.specs.Kinds.{StepsToGiveBack};

use crate::pen::Pen;
use wbt_io::Gate;
use wbt_journal::Entry;
use wbt_kit::{Kit, Seats};
use wbt_table::{Back, Spent};

/// Gives a page back that the CPU holds, for one of its flushers (the steps `look` and `back`, before each of which the gate is asked). Where
/// it was given back, this is told. Spent where the CPU has made as many page steps as it may; then nothing changed.
pub fn give_back<G: Gate>(
    cpu: u32,
    flusher: u32,
    page: u32,
    kit: &Kit,
    seats: &mut Seats,
    gate: &G,
    pen: &mut Pen,
) -> Result<Back, Spent>
    requires seats { AreSeatsOf kit.now seats.old }
    requires may { Holds seats.old.cpu.cpus cpu (CanComplete (setting kit.now.throttle.layout) page) }
    requires room { 1 ≤ pen.old.room }
    ensures seats { AreSeatsOf kit.now seats.new }
    ensures answers { IfOk result (λ answer. AnswersBack kit.now cpu flusher page (G.said gate.now) answer seats.old seats.new pen.old.log pen.new.log) }
    ensures had_a_step { IfOk result (λ _. HasPageSteps (setting kit.now.throttle.layout) cpu seats.old.cpu) }
    ensures spent { IfErr result (λ _. (seats.new ≡ seats.old) × (pen.new.log ≡ pen.old.log) × HasNoPageSteps (setting kit.now.throttle.layout) cpu seats.old.cpu) }
    ensures asked { AskedBeforeEach cpu (G.said gate.now) seats.old seats.new }
    ensures kinds { IfOk result (λ answer. StepsToGiveBack cpu answer seats.old seats.new) }
    ensures room { pen.old.room ≤ pen.new.room + 1 }
    ensures checks { pen.new.checks ≡ pen.old.checks }
    ensures estimates { pen.new.estimates ≡ pen.old.estimates }
{
    let back = kit.throttle.give_back(&mut seats.cpu, cpu, page, gate)?;
    tell_back(pen, flusher, page, back);
    Ok(back)
}

// A page that was given back is told.
fn tell_back(pen: &mut Pen, flusher: u32, page: u32, back: Back)
    requires room { 1 ≤ pen.old.room }
    ensures log { TellsBack flusher page back pen.old.log pen.new.log }
    ensures room { pen.old.room ≤ pen.new.room + 1 }
    ensures checks { pen.new.checks ≡ pen.old.checks }
    ensures estimates { pen.new.estimates ≡ pen.old.estimates }
{
    match back {
        Back::Redirtied => pen.tell(Entry::Back {
            flusher,
            page,
            absorbed: false,
        }),
        Back::Absorbed => pen.tell(Entry::Back {
            flusher,
            page,
            absorbed: true,
        }),
        Back::Missed { .. } | Back::Stopped => {}
    }
}
