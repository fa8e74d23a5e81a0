//! The estimates of a device, which its first flusher updates.

ghost use Rattle.std.specs.Prelude.{◌≡◌, ◌+◌, ◌-◌, ◌<◌, ◌≤◌, ◌^◌, ◌*◌, ◌∷◌, true, length, get_or, set, IsTrue, IsFalse, Option};
ghost use Rattle.wbt_fraction.specs.declared.total.note.TotalNote.TheVariants.{Saw};
ghost use Rattle.wbt_rules.specs.declared.moments.TheConstants.{ESTIMATE_AGE};
ghost use Rattle.wbt_run_laws.specs.Log.{with_estimate};
ghost use Rattle.wbt_num.specs.Limits.{IsLawful};
ghost use Rattle.wbt_estimate.specs.Estimate.{IsInRange, IsSound, updated};
ghost use Rattle.wbt_published.specs.Known.{after_publish, first_in, note_of};
ghost use Rattle.wbt_published.specs.Passes.{known_of};
ghost use Rattle.wbt_published.specs.Publishing.{IsComplete, IsNewest};
ghost use Rattle.wbt_run_laws.specs.Notes.{IsNewest as IsNewestKnown};
ghost use Rattle.wbt_run_steps.specs.Reads.{ReadsEstimate};
ghost use Rattle.wbt_run_steps.specs.Gate.{AskedBeforeEach};
ghost use Rattle.wbt_run_steps.specs.Kinds.{Steps};
ghost use Rattle.wbt_flusher.specs.Answers.{GoesAt, GoesQuiet};
ghost use Rattle.wbt_flusher.specs.Cut.{MeasuresSome, StopsAtContext};
ghost use Rattle.wbt_flusher.specs.Did.{Fits, KeepsDebts, IsMeasured, IsStopped};
ghost use Rattle.wbt_flusher.specs.Kinds.{AreCounts};
ghost use Rattle.wbt_flusher.specs.Plans.{Suits, IsPlan, context_at};
ghost use Rattle.wbt_flusher.specs.Reads.{Measures, MeasuresAll, sample_of};
ghost use Rattle.wbt_flusher.specs.Sights.{sight};
ghost use Rattle.wbt_flusher.specs.Turns.{HasLists, IsProper, OnlyEst, OnlyTallies};

use crate::background::Read;
use crate::plan::FlusherPlan;
use crate::work::FlusherWork;
use std::sync::Wait;
use wbt_counter::Counter;
use wbt_estimate::{Estimate, Sample, update};
use wbt_flex::Fraction;
use wbt_io::Gate;
use wbt_journal::EstEntry;
use wbt_kit::{Hands, Kit, Seats};
use wbt_position::{position, setpoint};
use wbt_rules::{ESTIMATE_AGE, part_read};
use wbt_run_steps::{Pen, load_count, may_step};
use wbt_table::Who;

// What is known of a context where its estimate is updated.
#[derive(Clone, Copy)]
struct Known {
    // The moment of the turn, in ticks.
    now: u64,
    // The pages that it wrote in all.
    written: u64,
    // The pages that its counter reads.
    dirty: u64,
    // Its fraction in the global domain.
    share: Fraction,
}

impl FlusherPlan {
    /// Updates, in order, the estimate of each context of the device that is old enough at a moment. False where the gate
    /// stopped it.
    pub fn measure_all<R: Wait, C, G: Gate>(
        &self,
        work: &mut FlusherWork,
        hands: &Hands<R, C, G>,
        seats: &mut Seats,
        pen: &mut Pen,
        now: u64,
        global: &Read,
    ) -> bool
        requires suits { Suits self.now hands.now.kit.now }
        requires fits { Fits self.now hands.now.kit.now seats.old }
        requires lists { HasLists self.now work.old }
        requires moment { now < 2 ^ 62 }
        requires lawful { IsLawful global.now.limits }
        requires room { length self.now.contexts ≤ pen.old.room }
        requires estimates { length self.now.contexts ≤ pen.old.estimates }
        ensures asked { AskedBeforeEach self.now.cpu (G.said hands.now.gate.now) seats.old seats.new }
        ensures kinds { Steps self.now.cpu AreCounts seats.old seats.new }
        ensures goes { GoesAt now self.now hands.now.kit.now seats.old seats.new pen.old.log pen.new.log work.old work.new }
        ensures fits { Fits self.now hands.now.kit.now seats.new }
        ensures lists { HasLists self.now work.new }
        ensures debts { KeepsDebts self.now seats.old seats.new }
        ensures only_tallies { OnlyTallies work.old work.new }
        ensures room { IsTrue result → pen.old.room ≤ pen.new.room + length self.now.contexts }
        ensures stopped { IsFalse result → IsStopped self.now (G.said hands.now.gate.now) seats.new }
        ensures measures { IsTrue result → (written : Option _) → MeasuresAll self.now hands.now.kit.now now global.now (sight work.old seats.old pen.old.log written) (sight work.new seats.new pen.new.log written) }
        ensures stops { IsFalse result → (written : Option _) → MeasuresSome self.now hands.now.kit.now now global.now (sight work.old seats.old pen.old.log written) (sight work.new seats.new pen.new.log written) }
    {
        if !self.leads {
            return true;
        }
        for context in 0..self.contexts.as_slice().len() as u32 {
            if !self.measure(work, hands, seats, pen, now, global, context) {
                return false;
            }
        }
        true
    }

    // Updates the estimate of a context where that is the device's and old enough.
    fn measure<R: Wait, C, G: Gate>(
        &self,
        work: &mut FlusherWork,
        hands: &Hands<R, C, G>,
        seats: &mut Seats,
        pen: &mut Pen,
        now: u64,
        global: &Read,
        context: u32,
    ) -> bool
        requires suits { Suits self.now hands.now.kit.now }
        requires fits { Fits self.now hands.now.kit.now seats.old }
        requires lists { HasLists self.now work.old }
        requires leads { self.now.leads ≡ true }
        requires context { context < length self.now.contexts }
        requires moment { now < 2 ^ 62 }
        requires lawful { IsLawful global.now.limits }
        requires room { 1 ≤ pen.old.room }
        requires estimates { 1 ≤ pen.old.estimates }
        ensures asked { AskedBeforeEach self.now.cpu (G.said hands.now.gate.now) seats.old seats.new }
        ensures kinds { Steps self.now.cpu AreCounts seats.old seats.new }
        ensures goes { GoesAt now self.now hands.now.kit.now seats.old seats.new pen.old.log pen.new.log work.old work.new }
        ensures fits { Fits self.now hands.now.kit.now seats.new }
        ensures lists { HasLists self.now work.new }
        ensures debts { KeepsDebts self.now seats.old seats.new }
        ensures only_tallies { OnlyTallies work.old work.new }
        ensures room { pen.old.room ≤ pen.new.room + 1 }
        ensures estimates { pen.old.estimates ≤ pen.new.estimates + 1 }
        ensures stopped { IsFalse result → IsStopped self.now (G.said hands.now.gate.now) seats.new }
        ensures measures { IsTrue result → (written : Option _) → Measures self.now hands.now.kit.now now global.now context (sight work.old seats.old pen.old.log written) (sight work.new seats.new pen.new.log written) }
        ensures stops { IsFalse result → (written : Option _) → StopsAtContext self.now hands.now.kit.now now context (sight work.old seats.old pen.old.log written) (sight work.new seats.new pen.new.log written) }
    {
        if self.contexts.as_slice()[context as usize].device != self.device {
            return true;
        }
        let old = self.newest(hands, seats, context);
        if now < old.at + ESTIMATE_AGE {
            return true;
        }
        if !may_step(self.cpu, seats, hands.gate) {
            return false;
        }
        let count = load_count(
            Who::Cpu(self.cpu),
            Counter::Context(context),
            hands.kit,
            seats,
        );
        let share = self.read_share(work, hands.kit, seats, 0, context);
        let written = self.written(hands.kit, seats, context);
        let known = Known {
            now,
            written,
            dirty: count.reading(),
            share,
        };
        let sample = self.sample(&old, global, &known);
        self.publish(hands, seats, pen, context, old, &sample);
        true
    }

    // The newest estimate of a context for which the seats publish: they know all of them.
    fn newest<R: Wait, C, G>(
        &self,
        hands: &Hands<R, C, G>,
        seats: &mut Seats,
        context: u32,
    ) -> Estimate
        requires suits { Suits self.now hands.now.kit.now }
        requires fits { Fits self.now hands.now.kit.now seats.old }
        requires measured { IsMeasured self.now context }
        requires context { context < length self.now.contexts }
        ensures goes { GoesQuiet self.now hands.now.kit.now seats.old seats.new }
        ensures fits { Fits self.now hands.now.kit.now seats.new }
        ensures only_est { OnlyEst seats.old seats.new }
        ensures sound { IsSound result }
        ensures newest { IsNewestKnown (first_in hands.now.kit.now.published.firsts context) (known_of context seats.new.est) result }
        ensures last { length (known_of context seats.new.est).all ≡ result.version + 1 }
        ensures seen { (known_of context seats.new.est).seen ≡ result.version }
        ensures reads { ReadsEstimate hands.now.kit.now.published.firsts context result seats.old.est seats.new.est }
    {
        let _publishes = seats.est.publishes(context);
        hands.kit.published.read(hands.rt, &mut seats.est, context)
    }

    // What the context wrote in all.
    fn written(&self, kit: &Kit, seats: &mut Seats, context: u32) -> u64
        requires suits { Suits self.now kit.now }
        requires fits { Fits self.now kit.now seats.old }
        requires context { context < length self.now.contexts }
        ensures goes { GoesQuiet self.now kit.now seats.old seats.new }
        ensures fits { Fits self.now kit.now seats.new }
        ensures cpu { (seats.new.cpu ≡ seats.old.cpu) }
        ensures est { (seats.new.est ≡ seats.old.est) }
        ensures queue { seats.new.queue ≡ seats.old.queue }
        ensures domains { seats.new.share.domains ≡ seats.old.share.domains }
        ensures noted { seats.new.share.totals.notes ≡ Saw context result ∷ seats.old.share.totals.notes }
        ensures bound { result ≤ 2 ^ 39 }
    {
        kit.shares.written(&mut seats.share, context)
    }

    // The ratio is that of the global domain. What was dirtied is what was written and what the counter reads.
    fn sample(&self, old: &Estimate, global: &Read, known: &Known) -> Sample
        requires plan { IsPlan self.now }
        requires sound { IsSound old.now }
        requires lawful { IsLawful global.now.limits }
        requires moment { known.now.now < 2 ^ 62 }
        requires written { known.now.written ≤ 2 ^ 39 }
        requires dirty { known.now.dirty ≤ 2 ^ 31 }
        requires share { IsProper known.now.share }
        ensures range { IsInRange result }
        ensures moment { result.now ≡ known.entry.now.now }
        ensures value { result ≡ sample_of self.now known.entry.now.now global.now known.entry.now.share known.entry.now.dirty known.entry.now.written old.now.avg }
    {
        let read = part_read(
            &self.shares,
            self.least_shares,
            &global.limits,
            &known.share,
            global.dirty,
        );
        Sample {
            now: known.now,
            written: known.written,
            dirtied: known.written + known.dirty,
            ratio: position(&read, known.dirty, old.avg),
            below_setpoint: read.dirty < setpoint(&read.limits),
        }
    }

    // Publishes the next estimate after the newest one, and tells it.
    fn publish<R: Wait, C, G>(
        &self,
        hands: &Hands<R, C, G>,
        seats: &mut Seats,
        pen: &mut Pen,
        context: u32,
        old: Estimate,
        sample: &Sample,
    )
        requires suits { Suits self.now hands.now.kit.now }
        requires fits { Fits self.now hands.now.kit.now seats.old }
        requires measured { IsMeasured self.now context }
        requires context { context < length self.now.contexts }
        requires sound { IsSound old }
        requires newest { IsNewestKnown (first_in hands.now.kit.now.published.firsts context) (known_of context seats.old.est) old }
        requires last { length (known_of context seats.old.est).all ≡ old.version + 1 }
        requires seen { (known_of context seats.old.est).seen ≡ old.version }
        requires range { IsInRange sample.now }
        requires age { old.at + ESTIMATE_AGE ≤ sample.now.now }
        requires room { 1 ≤ pen.old.room }
        requires estimates { 1 ≤ pen.old.estimates }
        ensures goes { (work : _) → GoesAt sample.entry.now.now self.now hands.now.kit.now seats.old seats.new pen.old.log pen.new.log work work }
        ensures fits { Fits self.now hands.now.kit.now seats.new }
        ensures only_est { OnlyEst seats.old seats.new }
        ensures room { pen.old.room ≤ pen.new.room + 1 }
        ensures estimates { pen.old.estimates ≤ pen.new.estimates + 1 }
        ensures published { seats.new.est ≡ record seats.old.est { known = set seats.old.est.known context (after_publish (updated old sample.entry.now) (known_of context seats.old.est)) } }
        ensures told { pen.new.log ≡ with_estimate (record { context = context; estimate = updated old sample.entry.now }) pen.old.log }
    {
        let estimate = next_estimate(old, sample);
        hands
            .kit
            .published
            .publish(hands.rt, &mut seats.est, context, estimate);
        pen.tell_estimate(EstEntry { context, estimate });
    }
}

// The estimate after one that is old enough.
fn next_estimate(old: Estimate, sample: &Sample) -> Estimate
    requires sound { IsSound old }
    requires range { IsInRange sample.now }
    requires age { old.at + ESTIMATE_AGE ≤ sample.now.now }
    ensures value { result ≡ updated old sample.entry.now }
    ensures sound { IsSound result }
{
    match update(old, sample) {
        None => unreachable!(),
        Some(estimate) => estimate,
    }
}
