//! The fractions that a flusher reads, and what it adds to them.

ghost use Rattle.std.specs.Prelude.{◌≡◌, ◌+◌, ◌<◌, ◌≤◌, ◌∷◌, length, set};
ghost use Rattle.wbt_fraction.specs.declared.total.note.TotalNote.TheVariants.{Wrote};
ghost use Rattle.wbt_flusher.specs.Answers.{Goes, GoesKept};
ghost use Rattle.wbt_flusher.specs.Did.{Fits, HasRooms};
ghost use Rattle.wbt_flusher.specs.Plans.{Suits};
ghost use Rattle.wbt_flusher.specs.Reads.{AddsOwed, AddsShare, ReadsShare};
ghost use Rattle.wbt_flusher.specs.Sights.{tallies_of, tally_in, with_tally};
ghost use Rattle.wbt_flusher.specs.Turns.{HasLists, IsPart, IsProper, OnlyShare, OnlyTallies};

use crate::plan::FlusherPlan;
use crate::tally::{Tallies, Tally};
use crate::work::FlusherWork;
use wbt_flex::{Fraction, may_add};
use wbt_journal::Entry;
use wbt_kit::{Kit, Seats};
use wbt_run_steps::Pen;

impl FlusherPlan {
    /// The context's fraction in a domain. Where a period began between two looks at the domain it is the one read before.
    pub fn read_share(
        &self,
        work: &mut FlusherWork,
        kit: &Kit,
        seats: &mut Seats,
        domain: u32,
        context: u32,
    ) -> Fraction
        requires suits { Suits self.now kit.now }
        requires fits { Fits self.now kit.now seats.old }
        requires lists { HasLists self.now work.old }
        requires part { IsPart self.now domain context }
        ensures goes { GoesKept self.now kit.now seats.old seats.new work.old work.new }
        ensures fits { Fits self.now kit.now seats.new }
        ensures lists { HasLists self.now work.new }
        ensures only_share { OnlyShare seats.old seats.new }
        ensures only_tallies { OnlyTallies work.old work.new }
        ensures proper { IsProper result }
        ensures reads { ReadsShare domain context result (tally_in domain (tallies_of work.old context)).held seats.old.share seats.new.share }
        ensures holds { work.new.tallies.items ≡ set work.old.tallies.items context (with_tally domain (record (tally_in domain (tallies_of work.old context)) { held = result }) (tallies_of work.old context)) }
    {
        let tally = self.tally_of(work, domain, context);
        match kit.shares.read(&mut seats.share, domain, context) {
            Ok(held) => {
                self.set_tally(work, domain, context, Tally { held, ..tally });
                held
            }
            Err(_) => tally.held,
        }
    }

    /// Reads the context's fraction in a domain, and adds what is still to be added there, as far as the context's share allows
    /// it: else that is dropped. Where another thread came between it is kept for the context's next batch.
    pub fn add_share(
        &self,
        work: &mut FlusherWork,
        kit: &Kit,
        seats: &mut Seats,
        pen: &mut Pen,
        domain: u32,
        context: u32,
    )
        requires suits { Suits self.now kit.now }
        requires fits { Fits self.now kit.now seats.old }
        requires lists { HasLists self.now work.old }
        requires part { IsPart self.now domain context }
        requires rooms { HasRooms self.now work.old seats.old }
        requires room { 1 ≤ pen.old.room }
        ensures goes { Goes self.now kit.now seats.old seats.new pen.old.log pen.new.log work.old work.new }
        ensures fits { Fits self.now kit.now seats.new }
        ensures lists { HasLists self.now work.new }
        ensures only_share { OnlyShare seats.old seats.new }
        ensures only_tallies { OnlyTallies work.old work.new }
        ensures room { pen.old.room ≤ pen.new.room + 1 }
        ensures adds { AddsShare self.now domain context work.old.tallies.items work.new.tallies.items seats.old.share seats.new.share pen.old.log pen.new.log }
    {
        let fraction = self.read_share(work, kit, seats, domain, context);
        if may_add(&fraction, self.max_share()) {
            self.add_owed(work, kit, seats, pen, domain, context);
        } else {
            self.drop_owed(work, domain, context);
        }
    }

    // Adds what is owed, and tells it.
    fn add_owed(
        &self,
        work: &mut FlusherWork,
        kit: &Kit,
        seats: &mut Seats,
        pen: &mut Pen,
        domain: u32,
        context: u32,
    )
        requires suits { Suits self.now kit.now }
        requires fits { Fits self.now kit.now seats.old }
        requires lists { HasLists self.now work.old }
        requires part { IsPart self.now domain context }
        requires rooms { HasRooms self.now work.old seats.old }
        requires room { 1 ≤ pen.old.room }
        ensures goes { Goes self.now kit.now seats.old seats.new pen.old.log pen.new.log work.old work.new }
        ensures fits { Fits self.now kit.now seats.new }
        ensures lists { HasLists self.now work.new }
        ensures only_share { OnlyShare seats.old seats.new }
        ensures only_tallies { OnlyTallies work.old work.new }
        ensures room { pen.old.room ≤ pen.new.room + 1 }
        ensures adds { AddsOwed domain context work.old.tallies.items work.new.tallies.items seats.old.share seats.new.share pen.old.log pen.new.log }
    {
        let n = self.tally_of(work, domain, context).owed;
        match kit.shares.add(&mut seats.share, domain, context, n) {
            Ok(()) => {
                pen.tell(Entry::Share { domain, context, n });
                self.drop_owed(work, domain, context);
            }
            Err(_) => {}
        }
    }

    /// Nothing is owed any more to a domain.
    pub fn drop_owed(&self, work: &mut FlusherWork, domain: u32, context: u32)
        requires lists { HasLists self.now work.old }
        requires there { context < length self.now.contexts }
        ensures lists { HasLists self.now work.new }
        ensures only_tallies { OnlyTallies work.old work.new }
        ensures dropped { work.new.tallies.items ≡ set work.old.tallies.items context (with_tally domain (record (tally_in domain (tallies_of work.old context)) { owed = 0 }) (tallies_of work.old context)) }
    {
        let tally = self.tally_of(work, domain, context);
        self.set_tally(work, domain, context, Tally { owed: 0, ..tally });
    }

    // What is kept of a context in a domain.
    fn tally_of(&self, work: &FlusherWork, domain: u32, context: u32) -> Tally
        requires lists { HasLists self.now work.now }
        requires there { context < length self.now.contexts }
        ensures value { result ≡ tally_in domain (tallies_of work.now context) }
        ensures proper { IsProper result.held }
    {
        work.tallies[context as usize].tally(domain)
    }

    fn set_tally(&self, work: &mut FlusherWork, domain: u32, context: u32, tally: Tally)
        requires lists { HasLists self.now work.old }
        requires there { context < length self.now.contexts }
        requires proper { IsProper tally.held }
        ensures lists { HasLists self.now work.new }
        ensures only_tallies { OnlyTallies work.old work.new }
        ensures set { work.new.tallies.items ≡ set work.old.tallies.items context (with_tally domain tally (tallies_of work.old context)) }
    {
        let tallies = work.tallies[context as usize];
        work.tallies[context as usize] = tallies.with(domain, tally);
    }

    /// Counts what is still to be counted into what the context wrote.
    pub fn count_written(&self, work: &mut FlusherWork, kit: &Kit, seats: &mut Seats, context: u32)
        requires suits { Suits self.now kit.now }
        requires fits { Fits self.now kit.now seats.old }
        requires lists { HasLists self.now work.old }
        requires there { context < length self.now.contexts }
        requires rooms { HasRooms self.now work.old seats.old }
        ensures goes { GoesKept self.now kit.now seats.old seats.new work.old work.new }
        ensures fits { Fits self.now kit.now seats.new }
        ensures lists { HasLists self.now work.new }
        ensures only_share { OnlyShare seats.old seats.new }
        ensures only_tallies { OnlyTallies work.old work.new }
        ensures counts { (word : _) × (seats.new.share.totals.notes ≡ Wrote context word (tallies_of work.old context).written ∷ seats.old.share.totals.notes) }
        ensures domains { seats.new.share.domains ≡ seats.old.share.domains }
        ensures tallies { work.new.tallies.items ≡ set work.old.tallies.items context (record (tallies_of work.old context) { written = 0 }) }
    {
        let n = self.take_written(work, context);
        kit.shares.wrote(&mut seats.share, context, n);
    }

    // How many pages are to be counted: none any more.
    fn take_written(&self, work: &mut FlusherWork, context: u32) -> u64
        requires lists { HasLists self.now work.old }
        requires there { context < length self.now.contexts }
        ensures value { result ≡ (tallies_of work.old context).written }
        ensures lists { HasLists self.now work.new }
        ensures only_tallies { OnlyTallies work.old work.new }
        ensures set { work.new.tallies.items ≡ set work.old.tallies.items context (record (tallies_of work.old context) { written = 0 }) }
    {
        let tallies = work.tallies[context as usize];
        work.tallies[context as usize] = Tallies {
            written: 0,
            ..tallies
        };
        tallies.written
    }
}
