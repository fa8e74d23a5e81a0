//! Additions, reads and new periods of one domain.

ghost use Rattle.std.specs.Prelude.{◌≡◌, ◌≢◌, ◌+◌, ◌-◌, ◌*◌, ◌/◌, ◌%◌, ◌<◌, ◌≤◌, ◌^◌, ◌++◌, ◌∷◌, [], suc, Some, None, IsSome, IsNone, IfSome, IfNone, IfOk, MatchResult, MatchBool, ◌==◌, cond};
ghost use Rattle.wbt_flex.specs.Eager.{halved};
ghost use Rattle.wbt_flex.specs.Proportions.{after_period};
ghost use Rattle.wbt_fraction.specs.declared.domain.note.Note.TheVariants.{Found, Added, Period};
ghost use Rattle.wbt_fraction.specs.Words.{period_of, events_of, word_of};
ghost use Rattle.wbt_fraction.specs.Notes.{IsReached};
ghost use Rattle.wbt_fraction.specs.History.{notes_of, aged_to, Makes, AreMade};
ghost use Rattle.wbt_fraction.specs.Steps.{with_trail, KnowsAll};
ghost use Rattle.wbt_fraction.specs.Words.{half_of};
ghost use Rattle.wbt_fraction.specs.Seat.{Ready, MakesReady, Missed, Looks, Adds, Reads, Between, Begins, Lost};

use crate::domain::seat::{Domain, DomainSeat};
use crate::domain::words::{Again, Place, Words};
use wbt_flex::{Fraction, Half, age, fraction, new_period};

/// Events of a word are below this.
const EVENTS: u64 = 1 << 40;

// The word's events at its period.
fn unpack(word: u64) -> Half
    ensures { result ≡ half_of word }
{
    Half {
        period: word / EVENTS,
        events: word % EVENTS,
    }
}

// The word of events at a period.
fn pack(half: Half) -> u64
    requires { (half.period < 2 ^ 24) × (half.events < 2 ^ 40) }
    ensures { result ≡ word_of half.period half.events }
{
    half.period * EVENTS + half.events
}

// The word of a part at a later period.
fn aged_word(word: u64, period: u64) -> u64
    requires { (period_of word ≤ period) × (period < 2 ^ 24) }
    ensures { result ≡ word_of period (halved (period - period_of word) (events_of word)) }
{
    pack(age(unpack(word), period))
}

// The domain's word after `k` more periods. None where none begins.
fn begun_word(word: u64, k: u64) -> Option<u64>
    requires { 1 ≤ k }
    ensures some { IfSome result (λ new. (1 < events_of word) × (period_of word + k < 2 ^ 24) × (new ≡ word_of (period_of word + k) (halved k (events_of word)))) }
    ensures begins { IfSome result (λ _. IsSome (after_period (half_of word) k)) }
    ensures none { IfNone result (IsNone (after_period (half_of word) k)) }
{
    match new_period(unpack(word), k) {
        Some(after) => Some(pack(after)),
        None => None,
    }
}

impl Words {
    // Brings a part that is behind to the domain's period.
    fn age_part(&self, place: &mut Place, part: u64, first: u64, period: u64) -> Result<(), Again>
        requires seat { place.old.table_id ≡ self.now.table.shared.table_id }
        requires stake { 1 ≤ place.old.me.0.stakes }
        requires part { part < self.now.parts }
        requires later { (period_of first < period) × (period < 2 ^ 24) }
        requires reached { IsReached period (notes_of place.old.me.0.trail.own) }
        ensures seat { (place.new.table_id ≡ place.old.table_id) × (place.new.id ≡ place.old.id) }
        ensures made { MatchResult result (λ _. Makes (Found (suc part) first) (aged_to period first) place.old.me.0.trail place.new.me.0.trail) (λ again. (again.first ≡ first) × (again.first ≢ again.second) × Makes (Found (suc part) again.second) again.second place.old.me.0.trail place.new.me.0.trail) }
        ensures same { place.new.me ≡ with_trail place.new.me.0.trail place.old.me }
        ensures complete { KnowsAll place.new.me }
    {
        let new = aged_word(first, period);
        let second = self.age(place, part, first, new, period);
        if second == first {
            Ok(())
        } else {
            Err(Again { first, second })
        }
    }

    // Loads the domain's word and the part's, and brings the part to the domain's period where it is behind.
    fn make_ready(&self, place: &mut Place, part: u64) -> Result<(), Again>
        requires seat { place.old.table_id ≡ self.now.table.shared.table_id }
        requires stake { 1 ≤ place.old.me.0.stakes }
        requires part { part < self.now.parts }
        ensures seat { (place.new.table_id ≡ place.old.table_id) × (place.new.id ≡ place.old.id) }
        ensures made { MatchResult result (λ _. (more : _) × Ready part more × (notes_of place.new.me.0.trail.own ≡ more ++ notes_of place.old.me.0.trail.own) × MakesReady part place.old.me.0.trail place.new.me.0.trail) (λ again. (more : _) × Missed part again more × AreMade more place.old.me.0.trail place.new.me.0.trail) }
        ensures same { place.new.me ≡ with_trail place.new.me.0.trail place.old.me }
        ensures complete { KnowsAll place.new.me }
    {
        let domain = self.load_domain(place);
        let first = self.load_part(place, part);
        let period = domain / EVENTS;
        if first / EVENTS >= period {
            return Ok(());
        }
        self.age_part(place, part, first, period)
    }

    // Adds to the part and then to the domain, and answers the two words found.
    fn add_both(&self, place: &mut Place, part: u64, n: u64) -> (u64, u64)
        requires seat { place.old.table_id ≡ self.now.table.shared.table_id }
        requires stake { 1 ≤ place.old.me.0.stakes }
        requires part { part < self.now.parts }
        requires room { (n ≤ place.old.me.0.part_room) × (n ≤ place.old.me.0.domain_room) }
        ensures seat { (place.new.table_id ≡ place.old.table_id) × (place.new.id ≡ place.old.id) }
        ensures made { AreMade (Added 0 result.1 n ∷ Added (suc part) result.0 n ∷ []) place.old.me.0.trail place.new.me.0.trail }
        ensures same { place.new.me ≡ (record { trail = place.new.me.0.trail; stakes = place.old.me.0.stakes; domain_room = place.old.me.0.domain_room - n; part_room = place.old.me.0.part_room - n }, place.old.me.1) }
        ensures complete { KnowsAll place.new.me }
    {
        let in_part = self.add_part(place, part, n);
        let in_domain = self.add_domain(place, n);
        (in_part, in_domain)
    }
}

impl Domain {
    // Adds `n` events to a part and then to the domain.
    pub fn add(&self, seat: &mut DomainSeat, part: u64, n: u64) -> Result<(), Again>
        requires seat { seat.old.table ≡ self.now.table }
        requires part { part < self.now.parts }
        requires room { n ≤ seat.old.room }
        ensures same { (seat.new.table ≡ seat.old.table) × (seat.new.stakes ≡ seat.old.stakes) × (seat.old.room ≤ seat.new.room + n) }
        ensures told { MatchResult result (λ _. Adds part n seat.old seat.new) (λ again. (more : _) × Missed part again more × Looks more seat.old seat.new) }
    {
        match self.words.make_ready(&mut seat.place, part) {
            Ok(()) => {
                self.words.add_both(&mut seat.place, part, n);
                Ok(())
            }
            Err(again) => Err(again),
        }
    }

    // The fraction of a part. Again where a period began between the two looks at the domain.
    pub fn read(&self, seat: &mut DomainSeat, part: u64) -> Result<Fraction, Again>
        requires seat { seat.old.table ≡ self.now.table }
        requires part { part < self.now.parts }
        ensures same { (seat.new.table ≡ seat.old.table) × (seat.new.stakes ≡ seat.old.stakes) × (seat.new.room ≡ seat.old.room) }
        ensures proper { IfOk result (λ f. (1 ≤ f.den) × (f.num ≤ f.den) × (f.den < 2 ^ 40)) }
        ensures told { MatchResult result (λ f. Reads part f seat.old seat.new) (λ again. Between part again seat.old seat.new) }
    {
        let first = self.words.load_domain(&mut seat.place);
        let word = self.words.load_part(&mut seat.place, part);
        let second = self.words.load_domain(&mut seat.place);
        if first / EVENTS != second / EVENTS {
            return Err(Again { first, second });
        }
        Ok(fraction(unpack(word), unpack(first)))
    }

    // Begins `k` periods at once. False where there is nothing to halve, or no period is left.
    pub fn new_period(&self, seat: &mut DomainSeat, k: u64) -> Result<bool, Again>
        requires seat { seat.old.table ≡ self.now.table }
        requires some { 1 ≤ k }
        ensures same { (seat.new.table ≡ seat.old.table) × (seat.new.stakes ≡ seat.old.stakes) × (seat.new.room ≡ seat.old.room) }
        ensures told { MatchResult result (λ begun. Begins k begun seat.old seat.new) (λ again. Lost k again seat.old seat.new) }
    {
        let first = self.words.load_domain(&mut seat.place);
        match begun_word(first, k) {
            Some(new) => {
                let second = self.words.begin(&mut seat.place, first, new, k);
                if second == first {
                    Ok(true)
                } else {
                    Err(Again { first, second })
                }
            }
            None => Ok(false),
        }
    }
}
