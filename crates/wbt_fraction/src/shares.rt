//! All that threads share of proportions and written totals, and the seat of one thread at it.

ghost use Rattle.std.specs.Prelude.{◌≡◌, ◌+◌, ◌<◌, ◌≤◌, ◌^◌, ◌∷◌, [], All, length, map, IfOk, IfErr, MatchResult};
ghost use Rattle.wbt_num.specs.declared.most.TheConstants.{MOST_CGROUPS, MOST_CONTEXTS};
ghost use Rattle.wbt_fraction.specs.declared.total.note.TotalNote.TheVariants.{Saw, Wrote};
ghost use Rattle.wbt_fraction.specs.Sums.{total};
ghost use Rattle.wbt_fraction.specs.Seat.{Adds, Missed, Looks, Reads, Between, Begins, Lost};
ghost use Rattle.wbt_fraction.specs.Totals.{room_of, lowered, HasEachTally, HasEachStep, NotesTallies, MakesTally, no_tallies, NoneAbove, wrote_at};
ghost use Rattle.wbt_fraction.specs.Several.{IsSeatOf, HasShare, HasRoom, HasTotalRoom, AllFirst, AllJoined, IsTotalJoined, IsParted, CanSplit, AreAdded, Changes, KeepsStakes, KeepsRooms, TakesRoom, room_in, left_of, right_of, total_left, total_right};

use crate::domain::words::Again;
use crate::several::{DomainSeats, Domains};
use crate::total::seat::{TotalSeat, Totals};
use std::alloc::Global;
use std::marker::Model;
use wbt_flex::Fraction;
use wbt_io::NoMemory;

/// The proportions of all contexts in their domains, and what each context wrote. Threads share it by reference.
#[derive(Drop)]
pub struct Shares {
    domains: Domains,
    totals: Totals,
    /// The domain of each context.
    homes: Vec<u32>,
}

impl Model for Shares {
    ghost use Rattle.std.specs.Prelude.{◌≡◌, ◌≤◌, length, replicate};
    ghost use Rattle.wbt_fraction.specs.Several.{Shared, parts_of};

    ghost Value = { Shared };

    ghost view = { λ s. record { domains = s.domains; totals = s.totals; homes = s.homes.items } };

    ghost invariant = { λ s. (parts_of s.domains ≡ replicate (length s.domains) (length s.homes.items)) × (length s.homes.items ≤ s.totals.contexts) };
}

/// What one thread noted, and how much it may still add and count.
#[derive(Drop)]
pub struct ShareSeat {
    domains: DomainSeats,
    totals: TotalSeat,
}

impl Model for ShareSeat {
    ghost use Rattle.wbt_fraction.specs.Several.{Seats};

    ghost Value = { Seats };

    ghost view = { λ s. record { domains = s.domains; totals = s.totals } };
}

impl Shares {
    /// So many domains, of which the first is the global one, and the contexts, each with its domain. The seat has all
    /// stakes and all room.
    ///
    /// Requires: 1 to 9 domains, at most 64 contexts, and for each context a domain that exists.
    pub fn make(
        alloc: Global,
        domains: u32,
        contexts: &[u32],
    ) -> Result<(Shares, ShareSeat), NoMemory>
        requires domains { (1 ≤ domains) × (domains ≤ MOST_CGROUPS + 1) }
        requires contexts { (length contexts.now ≤ MOST_CONTEXTS) × All (λ home. home < domains) contexts.now }
        ensures domains { IfOk result (λ made. (length made.0.domains ≡ domains) × (length made.1.domains ≡ domains)) }
        ensures homes { IfOk result (λ made. made.0.homes ≡ contexts.now) }
        ensures contexts { IfOk result (λ made. length contexts.now ≤ made.0.totals.contexts) }
        ensures seat { IfOk result (λ made. IsSeatOf made.0 made.1) }
        ensures first { IfOk result (λ made. AllFirst made.1.domains × (made.1.totals.notes ≡ []) × (made.1.totals.stakes ≡ 2 ^ 32) × (made.1.totals.trail ≡ no_tallies)) }
        ensures totals { IfOk result (λ made. (i : _) → i < length contexts.now → room_of i made.1.totals.rooms ≡ 2 ^ 39) }
        ensures room { IfOk result (λ made. HasRoom made.1.domains × HasTotalRoom made.0.totals made.1.totals) }
        ensures splits { IfOk result (λ made. CanSplit 64 made.0 made.1) }
    {
        let homes = contexts.to_vec(alloc)?;
        let words = contexts.len().max(1) as u64;
        let (domains, seats) = Domains::make(alloc, domains, contexts.len() as u64)?;
        let (totals, seat) = Totals::make(alloc, words)?;
        Ok((
            Shares {
                domains,
                totals,
                homes,
            },
            ShareSeat {
                domains: seats,
                totals: seat,
            },
        ))
    }

    /// Moves one stake and 2^33 of each room to a seat for a further thread, which knows what this one knows. Without memory the
    /// seat is as it was.
    ///
    /// Requires: a seat at these shares with two stakes, and 2^33 of each room, at least.
    pub fn split(&self, alloc: Global, seat: &mut ShareSeat) -> Result<ShareSeat, NoMemory>
        requires seat { IsSeatOf self.now seat.old }
        requires room { HasRoom seat.old.domains × HasTotalRoom self.now.totals seat.old.totals }
        ensures seats { IfOk result (λ new. IsSeatOf self.now seat.new × IsSeatOf self.now new) }
        ensures old { IfOk result (λ _. seat.new ≡ record { domains = map left_of seat.old.domains; totals = total_left seat.old.totals }) }
        ensures new { IfOk result (λ new. new ≡ record { domains = map right_of seat.old.domains; totals = total_right seat.old.totals }) }
        ensures parted { IfOk result (λ new. IsParted self.now seat.old seat.new new) }
        ensures refused { IfErr result (λ _. seat.new ≡ seat.old) }
    {
        match self.domains.split(alloc, &mut seat.domains) {
            Ok(domains) => {
                let totals = self.totals.split(&mut seat.totals);
                Ok(ShareSeat { domains, totals })
            }
            Err(_) => Err(NoMemory),
        }
    }

    /// Brings two seats together: notes, steps, stakes and rooms. With all stakes the seat has all steps that were ever made, each
    /// in its place in one history.
    ///
    /// Requires: two seats at these shares.
    pub fn join(&self, into: &mut ShareSeat, from: ShareSeat)
        requires { IsSeatOf self.now into.old × IsSeatOf self.now from }
        ensures seat { IsSeatOf self.now into.new }
        ensures domains { AllJoined into.old.domains from.domains into.new.domains }
        ensures totals { IsTotalJoined into.old.totals from.totals into.new.totals }
        ensures added { AreAdded into.old from into.new }
    {
        let ShareSeat { domains, totals } = from;
        self.domains.join(&mut into.domains, domains);
        self.totals.join(&mut into.totals, totals);
    }

    /// Adds `n` events to the context's part of the domain, and then to the domain. Again comes where another thread
    /// changed the part between two looks: then nothing was added. Each look and addition is a step that was made after all
    /// that anyone had made, and found the word that then stood in its place.
    ///
    /// Requires: a seat at these shares with room for `n` events in the domain. The domain and the context exist, and the domain is the
    /// global one or the context's own.
    pub fn add(&self, seat: &mut ShareSeat, domain: u32, wb: u32, n: u64) -> Result<(), Again>
        requires seat { IsSeatOf self.now seat.old }
        requires domain { domain < length self.now.domains }
        requires share { HasShare self.now.homes domain wb }
        requires room { n ≤ room_in domain seat.old.domains }
        ensures seat { IsSeatOf self.now seat.new }
        ensures stakes { KeepsStakes seat.old.domains seat.new.domains }
        ensures room { MatchResult result (λ _. TakesRoom domain n seat.old.domains seat.new.domains) (λ _. KeepsRooms seat.old.domains seat.new.domains) }
        ensures told { Changes domain (λ old new. MatchResult result (λ _. Adds wb n old new) (λ again. (more : _) × Missed wb again more × Looks more old new)) seat.old.domains seat.new.domains }
        ensures totals { seat.new.totals ≡ seat.old.totals }
    {
        self.domains
            .add(&mut seat.domains, domain as usize, wb as u64, n)
    }

    /// The context's fraction of the domain, as it was in one period. Again comes where a period began between the two
    /// looks at the domain. Each look is a step that was made after all that anyone had made, and found the word that then stood
    /// in its place.
    ///
    /// Requires: a seat at these shares. The domain and the context exist, and the domain is the global one or the context's own.
    pub fn read(&self, seat: &mut ShareSeat, domain: u32, wb: u32) -> Result<Fraction, Again>
        requires seat { IsSeatOf self.now seat.old }
        requires domain { domain < length self.now.domains }
        requires share { HasShare self.now.homes domain wb }
        ensures seat { IsSeatOf self.now seat.new }
        ensures same { KeepsStakes seat.old.domains seat.new.domains × KeepsRooms seat.old.domains seat.new.domains }
        ensures told { Changes domain (λ old new. MatchResult result (λ fraction. Reads wb fraction old new) (λ again. Between wb again old new)) seat.old.domains seat.new.domains }
        ensures totals { seat.new.totals ≡ seat.old.totals }
        ensures proper { IfOk result (λ f. (1 ≤ f.den) × (f.num ≤ f.den) × (f.den < 2 ^ 40)) }
    {
        self.domains
            .read(&mut seat.domains, domain as usize, wb as u64)
    }

    /// Begins `k` periods of the domain at once. False comes exactly where the word that was loaded has nothing to halve,
    /// or no period is left; Again where another thread changed the word before the exchange. Both words stood in the domain's
    /// place when they were found, the second after the first.
    ///
    /// Requires: a seat at these shares, and at least one period. The domain exists.
    pub fn new_period(&self, seat: &mut ShareSeat, domain: u32, k: u64) -> Result<bool, Again>
        requires seat { IsSeatOf self.now seat.old }
        requires domain { domain < length self.now.domains }
        requires some { 1 ≤ k }
        ensures seat { IsSeatOf self.now seat.new }
        ensures same { KeepsStakes seat.old.domains seat.new.domains × KeepsRooms seat.old.domains seat.new.domains }
        ensures told { Changes domain (λ old new. MatchResult result (λ begun. Begins k begun old new) (λ again. Lost k again old new)) seat.old.domains seat.new.domains }
        ensures totals { seat.new.totals ≡ seat.old.totals }
    {
        self.domains
            .new_period(&mut seat.domains, domain as usize, k)
    }

    /// Counts `n` pages into what the context wrote.
    ///
    /// Requires: a seat at these shares with room for `n` pages of the context. The context exists.
    pub fn wrote(&self, seat: &mut ShareSeat, wb: u32, n: u64)
        requires seat { IsSeatOf self.now seat.old }
        requires context { wb < length self.now.homes }
        requires room { n ≤ room_of wb seat.old.totals.rooms }
        ensures seat { IsSeatOf self.now seat.new × (seat.new.domains ≡ seat.old.domains) }
        ensures same { seat.new.totals.stakes ≡ seat.old.totals.stakes }
        ensures room { seat.new.totals.rooms ≡ lowered wb n seat.old.totals.rooms }
        ensures noted { (word : _) × (seat.new.totals.notes ≡ Wrote wb word n ∷ seat.old.totals.notes) }
        // The step was made after all that anyone had made, and found the sum of what was counted then.
        ensures made { (word : _) × MakesTally (Wrote wb word n) seat.old.totals.trail seat.new.totals.trail }
        ensures notes { NotesTallies seat.new.totals }
        ensures complete { HasEachTally seat.new.totals }
        ensures whole { HasEachStep seat.new.totals }
    {
        self.totals.wrote(&mut seat.totals, wb as u64, n)
    }

    /// What the context wrote in all, which never goes back for a seat.
    ///
    /// Requires: a seat at these shares. The context exists.
    pub fn written(&self, seat: &mut ShareSeat, wb: u32) -> u64
        requires seat { IsSeatOf self.now seat.old }
        requires context { wb < length self.now.homes }
        ensures seat { IsSeatOf self.now seat.new × (seat.new.domains ≡ seat.old.domains) }
        ensures same { (seat.new.totals.stakes ≡ seat.old.totals.stakes) × (seat.new.totals.rooms ≡ seat.old.totals.rooms) }
        ensures noted { seat.new.totals.notes ≡ Saw wb result ∷ seat.old.totals.notes }
        // The answer is the sum of what was counted by anyone before this step.
        ensures made { MakesTally (Saw wb result) seat.old.totals.trail seat.new.totals.trail }
        ensures notes { NotesTallies seat.new.totals }
        ensures complete { HasEachTally seat.new.totals }
        ensures whole { HasEachStep seat.new.totals }
        ensures bound { result ≤ 2 ^ 39 }
        ensures never_back { NoneAbove wb result seat.old.totals.notes }
        ensures own { total (wrote_at wb) seat.old.totals.notes ≤ result }
        ensures all { seat.old.totals.stakes ≡ 2 ^ 32 → result ≡ total (wrote_at wb) seat.old.totals.notes }
    {
        self.totals.written(&mut seat.totals, wb as u64)
    }
}
