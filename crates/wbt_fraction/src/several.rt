//! Several domains, and the seats of one thread at them.

ghost use Rattle.std.specs.Prelude.{◌≡◌, ◌+◌, ◌<◌, ◌≤◌, ◌^◌, length, map, replicate, IfOk, IfErr, MatchResult, slice_index_or};
ghost use Rattle.wbt_fraction.specs.Seat.{Adds, Missed, Looks, Reads, Between, Begins, Lost};
ghost use Rattle.wbt_fraction.specs.Several.{Fits, Changes, KeepsStakes, KeepsRooms, TakesRoom, room_in, AllJoined, parts_of, left_of, right_of, HasRoom, AllFirst, no_shape};

use crate::domain::seat::{Domain, DomainSeat};
use crate::domain::words::Again;
use std::alloc::{AllocError, Global};
use std::marker::Model;
use wbt_flex::Fraction;

/// The words of each domain.
#[derive(Drop)]
pub struct Domains {
    domains: Vec<Domain>,
}

impl Model for Domains {
    ghost use Rattle.std.specs.Prelude.{List};
    ghost use Rattle.wbt_fraction.specs.Seat.{Shape};

    ghost Value = { List Shape };

    ghost view = { λ s. s.domains.items };
}

/// A seat at each domain.
#[derive(Drop)]
pub struct DomainSeats {
    seats: Vec<DomainSeat>,
}

impl Model for DomainSeats {
    ghost use Rattle.std.specs.Prelude.{List};
    ghost use Rattle.wbt_fraction.specs.Seat.{Seated};

    ghost Value = { List Seated };

    ghost view = { λ s. s.seats.items };
}

impl Domains {
    // So many domains with so many parts each.
    pub fn make(alloc: Global, count: u32, parts: u64) -> Result<(Domains, DomainSeats), AllocError>
        requires { parts ≤ 64 }
        ensures parts { IfOk result (λ t. parts_of t.0 ≡ replicate count parts) }
        ensures count { IfOk result (λ t. (length t.0 ≡ count) × (length t.1 ≡ count)) }
        ensures seats { IfOk result (λ t. Fits t.0 t.1 × AllFirst t.1) }
    {
        let mut domains = Vec::new(alloc);
        let mut seats = Vec::new(alloc);
        for _n in 0..count {
            let (shares, seat) = Domain::make(alloc, parts)?;
            domains.push(shares)?;
            seats.push(seat)?;
        }
        Ok((Domains { domains }, DomainSeats { seats }))
    }

    // Moves one stake and 2^33 of each domain's room to new seats.
    pub fn split(&self, alloc: Global, seat: &mut DomainSeats) -> Result<DomainSeats, AllocError>
        requires seats { Fits self.now seat.old }
        requires room { HasRoom seat.old }
        ensures ok { IfOk result (λ s. Fits self.now s × Fits self.now seat.new × (seat.new ≡ map left_of seat.old) × (s ≡ map right_of seat.old)) }
        ensures err { IfErr result (λ _. seat.new ≡ seat.old) }
    {
        let mut seats = Vec::with_capacity(alloc, self.domains.len())?;
        for i in 0..self.domains.len() {
            let mine = &mut seat.seats[i];
            let other = self.domains[i].split(mine);
            seats.push_reserved(other);
        }
        Ok(DomainSeats { seats })
    }

    // Adds to a part of a domain and then to the domain.
    pub fn add(&self, seat: &mut DomainSeats, domain: usize, part: u64, n: u64) -> Result<(), Again>
        requires seats { Fits self.now seat.old }
        requires domain { domain < length self.now }
        requires part { part < (slice_index_or self.now domain no_shape).parts }
        requires room { n ≤ room_in domain seat.old }
        ensures seats { Fits self.now seat.new }
        ensures stakes { KeepsStakes seat.old seat.new }
        ensures room { MatchResult result (λ _. TakesRoom domain n seat.old seat.new) (λ _. KeepsRooms seat.old seat.new) }
        ensures told { Changes domain (λ old new. MatchResult result (λ _. Adds part n old new) (λ again. (more : _) × Missed part again more × Looks more old new)) seat.old seat.new }
    {
        let mine = &mut seat.seats[domain];
        self.domains[domain].add(mine, part, n)
    }

    // The fraction of a part of a domain.
    pub fn read(&self, seat: &mut DomainSeats, domain: usize, part: u64) -> Result<Fraction, Again>
        requires seats { Fits self.now seat.old }
        requires domain { domain < length self.now }
        requires part { part < (slice_index_or self.now domain no_shape).parts }
        ensures seats { Fits self.now seat.new }
        ensures same { KeepsStakes seat.old seat.new × KeepsRooms seat.old seat.new }
        ensures told { Changes domain (λ old new. MatchResult result (λ fraction. Reads part fraction old new) (λ again. Between part again old new)) seat.old seat.new }
        ensures proper { IfOk result (λ f. (1 ≤ f.den) × (f.num ≤ f.den) × (f.den < 2 ^ 40)) }
    {
        let mine = &mut seat.seats[domain];
        self.domains[domain].read(mine, part)
    }

    // Begins periods of a domain.
    pub fn new_period(&self, seat: &mut DomainSeats, domain: usize, k: u64) -> Result<bool, Again>
        requires seats { Fits self.now seat.old }
        requires domain { domain < length self.now }
        requires some { 1 ≤ k }
        ensures seats { Fits self.now seat.new }
        ensures same { KeepsStakes seat.old seat.new × KeepsRooms seat.old seat.new }
        ensures told { Changes domain (λ old new. MatchResult result (λ begun. Begins k begun old new) (λ again. Lost k again old new)) seat.old seat.new }
    {
        let mine = &mut seat.seats[domain];
        self.domains[domain].new_period(mine, k)
    }

    // Brings notes, stakes and room together, domain by domain.
    pub fn join(&self, into: &mut DomainSeats, from: DomainSeats)
        requires seats { Fits self.now into.old × Fits self.now from }
        ensures seats { Fits self.now into.new }
        ensures joined { AllJoined into.old from into.new }
    {
        let DomainSeats { seats } = from;
        let mut i = 0;
        for seat in seats {
            let mine = &mut into.seats[i];
            self.domains[i].join(mine, seat);
            i += 1;
        }
    }
}
