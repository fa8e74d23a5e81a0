//! The calls by one thread, and by two beside each other.

ghost use Rattle.std.specs.Prelude.{◌≡◌, ◌+◌, ◌<◌, ◌≤◌, ◌^◌, All, length, IfOk};
ghost use Rattle.std.specs.Thread.{IsSync};
ghost use Rattle.wbt_fraction.specs.Totals.{room_of};
ghost use Rattle.wbt_fraction.specs.Several.{IsSeatOf, HasShare, HasRoom, HasTotalRoom, room_in};

use std::alloc::Global;
use std::sync::Wait;
use std::test::Fail;
use std::thread;
use std::thread::Threads;
use wbt_flex::Fraction;
use wbt_fraction::{Again, ShareSeat, Shares};
use wbt_io::NoMemory;

// The proportions of contexts in their domains, and the first seat, by which events may be added to the first domain and pages counted
// for the first contexts.
fn opened(alloc: Global, domains: u32, contexts: &[u32]) -> Result<(Shares, ShareSeat), NoMemory>
    requires domains { (1 ≤ domains) × (domains ≤ 2) }
    requires contexts { (length contexts.now ≤ 2) × All (λ home. home < domains) contexts.now }
    ensures domains { IfOk result (λ made. length made.0.domains ≡ domains) }
    ensures homes { IfOk result (λ made. made.0.homes ≡ contexts.now) }
    ensures seat { IfOk result (λ made. IsSeatOf made.0 made.1) }
    ensures rooms { IfOk result (λ made. HasRoom made.1.domains × HasTotalRoom made.0.totals made.1.totals) }
{
    Shares::make(alloc, domains, contexts)
}

// A context's fraction of a domain.
fn read(shares: &Shares, seat: &mut ShareSeat, domain: u32, wb: u32) -> Result<Fraction, Again>
    requires { IsSeatOf shares.now seat.old × (domain < length shares.now.domains) × HasShare shares.now.homes domain wb }
    ensures { IsSeatOf shares.now seat.new }
{
    shares.read(seat, domain, wb)
}

// Begins so many periods of a domain.
fn begin(shares: &Shares, seat: &mut ShareSeat, domain: u32, k: u64) -> Result<bool, Again>
    requires { IsSeatOf shares.now seat.old × (domain < length shares.now.domains) × (1 ≤ k) }
    ensures { IsSeatOf shares.now seat.new }
{
    shares.new_period(seat, domain, k)
}

// Adds ten events to the one context's part.
fn add_ten(shares: &Shares, seat: &mut ShareSeat) -> Result<(), Again>
    requires seat { IsSeatOf shares.now seat.old × (0 < length shares.now.domains) × HasShare shares.now.homes 0 0 }
    requires room { 10 ≤ room_in 0 seat.old.domains }
    ensures { IsSeatOf shares.now seat.new }
{
    shares.add(seat, 0, 0, 10)
}

// The proportions of one context, to whose part ten events were added.
fn ten_added(alloc: Global) -> Result<(Shares, ShareSeat), NoMemory>
    ensures shares { IfOk result (λ made. (length made.0.domains ≡ 1) × HasShare made.0.homes 0 0) }
    ensures seat { IfOk result (λ made. IsSeatOf made.0 made.1) }
{
    let (shares, mut seat) = Shares::make(alloc, 1, &[0])?;
    if add_ten(&shares, &mut seat).is_err() {
        return Err(NoMemory);
    }
    Ok((shares, seat))
}

fn fraction(period: u64, num: u64, den: u64) -> Result<Fraction, Again> {
    Ok(Fraction { period, num, den })
}

#[test]
fn a_fraction_is_halved_with_each_period(rt: HostRuntime) -> Result<(), Fail> {
    let (shares, mut seat) = ten_added(rt.alloc())?;
    assert_eq!(rt; read(&shares, &mut seat, 0, 0), fraction(0, 10, 11));
    assert_eq!(rt; begin(&shares, &mut seat, 0, 1), Ok(true));
    assert_eq!(rt; read(&shares, &mut seat, 0, 0), fraction(1, 5, 5));
    assert_eq!(rt; begin(&shares, &mut seat, 0, 64), Ok(true));
    assert_eq!(rt; read(&shares, &mut seat, 0, 0), fraction(65, 0, 1));
    assert_eq!(rt; begin(&shares, &mut seat, 0, 1), Ok(false));
    Ok(())
}

// Counts pages of the second of two contexts, and reads both totals.
fn totals_after(shares: &Shares, seat: &mut ShareSeat, pages: u64) -> (u64, u64)
    requires seat { IsSeatOf shares.now seat.old × (length shares.now.homes ≡ 2) }
    requires room { pages ≤ room_of 1 seat.old.totals.rooms }
{
    shares.wrote(seat, 1, pages);
    let second = shares.written(seat, 1);
    (shares.written(seat, 0), second)
}

#[test]
fn a_total_is_what_was_counted(rt: HostRuntime) -> Result<(), Fail> {
    let (shares, mut seat) = Shares::make(rt.alloc(), 2, &[0, 1])?;
    assert_eq!(rt; totals_after(&shares, &mut seat, 42), (0, 42));
    Ok(())
}

// Splits a seat off and begins a period of the second domain by it, and joins it: what the beginning came to.
fn begin_apart(
    shares: &Shares,
    alloc: Global,
    seat: &mut ShareSeat,
) -> Result<Result<bool, Again>, NoMemory>
    requires seat { IsSeatOf shares.now seat.old × (length shares.now.domains ≡ 2) }
    requires room { HasRoom seat.old.domains × HasTotalRoom shares.now.totals seat.old.totals }
    ensures { IfOk result (λ _. IsSeatOf shares.now seat.new) }
{
    let mut other = shares.split(alloc, seat)?;
    let begun = begin(shares, &mut other, 1, 1);
    shares.join(seat, other);
    Ok(begun)
}

#[test]
fn a_joined_seat_reads_on(rt: HostRuntime) -> Result<(), Fail> {
    let (shares, mut seat) = opened(rt.alloc(), 2, &[0, 1])?;
    assert_eq!(rt; begin_apart(&shares, rt.alloc(), &mut seat)?, Ok(false));
    assert_eq!(rt; read(&shares, &mut seat, 1, 1), fraction(0, 0, 1));
    Ok(())
}

// Events that each of two threads adds to a part of its own, one by one.
const EACH: u64 = 400;

// What a thread found.
#[derive(Drop)]
struct Work {
    seat: ShareSeat,
    // Additions that came through.
    added: u64,
    // Whether each fraction was what the thread's own additions make of its part in one of two periods, none before the last.
    good: bool,
    // The fraction read last.
    last: Fraction,
}

// Adds one event to the context's part, and where it came through counts one page into the first context's total. The answer
// is how many came through.
fn add_one(shares: &Shares, seat: &mut ShareSeat, wb: u32) -> u64
    requires seat { IsSeatOf shares.now seat.old × (0 < length shares.now.domains) × (wb < length shares.now.homes) }
    requires room { (1 ≤ room_in 0 seat.old.domains) × (1 ≤ room_of 0 seat.old.totals.rooms) }
    ensures seat { IsSeatOf shares.now seat.new }
    ensures count { result ≤ 1 }
    ensures room { (room_in 0 seat.old.domains ≤ room_in 0 seat.new.domains + 1) × (room_of 0 seat.old.totals.rooms ≤ room_of 0 seat.new.totals.rooms + 1) }
{
    match shares.add(seat, 0, wb, 1) {
        Ok(()) => {
            shares.wrote(seat, 0, 1);
            1
        }
        Err(_) => 0,
    }
}

// Reads until no period begins in between.
fn read_one<R: Wait>(rt: &R, shares: &Shares, seat: &mut ShareSeat, wb: u32) -> Fraction
    requires { IsSeatOf shares.now seat.old × (0 < length shares.now.domains) × (wb < length shares.now.homes) }
    ensures seat { IsSeatOf shares.now seat.new }
    ensures room { (room_in 0 seat.new.domains ≡ room_in 0 seat.old.domains) × (seat.new.totals ≡ seat.old.totals) }
    ensures small { result.num < 2 ^ 40 }
{
    for _ in rt.forever() {
        match shares.read(seat, 0, wb) {
            Ok(fraction) => return fraction,
            Err(_) => thread::yield_now(),
        }
    }
    unreachable!()
}

// Where it is asked to, begins a period, however often others come between.
fn begin_where<R: Wait>(rt: &R, shares: &Shares, seat: &mut ShareSeat, asked: bool)
    requires { IsSeatOf shares.now seat.old × (0 < length shares.now.domains) }
    ensures seat { IsSeatOf shares.now seat.new }
    ensures room { (room_in 0 seat.new.domains ≡ room_in 0 seat.old.domains) × (seat.new.totals ≡ seat.old.totals) }
{
    if !asked {
        return;
    }
    for _ in rt.forever() {
        match shares.new_period(seat, 0, 1) {
            Ok(_) => return,
            Err(_) => thread::yield_now(),
        }
    }
    unreachable!()
}

// Whether one addition more, in the same period or in the next, makes the one number of events of the other.
fn follows(last: &Fraction, next: &Fraction) -> bool
    requires { last.now.num < 2 ^ 40 }
{
    if next.period == last.period {
        return next.num == last.num + 1;
    }
    last.period == 0
        && next.period == 1
        && (next.num == last.num.div_ceil(2) || next.num == last.num / 2 + 1)
}

// Adds and reads in turn. Where it is asked to, it begins a period half-way.
fn add_and_read<R: Wait>(
    rt: &R,
    shares: &Shares,
    mut seat: ShareSeat,
    wb: u32,
    begins: bool,
) -> Work
    requires seat { IsSeatOf shares.now seat × (0 < length shares.now.domains) × (wb < length shares.now.homes) }
    requires room { (400 ≤ room_in 0 seat.domains) × (400 ≤ room_of 0 seat.totals.rooms) }
    ensures { IsSeatOf shares.now result.seat }
{
    let mut added = 0;
    let mut good = true;
    let mut last = Fraction {
        period: 0,
        num: 0,
        den: 1,
    };
    for round in 0..EACH {
        begin_where(rt, shares, &mut seat, begins && round == EACH / 2);
        added += add_one(shares, &mut seat, wb);
        let next = read_one(rt, shares, &mut seat, wb);
        good = good && follows(&last, &next);
        last = next;
        thread::yield_now();
    }
    Work {
        seat,
        added,
        good,
        last,
    }
}

// The proportions of two contexts in one domain, and a seat for each of two threads.
fn two_seats(alloc: Global) -> Result<(Shares, ShareSeat, ShareSeat), NoMemory>
    ensures shares { IfOk result (λ made. (length made.0.domains ≡ 1) × (length made.0.homes ≡ 2)) }
    ensures seats { IfOk result (λ made. IsSeatOf made.0 made.1 × IsSeatOf made.0 made.2) }
    ensures rooms { IfOk result (λ made. (400 ≤ room_in 0 made.1.domains) × (400 ≤ room_in 0 made.2.domains)) }
    ensures totals { IfOk result (λ made. (400 ≤ room_of 0 made.1.totals.rooms) × (400 ≤ room_of 0 made.2.totals.rooms)) }
{
    let (shares, mut seat) = Shares::make(alloc, 1, &[0, 0])?;
    let other = shares.split(alloc, &mut seat)?;
    Ok((shares, seat, other))
}

// What two threads made together.
#[derive(Drop)]
struct Together {
    added: (u64, u64),
    good: bool,
    // What each thread read last of its part.
    last: (Fraction, Fraction),
    // What the joined seat reads of each part.
    parts: (Fraction, Fraction),
    written: u64,
}

// Two threads add and read beside each other, each a part of its own. The second begins a period half-way.
fn share_by_two<R: Threads + Wait + Sync>(rt: &R, alloc: Global) -> Result<Together, NoMemory> {
    let (shares, seat, other) = two_seats(alloc)?;
    let shared = &shares;
    let (one, two) = thread::join(
        rt,
        || -> Work
            requires seat { IsSync R.row × IsSeatOf shared.now seat × (length shared.now.domains ≡ 1) × (length shared.now.homes ≡ 2) }
            requires room { (400 ≤ room_in 0 seat.domains) × (400 ≤ room_of 0 seat.totals.rooms) }
            ensures { IsSeatOf shared.entry.now result.seat }
        { add_and_read(rt, shared, seat, 0, false) },
        || -> Work
            requires seat { IsSync R.row × IsSeatOf shared.now other × (length shared.now.domains ≡ 1) × (length shared.now.homes ≡ 2) }
            requires room { (400 ≤ room_in 0 other.domains) × (400 ≤ room_of 0 other.totals.rooms) }
            ensures { IsSeatOf shared.entry.now result.seat }
        { add_and_read(rt, shared, other, 1, true) },
    );
    let mut all = one.seat;
    shares.join(&mut all, two.seat);
    let parts = (
        read_one(rt, &shares, &mut all, 0),
        read_one(rt, &shares, &mut all, 1),
    );
    Ok(Together {
        added: (one.added, two.added),
        good: one.good && two.good,
        last: (one.last, two.last),
        parts,
        written: shares.written(&mut all, 0),
    })
}

// A thread's last fraction, brought to the period of the other.
fn brought(last: &Fraction, period: u64) -> u64 {
    if last.period == period {
        last.num
    } else {
        last.num / 2
    }
}

#[test]
fn two_threads_add_and_read_while_a_period_begins(rt: HostRuntime) -> Result<(), Fail> {
    let made = share_by_two(&rt, rt.alloc())?;
    assert!(rt; made.good);
    assert_eq!(rt; made.added, (EACH, EACH));
    assert_eq!(rt; made.written, 2 * EACH);
    let (first, second) = made.parts;
    assert_eq!(rt; (first.period, second.period), (1, 1));
    assert_eq!(rt; first.num, brought(&made.last.0, 1));
    assert_eq!(rt; second.num, EACH / 4 + EACH / 2);
    assert_eq!(rt; second.num, brought(&made.last.1, 1));
    let whole = u128::from(first.num) + u128::from(second.num);
    assert!(rt; u128::from(first.den) == whole || u128::from(first.den) == whole + 1);
    Ok(())
}
