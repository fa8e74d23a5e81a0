//! Makes 2^22 calls on shares on one thread, or on each of four, to be timed: `shares_bench CALL-THREADS`.
//!
//! CALL is `add` or `read`, or `bare-add` or `bare-read` for the atomic operations alone. Any other word makes no call. `bench/shares.sh`
//! times them.
#![tactic(auto)]

ghost use Rattle.std.specs.Prelude.{◌≡◌, ◌+◌, ◌<◌, ◌≤◌, length, IfOk};
ghost use Rattle.std.specs.Thread.{IsSync};
ghost use Rattle.wbt_fraction.specs.Several.{IsSeatOf, CanSplit, room_in};

use std::alloc::Global;
use std::process::ExitCode;
use std::sync::Wait;
use std::sync::atomic::AtomicU64;
use std::sync::atomic::Ordering::SeqCst;
use std::thread::Threads;
use std::{env, thread};
use wbt_fraction::{ShareSeat, Shares};
use wbt_io::NoMemory;

const CALLS: u64 = 1 << 22;

// The words of a domain and four parts, bare.
#[derive(Drop)]
struct Bare {
    domain: AtomicU64,
    parts: [AtomicU64; 4],
}

fn add_one(shares: &Shares, seat: &mut ShareSeat, wb: u32)
    requires seat { IsSeatOf shares.now seat.old × (0 < length shares.now.domains) × (wb < length shares.now.homes) }
    requires room { 1 ≤ room_in 0 seat.old.domains }
    ensures seat { IsSeatOf shares.now seat.new }
    ensures room { room_in 0 seat.old.domains ≤ room_in 0 seat.new.domains + 1 }
{
    match shares.add(seat, 0, wb, 1) {
        Ok(()) => {}
        Err(_) => {}
    }
}

fn add_all(shares: &Shares, mut seat: ShareSeat, wb: u32)
    requires seat { IsSeatOf shares.now seat × (0 < length shares.now.domains) × (wb < length shares.now.homes) }
    requires room { 4194304 ≤ room_in 0 seat.domains }
{
    for _round in 0..CALLS {
        add_one(shares, &mut seat, wb);
    }
}

fn read_one(shares: &Shares, seat: &mut ShareSeat, wb: u32) -> u64
    requires seat { IsSeatOf shares.now seat.old × (0 < length shares.now.domains) × (wb < length shares.now.homes) }
    ensures seat { IsSeatOf shares.now seat.new }
{
    match shares.read(seat, 0, wb) {
        Ok(fraction) => fraction.num ^ fraction.den,
        Err(again) => again.first,
    }
}

fn read_all(shares: &Shares, mut seat: ShareSeat, wb: u32) -> u64
    requires seat { IsSeatOf shares.now seat × (0 < length shares.now.domains) × (wb < length shares.now.homes) }
{
    let mut all = 0;
    for _round in 0..CALLS {
        all ^= read_one(shares, &mut seat, wb);
    }
    all
}

// The same atomic operations without a rule: two loads and two additions, or three loads.
fn bare_add(bare: &Bare, part: &AtomicU64) -> u64 {
    let mut all = 0;
    for _round in 0..CALLS {
        all ^= bare.domain.load(SeqCst) ^ part.load(SeqCst);
        let _ = part.fetch_add(1, SeqCst);
        let _ = bare.domain.fetch_add(1, SeqCst);
    }
    all
}

fn bare_read(bare: &Bare, part: &AtomicU64) -> u64 {
    let mut all = 0;
    for _round in 0..CALLS {
        all ^= bare.domain.load(SeqCst) ^ part.load(SeqCst) ^ bare.domain.load(SeqCst);
    }
    all
}

// What was read goes into the answer, so that no reading is left out.
fn share_work(shares: &Shares, seat: ShareSeat, wb: u32, adds: bool) -> u64
    requires seat { IsSeatOf shares.now seat × (0 < length shares.now.domains) × (wb < length shares.now.homes) }
    requires room { 4194304 ≤ room_in 0 seat.domains }
{
    if adds {
        add_all(shares, seat, wb);
        0
    } else {
        read_all(shares, seat, wb)
    }
}

fn bare_work(bare: &Bare, part: &AtomicU64, adds: bool) -> u64 {
    if adds {
        bare_add(bare, part)
    } else {
        bare_read(bare, part)
    }
}

fn split_off(
    shares: &Shares,
    alloc: Global,
    seat: &mut ShareSeat,
    left: u64,
) -> Result<ShareSeat, NoMemory>
    requires seat { IsSeatOf shares.now seat.old × (0 < length shares.now.domains) }
    requires splits { CanSplit (left + 1) shares.now seat.old }
    ensures splits { IfOk result (λ _. CanSplit left shares.now seat.new) }
    ensures seats { IfOk result (λ new. IsSeatOf shares.now seat.new × IsSeatOf shares.now new) }
    ensures room { IfOk result (λ new. 4194304 ≤ room_in 0 new.domains) }
{
    match shares.split(alloc, seat) {
        Ok(new) => Ok(new),
        Err(none) => Err(none),
    }
}

fn two_work<R: Threads + Wait + Sync>(
    rt: &R,
    shares: &Shares,
    one: ShareSeat,
    two: ShareSeat,
    wb: u32,
    adds: bool,
) -> u64
    requires seats { IsSeatOf shares.now one × IsSeatOf shares.now two × (length shares.now.domains ≡ 1) × (length shares.now.homes ≡ 4) × (wb ≤ 2) }
    requires room { (4194304 ≤ room_in 0 one.domains) × (4194304 ≤ room_in 0 two.domains) }
{
    let (first, second) = thread::join(
        rt,
        || -> u64
            requires { IsSeatOf shares.now one × (length shares.now.domains ≡ 1) × (length shares.now.homes ≡ 4) × (wb ≤ 2) × (4194304 ≤ room_in 0 one.domains) }
        { share_work(shares, one, wb, adds) },
        || -> u64
            requires { IsSeatOf shares.now two × (length shares.now.domains ≡ 1) × (length shares.now.homes ≡ 4) × (wb ≤ 2) × (4194304 ≤ room_in 0 two.domains) }
        { share_work(shares, two, wb + 1, adds) },
    );
    first ^ second
}

fn four_work<R: Threads + Wait + Sync>(
    rt: &R,
    shares: &Shares,
    a: (ShareSeat, ShareSeat),
    b: (ShareSeat, ShareSeat),
    adds: bool,
) -> u64
    requires first { IsSeatOf shares.now a.0 × IsSeatOf shares.now a.1 × (4194304 ≤ room_in 0 a.0.domains) × (4194304 ≤ room_in 0 a.1.domains) }
    requires second { IsSeatOf shares.now b.0 × IsSeatOf shares.now b.1 × (4194304 ≤ room_in 0 b.0.domains) × (4194304 ≤ room_in 0 b.1.domains) }
    requires shares { (length shares.now.domains ≡ 1) × (length shares.now.homes ≡ 4) }
{
    let (one, two) = a;
    let (three, four) = b;
    let (first, second) = thread::join(
        rt,
        || -> u64
            requires { IsSync R.row × IsSeatOf shares.now one × IsSeatOf shares.now two × (length shares.now.domains ≡ 1) × (length shares.now.homes ≡ 4) × (4194304 ≤ room_in 0 one.domains) × (4194304 ≤ room_in 0 two.domains) }
        { two_work(rt, shares, one, two, 0, adds) },
        || -> u64
            requires { IsSync R.row × IsSeatOf shares.now three × IsSeatOf shares.now four × (length shares.now.domains ≡ 1) × (length shares.now.homes ≡ 4) × (4194304 ≤ room_in 0 three.domains) × (4194304 ≤ room_in 0 four.domains) }
        { two_work(rt, shares, three, four, 2, adds) },
    );
    first ^ second
}

// Two seats that are split off, one after the other.
fn split_two(
    shares: &Shares,
    alloc: Global,
    seat: &mut ShareSeat,
    left: u64,
) -> Result<(ShareSeat, ShareSeat), NoMemory>
    requires left { left ≤ 63 }
    requires seat { IsSeatOf shares.now seat.old × (0 < length shares.now.domains) }
    requires splits { CanSplit (left + 2) shares.now seat.old }
    ensures splits { IfOk result (λ _. CanSplit left shares.now seat.new) }
    ensures seats { IfOk result (λ two. IsSeatOf shares.now seat.new × IsSeatOf shares.now two.0 × IsSeatOf shares.now two.1) }
    ensures room { IfOk result (λ two. (4194304 ≤ room_in 0 two.0.domains) × (4194304 ≤ room_in 0 two.1.domains)) }
{
    let one = split_off(shares, alloc, seat, left + 1)?;
    let two = split_off(shares, alloc, seat, left)?;
    Ok((one, two))
}

fn on_one(alloc: Global, shares: &Shares, mut seat: ShareSeat, adds: bool) -> Result<u64, NoMemory>
    requires seat { IsSeatOf shares.now seat × (length shares.now.domains ≡ 1) × (length shares.now.homes ≡ 4) }
    requires splits { CanSplit 64 shares.now seat }
{
    let one = split_off(shares, alloc, &mut seat, 63)?;
    Ok(share_work(shares, one, 0, adds))
}

fn on_four<R: Threads + Wait + Sync>(
    rt: &R,
    alloc: Global,
    shares: &Shares,
    mut seat: ShareSeat,
    adds: bool,
) -> Result<u64, NoMemory>
    requires seat { IsSeatOf shares.now seat × (length shares.now.domains ≡ 1) × (length shares.now.homes ≡ 4) }
    requires splits { CanSplit 64 shares.now seat }
{
    let first = split_two(shares, alloc, &mut seat, 62)?;
    let second = split_two(shares, alloc, &mut seat, 60)?;
    Ok(four_work(rt, shares, first, second, adds))
}

fn on_shares<R: Threads + Wait + Sync>(
    rt: &R,
    alloc: Global,
    adds: bool,
    many: bool,
) -> Result<u64, NoMemory> {
    let (shares, seat) = Shares::make(alloc, 1, &[0, 0, 0, 0])?;
    if many {
        on_four(rt, alloc, &shares, seat, adds)
    } else {
        on_one(alloc, &shares, seat, adds)
    }
}

fn bare_two<R: Threads + Wait + Sync>(
    rt: &R,
    bare: &Bare,
    one: &AtomicU64,
    two: &AtomicU64,
    adds: bool,
) -> u64 {
    let (first, second) = thread::join(
        rt,
        || -> u64 { bare_work(bare, one, adds) },
        || -> u64 { bare_work(bare, two, adds) },
    );
    first ^ second
}

fn on_words<R: Threads + Wait + Sync>(rt: &R, adds: bool, many: bool) -> u64 {
    let words = Bare {
        domain: AtomicU64::new(1),
        parts: [
            AtomicU64::new(0),
            AtomicU64::new(0),
            AtomicU64::new(0),
            AtomicU64::new(0),
        ],
    };
    let bare = &words;
    if many {
        let (first, second) = thread::join(
            rt,
            || -> u64
                requires { IsSync R.row }
            { bare_two(rt, bare, &bare.parts[0], &bare.parts[1], adds) },
            || -> u64
                requires { IsSync R.row }
            { bare_two(rt, bare, &bare.parts[2], &bare.parts[3], adds) },
        );
        first ^ second
    } else {
        bare_work(bare, &bare.parts[0], adds)
    }
}

fn run<R: Threads + Wait + Sync>(rt: &R, alloc: Global, word: &[u8]) -> Result<u64, NoMemory> {
    match word {
        b"add-1" => on_shares(rt, alloc, true, false),
        b"add-4" => on_shares(rt, alloc, true, true),
        b"read-1" => on_shares(rt, alloc, false, false),
        b"read-4" => on_shares(rt, alloc, false, true),
        b"bare-add-1" => Ok(on_words(rt, true, false)),
        b"bare-add-4" => Ok(on_words(rt, true, true)),
        b"bare-read-1" => Ok(on_words(rt, false, false)),
        b"bare-read-4" => Ok(on_words(rt, false, true)),
        _ => Ok(0),
    }
}

fn main(rt: HostRuntime) -> ExitCode {
    let Ok(args) = env::args(&rt) else {
        return ExitCode::from(1);
    };
    let mut all = 0;
    for word in args.skip(1) {
        match run(&rt, rt.alloc(), word.as_bytes()) {
            Ok(sum) => all ^= sum,
            Err(_) => return ExitCode::from(2),
        }
    }
    if all == u64::MAX {
        return ExitCode::from(3);
    }
    ExitCode::SUCCESS
}
