//! A claim that another CPU's claim comes between, and giving back.

ghost use Rattle.std.specs.Prelude.{◌≡◌, ◌-◌, ◌<◌, ◌≤◌, true, IfOk, IfSome};
ghost use Rattle.wbt_table.specs.Layout.{setting};
ghost use Rattle.wbt_table.specs.Seat.{IsAt};
ghost use Rattle.wbt_table.specs.Callers.{StepsFor, HasClaimed};

use std::alloc::Global;
use std::test::Fail;
use std::thread;
use std::thread::Threads;
use throttle_in_use::calls::{
    claim_once, claim_under, claims, give_back_once, give_back_under, has_page, joined, layout,
    steps_of, write_page,
};
use throttle_in_use::counts::{Left, bits_and_counts, left_by, pages_and_counts};
use throttle_in_use::seats::{Two, two_seats};
use throttle_in_use::stage::{HELD, LET_GO, LetsIn, Stage};
use throttle_in_use::unready::Unready;
use wbt_io::{FreeGate, Gate};
use wbt_table::{Back, Claim, CpuSeat, Dirtied, Throttle};

// Writes the first pages, each of which is fresh, and pays for each.
fn write_pages(throttle: &Throttle, seat: &mut CpuSeat, pages: u32) -> bool
    requires { StepsFor throttle.now 0 seat.old }
    ensures { StepsFor throttle.now 0 seat.new }
{
    for page in 0..pages {
        let wrote = write_page(throttle, seat, 0, 0, page, &FreeGate);
        if wrote != Some((Dirtied::Fresh, true)) {
            return false;
        }
    }
    true
}

// A throttle of two CPUs and so many pages, which CPU 0 has dirtied, and the seats of the two.
fn dirtied(alloc: Global, pages: u32) -> Result<(Throttle, Two), Unready>
    requires { (1 ≤ pages) × (pages ≤ 2) }
    ensures seats { IfOk result (λ made. StepsFor made.0 0 made.1.one × StepsFor made.0 1 made.1.two) }
    ensures pages { IfOk result (λ made. (0 < (setting made.0.layout).pages) × (pages - 1 < (setting made.0.layout).pages)) }
{
    let (throttle, seat) = Throttle::make(alloc, layout(alloc, 2, pages)?)?;
    if !has_page(&throttle, 0) {
        return Err(Unready::NotItsSeat);
    }
    if !has_page(&throttle, pages - 1) {
        return Err(Unready::NotItsSeat);
    }
    match two_seats(&throttle, alloc, seat) {
        Ok(mut seats) => {
            if !write_pages(&throttle, &mut seats.one, pages) {
                return Err(Unready::NotItsSeat);
            }
            Ok((throttle, seats))
        }
        Err(unready) => Err(unready),
    }
}

// What a CPU's claims came to.
#[derive(Drop)]
struct Claimed {
    seat: CpuSeat,
    claim: Claim,
}

// CPU 0 claims page 0, and lets CPU 1 in between look and exchange.
fn claim_letting_in(throttle: &Throttle, seat: CpuSeat, stage: &Stage) -> Claimed
    requires seat { StepsFor throttle.now 0 seat }
    requires page { 0 < (setting throttle.now.layout).pages }
    ensures { StepsFor throttle.now 0 result.seat }
{
    let mut seat = seat;
    let gate = LetsIn {
        stage,
        steps: seat.steps(0).saturating_add(1),
    };
    let claim = claim_under(throttle, &mut seat, 0, 0, &gate);
    Claimed { seat, claim }
}

// CPU 1 claims a page once it is let in.
fn claim_let_in(throttle: &Throttle, seat: CpuSeat, page: u32, stage: &Stage) -> Claimed
    requires seat { StepsFor throttle.now 1 seat }
    requires page { page < (setting throttle.now.layout).pages }
    ensures { IsAt throttle.now result.seat }
{
    let mut seat = seat;
    stage.wait_for(HELD);
    let claim = claim_once(throttle, &mut seat, 1, page);
    stage.come_to(LET_GO);
    Claimed { seat, claim }
}

// The second of two CPUs claims a page between look and exchange of the first's claim of page 0.
fn claim_beside<R: Threads>(
    rt: &R,
    throttle: &Throttle,
    one: CpuSeat,
    two: CpuSeat,
    page: u32,
    stage: &Stage,
) -> (Claimed, Claimed)
    requires seats { StepsFor throttle.now 0 one × StepsFor throttle.now 1 two }
    requires pages { (0 < (setting throttle.now.layout).pages) × (page < (setting throttle.now.layout).pages) }
    ensures { StepsFor throttle.now 0 result.0.seat × IsAt throttle.now result.1.seat }
{
    thread::join(
        rt,
        || -> Claimed
            requires { StepsFor throttle.now 0 one × (0 < (setting throttle.now.layout).pages) }
            ensures { StepsFor throttle.entry.now 0 result.seat }
        { claim_letting_in(throttle, one, stage) },
        || -> Claimed
            requires { StepsFor throttle.now 1 two × (page < (setting throttle.now.layout).pages) }
            ensures { IsAt throttle.entry.now result.seat }
        { claim_let_in(throttle, two, page, stage) },
    )
}

// The two words of a miss.
#[derive(Clone, Copy, Debug, PartialEq, Eq)]
struct Words {
    first: u64,
    second: u64,
}

// What giving a page back came to.
#[derive(Drop)]
struct GivenBack {
    seat: CpuSeat,
    // None where it wasn't missed. Where it was, the CPU holds the page still.
    missed: Option<Words>,
}

// The words of giving back page 0, where it is missed under a gate.
fn missed_under<G: Gate>(throttle: &Throttle, seat: &mut CpuSeat, gate: &G) -> Option<Words>
    requires seat { StepsFor throttle.now 0 seat.old }
    requires page { 0 < (setting throttle.now.layout).pages }
    requires mine { HasClaimed 0 0 seat.old }
    ensures seat { StepsFor throttle.now 0 seat.new }
    ensures mine { IfSome result (λ _. HasClaimed 0 0 seat.new) }
{
    match give_back_under(throttle, seat, 0, 0, gate) {
        Some(Back::Missed { first, second }) => Some(Words { first, second }),
        _ => None,
    }
}

// CPU 0 gives page 0 back, and lets CPU 1 in between look and exchange.
fn give_back_letting_in(throttle: &Throttle, seat: CpuSeat, stage: &Stage) -> GivenBack
    requires seat { StepsFor throttle.now 0 seat }
    requires page { 0 < (setting throttle.now.layout).pages }
    requires mine { HasClaimed 0 0 seat }
    ensures seat { StepsFor throttle.now 0 result.seat }
    ensures mine { IfSome result.missed (λ _. HasClaimed 0 0 result.seat) }
{
    let mut seat = seat;
    let gate = LetsIn {
        stage,
        steps: steps_of(throttle, &seat, 0).saturating_add(1),
    };
    let missed = missed_under(throttle, &mut seat, &gate);
    GivenBack { seat, missed }
}

// The second of two CPUs claims a page between look and exchange of the first, which gives page 0 back.
fn give_back_beside<R: Threads>(
    rt: &R,
    throttle: &Throttle,
    one: CpuSeat,
    two: CpuSeat,
    page: u32,
    stage: &Stage,
) -> (GivenBack, Claimed)
    requires seats { StepsFor throttle.now 0 one × StepsFor throttle.now 1 two }
    requires pages { (0 < (setting throttle.now.layout).pages) × (page < (setting throttle.now.layout).pages) }
    requires mine { HasClaimed 0 0 one }
    ensures seats { StepsFor throttle.now 0 result.0.seat × IsAt throttle.now result.1.seat }
    ensures mine { IfSome result.0.missed (λ _. HasClaimed 0 0 result.0.seat) }
{
    thread::join(
        rt,
        || -> GivenBack
            requires { StepsFor throttle.now 0 one × (0 < (setting throttle.now.layout).pages) × HasClaimed 0 0 one }
            ensures { StepsFor throttle.entry.now 0 result.seat × IfSome result.missed (λ _. HasClaimed 0 0 result.seat) }
        { give_back_letting_in(throttle, one, stage) },
        || -> Claimed
            requires { StepsFor throttle.now 1 two × (page < (setting throttle.now.layout).pages) }
            ensures { IsAt throttle.entry.now result.seat }
        { claim_let_in(throttle, two, page, stage) },
    )
}

// Gives page 0 back at the second try, whose first one was missed by these words.
fn give_back_again(throttle: &Throttle, given: GivenBack, words: Words) -> Option<CpuSeat>
    requires seat { StepsFor throttle.now 0 given.seat }
    requires page { 0 < (setting throttle.now.layout).pages }
    requires mine { IfSome given.missed (λ _. HasClaimed 0 0 given.seat) }
    ensures { IfSome result (λ seat. StepsFor throttle.now 0 seat) }
{
    let GivenBack { mut seat, missed } = given;
    match missed {
        Some(found) => {
            if found != words {
                return None;
            }
            if give_back_once(throttle, &mut seat, 0, 0) != Some(Back::Redirtied) {
                return None;
            }
            Some(seat)
        }
        None => None,
    }
}

// Two pages were dirtied, and CPU 0 has claimed the first.
fn first_claimed(alloc: Global) -> Result<(Throttle, Two), Unready>
    ensures seats { IfOk result (λ made. StepsFor made.0 0 made.1.one × StepsFor made.0 1 made.1.two) }
    ensures pages { IfOk result (λ made. (0 < (setting made.0.layout).pages) × (1 < (setting made.0.layout).pages)) }
    ensures mine { IfOk result (λ made. HasClaimed 0 0 made.1.one) }
{
    match dirtied(alloc, 2) {
        Ok((throttle, mut seats)) => {
            if !claims(&throttle, &mut seats.one, 0, 0) {
                return Err(Unready::NotItsSeat);
            }
            Ok((throttle, seats))
        }
        Err(unready) => Err(unready),
    }
}

// Gives page 0 back at the second try, and closes the throttle.
fn left_after_again(throttle: Throttle, one: GivenBack, two: CpuSeat, words: Words) -> Option<Left>
    requires seats { StepsFor throttle 0 one.seat × IsAt throttle two }
    requires page { 0 < (setting throttle.layout).pages }
    requires mine { IfSome one.missed (λ _. HasClaimed 0 0 one.seat) }
{
    match give_back_again(&throttle, one, words) {
        Some(seat) => {
            let all = joined(&throttle, seat, two);
            left_by(throttle, all)
        }
        None => None,
    }
}

#[test]
fn giving_back_is_missed_where_a_neighbour_was_claimed(rt: HostRuntime) -> Result<(), Fail> {
    let (throttle, Two { one, two }) = first_claimed(rt.alloc())?;
    let stage = Stage::make();
    let (one, two) = give_back_beside(&rt, &throttle, one, two, 1, &stage);
    assert!(rt; stage.was_kept());
    assert_eq!(rt; two.claim, Claim::Mine);
    let words = Words {
        first: 6,
        second: 10,
    };
    let left = left_after_again(throttle, one, two.seat, words);
    assert_eq!(rt; bits_and_counts(left), Some((1, (2, 2))));
    Ok(())
}

// CPU 0 claims page 0 at the second try: what that came to, and what is left.
fn claim_again(throttle: Throttle, one: CpuSeat, two: CpuSeat) -> (Claim, Option<Left>)
    requires seats { StepsFor throttle 0 one × IsAt throttle two }
    requires page { 0 < (setting throttle.layout).pages }
{
    let mut one = one;
    let claim = claim_once(&throttle, &mut one, 0, 0);
    let all = joined(&throttle, one, two);
    (claim, left_by(throttle, all))
}

#[test]
fn a_claim_is_missed_where_a_neighbour_was_claimed(rt: HostRuntime) -> Result<(), Fail> {
    let (throttle, Two { one, two }) = dirtied(rt.alloc(), 2)?;
    let stage = Stage::make();
    let (one, two) = claim_beside(&rt, &throttle, one, two, 1, &stage);
    assert!(rt; stage.was_kept());
    let missed = Claim::Missed {
        first: 5,
        second: 9,
    };
    assert_eq!(rt; (one.claim, two.claim), (missed, Claim::Mine));
    let (claim, left) = claim_again(throttle, one.seat, two.seat);
    assert_eq!(rt; claim, Claim::Mine);
    assert_eq!(rt; pages_and_counts(left), Some((2, (2, 2))));
    Ok(())
}

#[test]
fn a_claim_is_missed_where_the_page_was_claimed(rt: HostRuntime) -> Result<(), Fail> {
    let (throttle, Two { one, two }) = dirtied(rt.alloc(), 1)?;
    let stage = Stage::make();
    let (one, two) = claim_beside(&rt, &throttle, one, two, 0, &stage);
    assert!(rt; stage.was_kept());
    let missed = Claim::Missed {
        first: 1,
        second: 2,
    };
    assert_eq!(rt; (one.claim, two.claim), (missed, Claim::Mine));
    let all = joined(&throttle, one.seat, two.seat);
    assert_eq!(rt; pages_and_counts(left_by(throttle, all)), Some((1, (1, 1))));
    Ok(())
}
