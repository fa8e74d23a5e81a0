//! Two threads dirty, give back and clean the same pages: each dirtying is cleaned once, or absorbed.

ghost use Rattle.std.specs.Prelude.{◌≡◌, ◌<◌, ◌≤◌, IsTrue, IfSome};
ghost use Rattle.wbt_table.specs.Layout.{setting};
ghost use Rattle.wbt_table.specs.Seat.{IsAt};
ghost use Rattle.wbt_table.specs.Callers.{StepsFor, HasClaimed};

use std::test::Fail;
use std::thread;
use std::thread::Threads;
use throttle_in_use::calls::{
    claim_once, complete_claimed, give_back_once, has_page, joined, layout, settle, steps_for,
    write_page,
};
use throttle_in_use::counts::{left_by, pages_and_counts};
use throttle_in_use::seats::{Two, two_seats};
use throttle_in_use::waiting::Meeting;
use wbt_io::FreeGate;
use wbt_table::{Back, Claim, CpuSeat, Dirtied, Throttle};

// The pages that both threads work on stand in two words.
const PAGES: u32 = 64;

// How often each thread goes over all of them.
const ROUNDS: u32 = 12;

// What became of pages.
#[derive(Clone, Copy)]
struct Tally {
    // Pages that were found clean and dirtied.
    fresh: u32,
    // Pages that were given back, and dirty once more.
    redirtied: u32,
    // Pages that were given back, and dirty already.
    absorbed: u32,
    // Pages that were completed.
    cleaned: u32,
}

// What a thread did.
#[derive(Drop)]
struct Work {
    seat: CpuSeat,
    tally: Tally,
}

impl Tally {
    fn none() -> Tally {
        Tally {
            fresh: 0,
            redirtied: 0,
            absorbed: 0,
            cleaned: 0,
        }
    }

    fn and(&self, other: &Tally) -> Tally {
        Tally {
            fresh: self.fresh.saturating_add(other.fresh),
            redirtied: self.redirtied.saturating_add(other.redirtied),
            absorbed: self.absorbed.saturating_add(other.absorbed),
            cleaned: self.cleaned.saturating_add(other.cleaned),
        }
    }
}

// Claims a page until that isn't missed: whether the CPU holds it then.
fn claims_at_last(throttle: &Throttle, seat: &mut CpuSeat, cpu: u32, page: u32) -> bool
    requires seat { StepsFor throttle.now cpu seat.old }
    requires page { page < (setting throttle.now.layout).pages }
    ensures seat { StepsFor throttle.now cpu seat.new }
    ensures mine { IsTrue result → HasClaimed cpu page seat.new }
{
    for _try in 0..1_000_000 {
        match claim_once(throttle, seat, cpu, page) {
            Claim::Mine => return true,
            Claim::Missed {
                first: _,
                second: _,
            } => {}
            _ => return false,
        }
    }
    false
}

// Gives back a page that the CPU has claimed, until that isn't missed.
fn give_back_at_last(throttle: &Throttle, seat: &mut CpuSeat, cpu: u32, page: u32) -> Option<Back>
    requires seat { StepsFor throttle.now cpu seat.old }
    requires page { page < (setting throttle.now.layout).pages }
    requires mine { HasClaimed cpu page seat.old }
    ensures { StepsFor throttle.now cpu seat.new }
{
    for _try in 0..1_000_000 {
        match give_back_once(throttle, seat, cpu, page) {
            Some(
                Back::Missed {
                    first: _,
                    second: _,
                },
            ) => {}
            other => return other,
        }
    }
    None
}

// Claims a page, gives it back and pays.
fn return_page(throttle: &Throttle, seat: &mut CpuSeat, cpu: u32, page: u32, tally: &mut Tally)
    requires seat { StepsFor throttle.now cpu seat.old }
    requires page { page < (setting throttle.now.layout).pages }
    ensures { StepsFor throttle.now cpu seat.new }
{
    if !claims_at_last(throttle, seat, cpu, page) {
        return;
    }
    match give_back_at_last(throttle, seat, cpu, page) {
        Some(Back::Redirtied) => tally.redirtied = tally.redirtied.saturating_add(1),
        Some(Back::Absorbed) => tally.absorbed = tally.absorbed.saturating_add(1),
        _ => {}
    }
    let _ = settle(throttle, seat, cpu);
}

// Claims a page and completes it.
fn clean_page(throttle: &Throttle, seat: &mut CpuSeat, cpu: u32, page: u32, tally: &mut Tally)
    requires seat { StepsFor throttle.now cpu seat.old }
    requires page { page < (setting throttle.now.layout).pages }
    ensures { StepsFor throttle.now cpu seat.new }
{
    if !claims_at_last(throttle, seat, cpu, page) {
        return;
    }
    if complete_claimed(throttle, seat, cpu, page) {
        tally.cleaned = tally.cleaned.saturating_add(1);
    }
}

// Dirties, gives back and cleans a page, as far as the other CPU lets this one.
fn go_round(
    throttle: &Throttle,
    seat: &mut CpuSeat,
    cpu: u32,
    writer: u32,
    page: u32,
    tally: &mut Tally,
)
    requires { StepsFor throttle.now cpu seat.old }
    ensures { StepsFor throttle.now cpu seat.new }
{
    if !has_page(throttle, page) {
        return;
    }
    if write_page(throttle, seat, cpu, writer, page, &FreeGate) == Some((Dirtied::Fresh, true)) {
        tally.fresh = tally.fresh.saturating_add(1);
    }
    return_page(throttle, seat, cpu, page, tally);
    clean_page(throttle, seat, cpu, page, tally);
}

// Goes over all pages, once the other CPU has come too.
fn go_over(throttle: &Throttle, seat: CpuSeat, cpu: u32, meeting: &Meeting) -> Work
    requires seat { StepsFor throttle.now cpu seat }
    requires small { cpu ≤ 1 }
    ensures { IsAt throttle.now result.seat }
{
    let mut seat = seat;
    let mut tally = Tally::none();
    meeting.wait_for(meeting.cpus);
    for i in 0..ROUNDS * PAGES {
        let writer = cpu * 32 + i / 32;
        go_round(throttle, &mut seat, cpu, writer, i % PAGES, &mut tally);
    }
    Work { seat, tally }
}

// Two threads go over the same pages.
fn work_in_two<R: Threads>(
    rt: &R,
    throttle: &Throttle,
    one: CpuSeat,
    two: CpuSeat,
    meeting: &Meeting,
) -> (Work, Work)
    requires { StepsFor throttle.now 0 one × StepsFor throttle.now 1 two }
    ensures { IsAt throttle.now result.0.seat × IsAt throttle.now result.1.seat }
{
    thread::join(
        rt,
        || -> Work
            requires { StepsFor throttle.now 0 one }
            ensures { IsAt throttle.entry.now result.seat }
        { go_over(throttle, one, 0, meeting) },
        || -> Work
            requires { StepsFor throttle.now 1 two }
            ensures { IsAt throttle.entry.now result.seat }
        { go_over(throttle, two, 1, meeting) },
    )
}

// Cleans what is left.
fn clean_all(throttle: &Throttle, seat: &mut CpuSeat) -> u32
    requires { StepsFor throttle.now 0 seat.old }
    ensures { StepsFor throttle.now 0 seat.new }
{
    let mut tally = Tally::none();
    for page in 0..PAGES {
        if has_page(throttle, page) {
            clean_page(throttle, seat, 0, page, &mut tally);
        }
    }
    tally.cleaned
}

// Joins the seats of two, and cleans what is left: how many pages that were. None where the seat doesn't step for CPU 0.
fn clean_rest(throttle: &Throttle, one: CpuSeat, two: CpuSeat) -> Option<(CpuSeat, u32)>
    requires { IsAt throttle.now one × IsAt throttle.now two }
    ensures { IfSome result (λ rest. StepsFor throttle.now 0 rest.0) }
{
    let mut all = joined(throttle, one, two);
    if !steps_for(throttle, &all, 0) {
        return None;
    }
    let cleaned = clean_all(throttle, &mut all);
    Some((all, cleaned))
}

#[test]
fn what_two_threads_dirty_is_cleaned_once_or_absorbed(rt: HostRuntime) -> Result<(), Fail> {
    let (throttle, seat) = Throttle::make(rt.alloc(), layout(rt.alloc(), 2, PAGES)?)?;
    let Two { one, two } = two_seats(&throttle, rt.alloc(), seat)?;
    let meeting = Meeting::of(2);
    let (one, two) = work_in_two(&rt, &throttle, one, two, &meeting);
    assert!(rt; meeting.all_came());
    let done = one.tally.and(&two.tally);
    match clean_rest(&throttle, one.seat, two.seat) {
        Some((all, rest)) => {
            let cleaned = done.cleaned.saturating_add(rest);
            assert!(rt; done.redirtied.saturating_add(done.absorbed) >= 1);
            assert_eq!(rt; done.fresh, cleaned.saturating_add(done.absorbed));
            assert_eq!(rt; pages_and_counts(left_by(throttle, all)), Some((0, (0, 0))));
        }
        None => assert!(rt; false),
    }
    Ok(())
}
