//! Threads work on one throttle, each with a seat of its own.

ghost use Rattle.std.specs.Prelude.{◌≡◌, ◌+◌, ◌<◌, ◌≤◌, true};
ghost use Rattle.std.specs.Thread.{IsSync};
ghost use Rattle.wbt_table.specs.Layout.{setting};
ghost use Rattle.wbt_table.specs.Seat.{IsAt};
ghost use Rattle.wbt_table.specs.Callers.{StepsFor};
ghost use Rattle.wbt_io.specs.Gates.{both_are};

use std::test::Fail;
use std::thread;
use std::thread::Threads;
use throttle_in_use::calls::{
    claim_under, complete_claimed, has_page, joined, layout, steps_of, write_page,
};
use throttle_in_use::counts::{left_by, pages_and_counts};
use throttle_in_use::seats::{Four, Two, four_seats, two_seats};
use throttle_in_use::waiting::Meeting;
use wbt_io::{FreeGate, Gate};
use wbt_table::{Claim, CpuSeat, Dirtied, Throttle};

// Which pages a CPU dirties and cleans: so many, whose numbers divided by the number of CPUs leave its own.
#[derive(Clone, Copy)]
struct Part {
    cpu: u32,
    cpus: u32,
    pages: u32,
}

// What a thread did.
#[derive(Drop)]
struct Work {
    seat: CpuSeat,
    // Pages that it found clean and dirtied.
    fresh: u32,
    // Pages that it claimed and completed.
    cleaned: u32,
    // Claims that were missed.
    missed: u64,
}

// Brings a CPU to the meeting before the look of its first claim, so that all have dirtied their pages before one looks, and again
// between that look and the exchange, which it asks for after so many steps, so that all have looked before one goes on.
#[derive(Clone, Copy)]
struct Meets<'a> {
    meeting: &'a Meeting,
    steps: u64,
}

impl<'a> Gate for Meets<'a> {
    ghost said = { λ _ _ _ answer. answer ≡ true };

    ghost one_answer = { λ gate cpu steps a b. both_are a b true };

    fn may_step(&self, _cpu: u32, steps: u64) -> bool
        ensures { result ≡ true }
    {
        if steps.saturating_add(1) == self.steps {
            self.meeting.wait_for(self.meeting.cpus);
        }
        if steps == self.steps {
            self.meeting.wait_for(self.meeting.cpus.saturating_mul(2));
        }
        true
    }
}

// Dirties the pages of a part, and pays for each: how many were fresh.
fn dirty_part(throttle: &Throttle, seat: &mut CpuSeat, part: Part) -> u32
    requires seat { StepsFor throttle.now part.cpu seat.old }
    requires small { (part.cpu < part.cpus) × (part.cpus ≤ 4) × (part.pages ≤ 1000) }
    ensures { StepsFor throttle.now part.cpu seat.new }
{
    let mut fresh = 0;
    for i in 0..part.pages {
        let writer = part.cpu * 32 + i / 32;
        let page = part.cpu + part.cpus * i;
        if write_page(throttle, seat, part.cpu, writer, page, &FreeGate)
            == Some((Dirtied::Fresh, true))
        {
            fresh += 1;
        }
    }
    fresh
}

// Claims a page until the claim isn't missed, and completes it: how many claims were missed. None where it couldn't.
fn clean<G: Gate>(
    throttle: &Throttle,
    seat: &mut CpuSeat,
    cpu: u32,
    page: u32,
    gate: &G,
) -> Option<u64>
    requires { StepsFor throttle.now cpu seat.old }
    ensures { StepsFor throttle.now cpu seat.new }
{
    if !has_page(throttle, page) {
        return None;
    }
    for missed in 0..1_000_000 {
        match claim_under(throttle, seat, cpu, page, gate) {
            Claim::Mine => {
                if complete_claimed(throttle, seat, cpu, page) {
                    return Some(missed);
                }
                return None;
            }
            Claim::Missed {
                first: _,
                second: _,
            } => {}
            _ => return None,
        }
    }
    None
}

// Dirties all pages of a part, and then cleans all.
fn work_part(throttle: &Throttle, seat: CpuSeat, part: Part, meeting: &Meeting) -> Work
    requires seat { StepsFor throttle.now part.cpu seat }
    requires small { (part.cpu < part.cpus) × (part.cpus ≤ 4) × (part.pages ≤ 1000) }
    ensures { IsAt throttle.now result.seat }
{
    let mut seat = seat;
    let fresh = dirty_part(throttle, &mut seat, part);
    let gate = Meets {
        meeting,
        steps: steps_of(throttle, &seat, part.cpu).saturating_add(1),
    };
    let mut cleaned = 0;
    let mut missed = 0u64;
    for i in 0..part.pages {
        let page = part.cpu + part.cpus * i;
        if let Some(more) = clean(throttle, &mut seat, part.cpu, page, &gate) {
            cleaned += 1;
            missed = missed.saturating_add(more);
        }
    }
    Work {
        seat,
        fresh,
        cleaned,
        missed,
    }
}

// Two threads work, for a CPU and the next one.
fn work_in_two<R: Threads>(
    rt: &R,
    throttle: &Throttle,
    one: CpuSeat,
    two: CpuSeat,
    part: Part,
    meeting: &Meeting,
) -> (Work, Work)
    requires one { StepsFor throttle.now part.cpu one }
    requires two { StepsFor throttle.now (part.cpu + 1) two }
    requires small { (part.cpu + 1 < part.cpus) × (part.cpus ≤ 4) × (part.pages ≤ 1000) }
    ensures { IsAt throttle.now result.0.seat × IsAt throttle.now result.1.seat }
{
    let next = Part {
        cpu: part.cpu + 1,
        ..part
    };
    thread::join(
        rt,
        || -> Work
            requires { StepsFor throttle.now part.cpu one × (part.cpu < part.cpus) × (part.cpus ≤ 4) × (part.pages ≤ 1000) }
            ensures { IsAt throttle.entry.now result.seat }
        { work_part(throttle, one, part, meeting) },
        || -> Work
            requires { StepsFor throttle.now next.cpu two × (next.cpu < next.cpus) × (next.cpus ≤ 4) × (next.pages ≤ 1000) }
            ensures { IsAt throttle.entry.now result.seat }
        { work_part(throttle, two, next, meeting) },
    )
}

// What four threads did.
#[derive(Drop)]
struct FourWorks {
    seat: CpuSeat,
    fresh: u32,
    cleaned: u32,
    missed: u64,
}

// Four threads work, and their seats are joined.
fn work_in_four<R: Threads + Sync>(
    rt: &R,
    throttle: &Throttle,
    seats: Four,
    pages: u32,
    meeting: &Meeting,
) -> FourWorks
    requires first { StepsFor throttle.now 0 seats.one × StepsFor throttle.now 1 seats.two }
    requires second { StepsFor throttle.now 2 seats.three × StepsFor throttle.now 3 seats.four }
    requires small { pages ≤ 1000 }
    ensures { IsAt throttle.now result.seat }
{
    let Four {
        one,
        two,
        three,
        four,
    } = seats;
    let low = Part {
        cpu: 0,
        cpus: 4,
        pages,
    };
    let high = Part {
        cpu: 2,
        cpus: 4,
        pages,
    };
    let (first, second) = thread::join(
        rt,
        || -> (Work, Work)
            requires { IsSync R.row × StepsFor throttle.now low.cpu one × StepsFor throttle.now (low.cpu + 1) two × (low.cpu + 1 < low.cpus) × (low.cpus ≤ 4) × (low.pages ≤ 1000) }
            ensures { IsAt throttle.entry.now result.0.seat × IsAt throttle.entry.now result.1.seat }
        { work_in_two(rt, throttle, one, two, low, meeting) },
        || -> (Work, Work)
            requires { IsSync R.row × StepsFor throttle.now high.cpu three × StepsFor throttle.now (high.cpu + 1) four × (high.cpu + 1 < high.cpus) × (high.cpus ≤ 4) × (high.pages ≤ 1000) }
            ensures { IsAt throttle.entry.now result.0.seat × IsAt throttle.entry.now result.1.seat }
        { work_in_two(rt, throttle, three, four, high, meeting) },
    );
    joined_works(throttle, first, second)
}

fn joined_works(throttle: &Throttle, first: (Work, Work), second: (Work, Work)) -> FourWorks
    requires first { IsAt throttle.now first.0.seat × IsAt throttle.now first.1.seat }
    requires second { IsAt throttle.now second.0.seat × IsAt throttle.now second.1.seat }
    ensures { IsAt throttle.now result.seat }
{
    let (one, two) = first;
    let (three, four) = second;
    let low = joined(throttle, one.seat, two.seat);
    let high = joined(throttle, three.seat, four.seat);
    FourWorks {
        seat: joined(throttle, low, high),
        fresh: one
            .fresh
            .saturating_add(two.fresh)
            .saturating_add(three.fresh)
            .saturating_add(four.fresh),
        cleaned: one
            .cleaned
            .saturating_add(two.cleaned)
            .saturating_add(three.cleaned)
            .saturating_add(four.cleaned),
        missed: one
            .missed
            .saturating_add(two.missed)
            .saturating_add(three.missed)
            .saturating_add(four.missed),
    }
}

#[test]
fn two_threads_leave_no_page(rt: HostRuntime) -> Result<(), Fail> {
    let (throttle, seat) = Throttle::make(rt.alloc(), layout(rt.alloc(), 2, 2000)?)?;
    let Two { one, two } = two_seats(&throttle, rt.alloc(), seat)?;
    let meeting = Meeting::of(2);
    let part = Part {
        cpu: 0,
        cpus: 2,
        pages: 1000,
    };
    let (one, two) = work_in_two(&rt, &throttle, one, two, part, &meeting);
    let counts = [one.fresh, two.fresh, one.cleaned, two.cleaned];
    assert_eq!(rt; counts, [1000, 1000, 1000, 1000]);
    assert!(rt; meeting.all_came());
    assert!(rt; one.missed.saturating_add(two.missed) >= 1);
    let all = joined(&throttle, one.seat, two.seat);
    assert_eq!(rt; pages_and_counts(left_by(throttle, all)), Some((0, (0, 0))));
    Ok(())
}

#[test]
fn four_threads_that_share_words_leave_no_page(rt: HostRuntime) -> Result<(), Fail> {
    let (throttle, seat) = Throttle::make(rt.alloc(), layout(rt.alloc(), 4, 400)?)?;
    let seats = four_seats(&throttle, rt.alloc(), seat)?;
    let meeting = Meeting::of(4);
    let works = work_in_four(&rt, &throttle, seats, 100, &meeting);
    assert_eq!(rt; (works.fresh, works.cleaned), (400, 400));
    assert!(rt; meeting.all_came());
    assert!(rt; works.missed >= 3);
    let left = left_by(throttle, works.seat);
    assert_eq!(rt; pages_and_counts(left), Some((0, (0, 0))));
    Ok(())
}
