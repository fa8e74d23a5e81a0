//! A kit of one CPU, and what becomes of its seats.

ghost use Rattle.std.specs.Prelude.{◌≡◌, ◌<◌, length, IfOk};
ghost use Rattle.wbt_kit.specs.Kit.{AreSeatsOf, AreFirst, HasOwners};

use std::alloc::Global;
use std::sync::Wait;
use std::test::Fail;
use wbt_io::NoMemory;
use wbt_journal::writers_in_order;
use wbt_kit::{Kit, Seats};
use wbt_rules::first_limits;
use wbt_trace_text::{TraceFault, read_trace};

// One CPU and two pages of one task.
const TWO_PAGES: &[u8] =
    b"cpus 1\navail 0 100000\ndevice 0 25600 0 100\ncontext 0 0 0\ninode 0 0 2\ntask 0 0\nflusher 0 0 0\nwrite 0 0 0 2\n";

// Two tasks, of which each writes in both contexts, the later one first.
const TWO_TASKS: &[u8] =
    b"cpus 2\navail 0 100000\ndevice 0 25600 0 100\ncgroup 1 50000 30000\ncontext 0 0 0\ncontext 1 0 1\ninode 0 0 2\ninode 1 1 2\ntask 0 1\ntask 1 0\nflusher 0 0 1\nflusher 1 0 0\nwrite 1 1 0 1\nwrite 0 1 1 1\nwrite 1 0 0 1\nwrite 0 0 1 1\n";

// The kit of a trace with a context that opens at 1.
fn kit_of(alloc: Global, text: &[u8]) -> Result<(Kit, Seats), TraceFault>
    ensures context { IfOk result (λ made. 0 < length made.0.owners) }
    ensures made { IfOk result (λ made. HasOwners made.0 × AreSeatsOf made.0 made.1 × AreFirst made.0 made.1) }
{
    let trace = read_trace(alloc, text)?;
    match Kit::make(alloc, &trace, 1) {
        Ok((kit, seats)) => {
            if kit.owners.as_slice().len() == 0 {
                return Err(TraceFault::NoMemory);
            }
            Ok((kit, seats))
        }
        Err(_) => Err(TraceFault::NoMemory),
    }
}

// Splits CPU 0 off, where the seats hold it.
fn split_first<R: Wait>(
    rt: &R,
    alloc: Global,
    kit: &Kit,
    seats: &mut Seats,
) -> Result<Seats, NoMemory>
    requires context { 0 < length kit.now.owners }
    requires made { HasOwners kit.now × AreSeatsOf kit.now seats.old × AreFirst kit.now seats.old }
    ensures seats { IfOk result (λ new. AreSeatsOf kit.now seats.new × AreSeatsOf kit.now new) }
    ensures contexts { IfOk result (λ new. (0 < length seats.new.est.known) × (0 < length new.est.known)) }
{
    if seats.cpu.holds(0) {
        return kit.split(rt, alloc, seats, 0);
    }
    Err(NoMemory)
}

// Brings the seats together again.
fn join_back<R: Wait>(rt: &R, kit: &Kit, seats: &mut Seats, new: Seats)
    requires { AreSeatsOf kit.now seats.old × AreSeatsOf kit.now new }
    ensures { length seats.new.est.known ≡ length seats.old.est.known }
{
    kit.join(rt, seats, new);
}

// Whether seats hold CPU 0, whether they hold the timer, and whether they publish the estimates of the first context.
fn held_by(seats: &Seats) -> [bool; 3]
    requires { 0 < length seats.now.est.known }
{
    [
        seats.cpu.holds(0),
        seats.cpu.holds(1),
        seats.est.publishes(0),
    ]
}

// What the seats of CPU 0 hold after a split, what the others do, and what all do once they are together again.
fn held_in_turn<R: Wait>(rt: &R, alloc: Global) -> Result<[[bool; 3]; 3], Fail> {
    let (kit, mut seats) = kit_of(alloc, TWO_PAGES)?;
    let new = split_first(rt, alloc, &kit, &mut seats)?;
    let split = held_by(&new);
    let left = held_by(&seats);
    join_back(rt, &kit, &mut seats, new);
    Ok([split, left, held_by(&seats)])
}

#[test]
fn a_split_takes_the_cpu(rt: HostRuntime) -> Result<(), Fail> {
    let held = held_in_turn(&rt, rt.alloc())?;
    let apart_and_together = [
        [true, false, true],
        [false, true, false],
        [true, true, true],
    ];
    assert_eq!(rt; held, apart_and_together);
    Ok(())
}

// The task and the context of each writer, in order.
fn writers_of(alloc: Global, text: &[u8]) -> Result<Vec<(u32, u32)>, Fail> {
    let trace = read_trace(alloc, text)?;
    let writers = writers_in_order(alloc, &trace)?;
    let mut all = Vec::new(alloc);
    for writer in writers.as_slice() {
        all.push((writer.task, writer.context))?;
    }
    Ok(all)
}

#[test]
fn writers_stand_by_task_and_context(rt: HostRuntime) -> Result<(), Fail> {
    let writers = writers_of(rt.alloc(), TWO_TASKS)?;
    assert_eq!(rt;
        writers.as_slice(),
        [(0, 0), (0, 1), (1, 0), (1, 1)].as_slice()
    );
    Ok(())
}

// The first limits of a domain: threshold, background threshold and hard limit.
fn first_of(alloc: Global, text: &[u8], domain: u32) -> Result<(u64, u64, u64), Fail> {
    let trace = read_trace(alloc, text)?;
    if domain > trace.cgroups.as_slice().len() as u32 {
        return Err(Fail::from(NoMemory));
    }
    let first = first_limits(&trace, 1, domain);
    Ok((first.thresh, first.bg, first.hard))
}

#[test]
fn limits_begin_at_the_thresholds(rt: HostRuntime) -> Result<(), Fail> {
    let machine = first_of(rt.alloc(), TWO_TASKS, 0)?;
    let cgroup = first_of(rt.alloc(), TWO_TASKS, 1)?;
    let limits = [(19995, 9985, 19995), (15996, 7988, 15996)];
    assert_eq!(rt; [machine, cgroup], limits);
    Ok(())
}
