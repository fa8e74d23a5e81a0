//! The seats of three CPUs in parts, and together again; and what is left in a throttle.

ghost use Rattle.std.specs.Prelude.{◌≡◌, ℕ, ◌<◌, ◌≤◌, ◌∷◌, [], length, get_or, IfOk, IfSome};
ghost use Rattle.wbt_kit.specs.Kit.{HasOwners, AreSeatsOf, AreFirst};
ghost use Rattle.wbt_kit.specs.declared.kit.Seats.{Seats as Parts};
ghost use Rattle.wbt_table.specs.Layout.{setting, IsLayout};
ghost use Rattle.wbt_table.specs.Calls.{IsFirst, HoldsAll};
ghost use Rattle.wbt_table.specs.Seat.{IsAt};

use std::alloc::{AllocError, Global};
use std::sync::Wait;
use std::test::Fail;
use wbt_io::NoMemory;
use wbt_journal::Left;
use wbt_kit::{Kit, Seats};
use wbt_num::{Items, Limits};
use wbt_run_seats::{join_each, left_in, publishes_all, split_each, take_notes, take_records};
use wbt_table::{Census, CpuSeat, Layout, Place, Throttle, Writer};
use wbt_trace_text::{TraceFault, read_trace};

// Two devices, whose flushers are on the last CPUs.
const THREE_CPUS: &[u8] =
    b"cpus 3\navail 0 100000\ndevice 0 25600 0 100\ndevice 1 25600 0 100\ncontext 0 0 0\ncontext 1 1 0\ninode 0 0 2\ninode 1 1 2\ntask 0 0\nflusher 0 0 2\nflusher 1 1 1\nwrite 0 0 0 2\n";

// A kit, its first seats in parts, and what is left of them.
struct Crew {
    kit: Kit,
    left: Seats,
    parts: Vec<Seats>,
}

// The crew of a trace with two contexts.
fn crew_of<R: Wait>(rt: &R, alloc: Global, text: &[u8]) -> Result<Crew, TraceFault>
    ensures left { IfOk result (λ crew. AreSeatsOf crew.kit crew.left × (2 ≤ length crew.kit.published.names)) }
    ensures parts { IfOk result (λ crew. (k : ℕ) (other : Parts) → k < length crew.parts.items → AreSeatsOf crew.kit (get_or crew.parts.items k other)) }
{
    let trace = read_trace(alloc, text)?;
    match Kit::make(alloc, &trace, 1) {
        Ok((kit, left)) => cut(rt, alloc, kit, left, trace.cpus),
        Err(_) => Err(TraceFault::NoMemory),
    }
}

// Splits the first seats of a kit for each of its CPUs.
fn cut<R: Wait>(
    rt: &R,
    alloc: Global,
    kit: Kit,
    mut left: Seats,
    cpus: u32,
) -> Result<Crew, TraceFault>
    requires seats { HasOwners kit × AreSeatsOf kit left × AreFirst kit left }
    requires cpus { (cpus ≡ kit.throttle.layout.cpus) × (cpus ≤ 64) }
    ensures left { IfOk result (λ crew. AreSeatsOf crew.kit crew.left × (2 ≤ length crew.kit.published.names)) }
    ensures parts { IfOk result (λ crew. (k : ℕ) (other : Parts) → k < length crew.parts.items → AreSeatsOf crew.kit (get_or crew.parts.items k other)) }
{
    if kit.owners.as_slice().len() < 2 {
        return Err(TraceFault::NoMemory);
    }
    match split_each(rt, alloc, &kit, &mut left, cpus) {
        Ok(parts) => Ok(Crew { kit, left, parts }),
        Err(_) => Err(TraceFault::NoMemory),
    }
}

// Which of three CPUs and of the timer the seats hold.
fn held(seats: &Seats) -> [bool; 4] {
    [
        seats.cpu.holds(0),
        seats.cpu.holds(1),
        seats.cpu.holds(2),
        seats.cpu.holds(3),
    ]
}

// For which of two contexts they publish.
fn published(seats: &Seats) -> [bool; 2]
    requires { 2 ≤ length seats.now.est.known }
{
    [seats.est.publishes(0), seats.est.publishes(1)]
}

#[test]
fn each_cpu_has_a_part(rt: HostRuntime) -> Result<(), Fail> {
    let Crew {
        kit: _,
        left,
        parts,
    } = crew_of(&rt, rt.alloc(), THREE_CPUS)?;
    assert_eq!(rt; parts.len(), 3);
    let holds = [
        held(&parts[0]),
        held(&parts[1]),
        held(&parts[2]),
        held(&left),
    ];
    let publish = [
        published(&parts[0]),
        published(&parts[1]),
        published(&parts[2]),
        published(&left),
    ];
    let each_its_own = [
        [true, false, false, false],
        [false, true, false, false],
        [false, false, true, false],
        [false, false, false, true],
    ];
    assert_eq!(rt; holds, each_its_own);
    assert_eq!(rt;
        publish,
        [[false, false], [false, true], [true, false], [false, false]]
    );
    Ok(())
}

#[test]
fn they_come_together(rt: HostRuntime) -> Result<(), Fail> {
    let Crew {
        kit,
        mut left,
        parts,
    } = crew_of(&rt, rt.alloc(), THREE_CPUS)?;
    join_each(&rt, &kit, &mut left, parts);
    assert_eq!(rt; held(&left), [true, true, true, true]);
    assert!(rt; publishes_all(&left.est, 2));
    Ok(())
}

// The parts in one, where there are any.
fn in_one<R: Wait>(rt: &R, kit: &Kit, mut parts: Vec<Seats>) -> Option<Seats>
    requires { (k : ℕ) (other : Parts) → k < length parts.items → AreSeatsOf kit.now (get_or parts.items k other) }
    ensures { IfSome result (AreSeatsOf kit.now) }
{
    match parts.pop() {
        Some(mut all) => {
            join_each(rt, kit, &mut all, parts);
            Some(all)
        }
        None => None,
    }
}

#[test]
fn the_timer_takes_all_in(rt: HostRuntime) -> Result<(), Fail> {
    let Crew {
        kit,
        mut left,
        parts,
    } = crew_of(&rt, rt.alloc(), THREE_CPUS)?;
    if let Some(cpus) = in_one(&rt, &kit, parts) {
        let apart = take_records(&rt, &kit, &mut left, cpus);
        assert_eq!(rt; held(&left), [true, true, true, true]);
        assert!(rt; publishes_all(&left.est, 2));
        take_notes(&rt, &kit, &mut left, apart);
        assert_eq!(rt; held(&left), [true, true, true, true]);
        assert!(rt; publishes_all(&left.est, 2));
        return Ok(());
    }
    Err(Fail::from(NoMemory))
}

// One CPU with a writer, and an inode of three pages.
fn small_layout(alloc: Global) -> Result<Layout, AllocError>
    ensures { IfOk result (λ layout. IsLayout layout × (layout ≡ record { cpus = 1; cap = 32; firsts = record { thresh = 100; bg = 50; hard = 100 } ∷ []; contexts = 0 ∷ []; inodes = record { context = 0; first = 0; pages = 3 } ∷ []; writers = record { cpu = 0; context = 0 } ∷ []; page_steps = 8 })) }
{
    let mut firsts = Items::new(alloc);
    firsts.push(Limits {
        thresh: 100,
        bg: 50,
        hard: 100,
    })?;
    let mut contexts = Items::new(alloc);
    contexts.push(0)?;
    let mut inodes = Items::new(alloc);
    inodes.push(Place {
        context: 0,
        first: 0,
        pages: 3,
    })?;
    let mut writers = Items::new(alloc);
    writers.push(Writer { cpu: 0, context: 0 })?;
    Ok(Layout {
        cpus: 1,
        cap: 32,
        firsts,
        contexts,
        inodes,
        writers,
        page_steps: 8,
    })
}

// What the throttle of that layout tells after its page 1 was dirtied.
fn census_of_one(alloc: Global) -> Result<Census, NoMemory>
    ensures { IfOk result (λ census. 3 ≤ (setting census.layout).pages) }
{
    let layout = small_layout(alloc)?;
    let (throttle, seat) = Throttle::make(alloc, layout)?;
    Ok(dirty_and_close(throttle, seat))
}

// Dirties page 1, and closes the throttle.
fn dirty_and_close(throttle: Throttle, mut seat: CpuSeat) -> Census
    requires seat { IsAt throttle seat × IsFirst seat }
    requires layout { throttle.layout ≡ record { cpus = 1; cap = 32; firsts = record { thresh = 100; bg = 50; hard = 100 } ∷ []; contexts = 0 ∷ []; inodes = record { context = 0; first = 0; pages = 3 } ∷ []; writers = record { cpu = 0; context = 0 } ∷ []; page_steps = 8 } }
    ensures { 3 ≤ (setting result.layout).pages }
{
    match throttle.dirty(&mut seat, 0, 1) {
        Ok(_) => throttle.close(seat),
        Err(_) => throttle.close(seat),
    }
}

#[test]
fn a_dirty_page_is_left(rt: HostRuntime) -> Result<(), Fail> {
    let census = census_of_one(rt.alloc())?;
    let left = left_in(rt.alloc(), &census, 3)?;
    assert_eq!(rt; left.as_slice(), [Left { page: 1, word: 1 }].as_slice());
    Ok(())
}
