//! One queue by one thread, and one by four threads.

ghost use Rattle.std.specs.Prelude.{◌≡◌, ◌+◌, ◌*◌, ◌<◌, ◌≤◌, ◌^◌, [], All, length, IfOk};
ghost use Rattle.std.specs.Thread.{IsSync};
ghost use Rattle.wbt_queue.specs.Passes.{IsPassOf};

use std::alloc::{AllocError, Global};
use std::sync::Wait;
use std::test::Fail;
use std::thread;
use std::thread::Threads;
use wbt_io::NoMemory;
use wbt_queue::{Full, QueuePass, Queues};

// Queues of these sizes, and the first pass.
fn opened(alloc: Global, sizes: &[u32]) -> Result<(Queues, QueuePass), NoMemory>
    requires { All (λ size. 1 ≤ size) sizes.now }
    ensures sizes { IfOk result (λ made. length made.0.sizes ≡ length sizes.now) }
    ensures pass { IfOk result (λ made. IsPassOf made.0 made.1) }
{
    Queues::make(alloc, sizes)
}

// A pass for a further thread.
fn split_off<R: Wait>(
    rt: &R,
    alloc: Global,
    queues: &Queues,
    pass: &mut QueuePass,
) -> Result<QueuePass, NoMemory>
    requires { IsPassOf queues.now pass.old }
    ensures { IfOk result (λ other. IsPassOf queues.now pass.new × IsPassOf queues.now other) }
{
    queues.split(rt, alloc, pass)
}

fn put<R: Wait>(
    rt: &R,
    queues: &Queues,
    pass: &mut QueuePass,
    device: u32,
    inode: u32,
) -> Result<(), Full>
    requires { IsPassOf queues.now pass.old × (device < length queues.now.sizes) }
    ensures { IsPassOf queues.now pass.new }
{
    queues.put(rt, pass, device, inode)
}

fn take<R: Wait>(rt: &R, queues: &Queues, pass: &mut QueuePass, device: u32) -> Option<u32>
    requires { IsPassOf queues.now pass.old × (device < length queues.now.sizes) }
    ensures { IsPassOf queues.now pass.new }
{
    queues.take(rt, pass, device)
}

// Brings two passes together, and takes of a device twice.
fn take_together<R: Wait>(
    rt: &R,
    queues: &Queues,
    into: QueuePass,
    from: QueuePass,
    device: u32,
) -> (Option<u32>, Option<u32>)
    requires passes { IsPassOf queues.now into × IsPassOf queues.now from }
    requires device { device < length queues.now.sizes }
{
    let mut all = into;
    queues.join(rt, &mut all, from);
    let first = take(rt, queues, &mut all, device);
    (first, take(rt, queues, &mut all, device))
}

#[test]
fn a_queue_of_one_is_full_and_then_empty(rt: HostRuntime) -> Result<(), Fail> {
    let (queues, mut pass) = opened(rt.alloc(), &[1])?;
    assert_eq!(rt; put(&rt, &queues, &mut pass, 0, 7), Ok(()));
    assert_eq!(rt; put(&rt, &queues, &mut pass, 0, 8), Err(Full));
    assert_eq!(rt; take(&rt, &queues, &mut pass, 0), Some(7));
    assert_eq!(rt; take(&rt, &queues, &mut pass, 0), None);
    Ok(())
}

#[test]
fn each_device_has_its_own_order(rt: HostRuntime) -> Result<(), Fail> {
    let (queues, mut pass) = opened(rt.alloc(), &[2, 3])?;
    let mut other = split_off(&rt, rt.alloc(), &queues, &mut pass)?;
    let puts = [
        put(&rt, &queues, &mut pass, 1, 5),
        put(&rt, &queues, &mut other, 0, 9),
        put(&rt, &queues, &mut other, 1, 4),
    ];
    assert_eq!(rt; puts, [Ok(()), Ok(()), Ok(())]);
    assert_eq!(rt; take(&rt, &queues, &mut other, 1), Some(5));
    assert_eq!(rt; take(&rt, &queues, &mut pass, 0), Some(9));
    let taken = take_together(&rt, &queues, pass, other, 1);
    assert_eq!(rt; taken, (Some(4), None));
    Ok(())
}

// Numbers that each putting thread puts, and each taking thread takes.
const EACH: u32 = 500;

// Puts the numbers from `first` on, in order.
fn put_some<R: Wait>(rt: &R, queues: &Queues, mut pass: QueuePass, first: u32) -> QueuePass
    requires { IsPassOf queues.now pass × (0 < length queues.now.sizes) × (first ≤ 500) }
    ensures { IsPassOf queues.now result }
{
    let mut next = 0;
    for _ in rt.forever() {
        if next >= EACH {
            return pass;
        }
        match queues.put(rt, &mut pass, 0, first + next) {
            Ok(()) => next += 1,
            Err(Full) => thread::yield_now(),
        }
    }
    unreachable!()
}

// Takes as many numbers as one thread puts.
fn take_some<R: Wait>(
    rt: &R,
    queues: &Queues,
    mut pass: QueuePass,
    mut taken: Vec<u32>,
) -> (QueuePass, Vec<u32>)
    requires { IsPassOf queues.now pass × (0 < length queues.now.sizes) }
    ensures { IsPassOf queues.now result.0 }
{
    for _ in rt.forever() {
        if taken.len() >= EACH as usize || taken.len() >= taken.capacity() {
            return (pass, taken);
        }
        match queues.take(rt, &mut pass, 0) {
            Some(inode) => taken.push_reserved(inode),
            None => thread::yield_now(),
        }
    }
    unreachable!()
}

// Two threads put, each with a pass of its own.
fn put_by_two<R: Threads + Wait + Sync>(
    rt: &R,
    queues: &Queues,
    one: QueuePass,
    two: QueuePass,
) -> (QueuePass, QueuePass)
    requires { IsPassOf queues.now one × IsPassOf queues.now two × (0 < length queues.now.sizes) }
    ensures { IsPassOf queues.now result.0 × IsPassOf queues.now result.1 }
{
    thread::join(
        rt,
        || -> QueuePass
            requires { IsSync R.row × IsPassOf queues.now one × (0 < length queues.now.sizes) }
            ensures { IsPassOf queues.entry.now result }
        { put_some(rt, queues, one, 0) },
        || -> QueuePass
            requires { IsSync R.row × IsPassOf queues.now two × (0 < length queues.now.sizes) }
            ensures { IsPassOf queues.entry.now result }
        { put_some(rt, queues, two, EACH) },
    )
}

// Two threads take, each with a pass of its own.
fn take_by_two<R: Threads + Wait + Sync>(
    rt: &R,
    queues: &Queues,
    one: (QueuePass, Vec<u32>),
    two: (QueuePass, Vec<u32>),
) -> ((QueuePass, Vec<u32>), (QueuePass, Vec<u32>))
    requires { IsPassOf queues.now one.0 × IsPassOf queues.now two.0 × (0 < length queues.now.sizes) }
    ensures { IsPassOf queues.now result.0.0 × IsPassOf queues.now result.1.0 }
{
    let (one, first) = one;
    let (two, second) = two;
    thread::join(
        rt,
        || -> (QueuePass, Vec<u32>)
            requires { IsSync R.row × IsPassOf queues.now one × (0 < length queues.now.sizes) }
            ensures { IsPassOf queues.entry.now result.0 }
        { take_some(rt, queues, one, first) },
        || -> (QueuePass, Vec<u32>)
            requires { IsSync R.row × IsPassOf queues.now two × (0 < length queues.now.sizes) }
            ensures { IsPassOf queues.entry.now result.0 }
        { take_some(rt, queues, two, second) },
    )
}

// All numbers that two threads took of what two other threads put.
fn taken_by_two<R: Threads + Wait + Sync>(rt: &R, alloc: Global) -> Result<Vec<u32>, Fail> {
    let (queues, mut pass) = opened(alloc, &[4])?;
    let second_put = split_off(rt, alloc, &queues, &mut pass)?;
    let first_take = split_off(rt, alloc, &queues, &mut pass)?;
    let second_take = split_off(rt, alloc, &queues, &mut pass)?;
    let one = (first_take, Vec::with_capacity(alloc, EACH as usize)?);
    let two = (second_take, Vec::with_capacity(alloc, EACH as usize)?);
    let shared = &queues;
    let ((mut all, second_put), (one, two)) = thread::join(
        rt,
        || -> (QueuePass, QueuePass)
            requires { IsSync R.row × IsPassOf shared.now pass × IsPassOf shared.now second_put × (0 < length shared.now.sizes) }
            ensures { IsPassOf shared.entry.now result.0 × IsPassOf shared.entry.now result.1 }
        { put_by_two(rt, shared, pass, second_put) },
        || -> ((QueuePass, Vec<u32>), (QueuePass, Vec<u32>))
            requires { IsSync R.row × IsPassOf shared.now one.0 × IsPassOf shared.now two.0 × (0 < length shared.now.sizes) }
            ensures { IsPassOf shared.entry.now result.0.0 × IsPassOf shared.entry.now result.1.0 }
        { take_by_two(rt, shared, one, two) },
    );
    queues.join(rt, &mut all, second_put);
    join_both(rt, &queues, all, one.0, two.0);
    let mut taken = one.1;
    taken.extend_from_slice(two.1.as_slice())?;
    taken.sort()?;
    Ok(taken)
}

// Brings three passes together.
fn join_both<R: Wait>(rt: &R, queues: &Queues, into: QueuePass, one: QueuePass, two: QueuePass)
    requires { IsPassOf queues.now into × IsPassOf queues.now one × IsPassOf queues.now two }
{
    let mut all = into;
    queues.join(rt, &mut all, one);
    queues.join(rt, &mut all, two);
}

#[test]
fn no_number_is_lost_or_taken_twice(rt: HostRuntime) -> Result<(), Fail> {
    let taken = taken_by_two(&rt, rt.alloc())?;
    assert_eq!(rt; taken.len(), 2 * EACH as usize);
    for (at, inode) in taken.iter().enumerate() {
        assert_eq!(rt; *inode as usize, at);
    }
    Ok(())
}
