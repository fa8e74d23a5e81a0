//! What reads give: by one thread, and beside a publisher.

ghost use Rattle.std.specs.Prelude.{◌≡◌, ◌+◌, ◌^◌, ◌<◌, ◌≤◌, true, All, length, IfOk};
ghost use Rattle.std.specs.Thread.{IsSync};
ghost use Rattle.wbt_estimate.specs.Estimate.{IsSound};
ghost use Rattle.wbt_published.specs.Known.{next_version, IsFirst};
ghost use Rattle.wbt_published.specs.Passes.{IsPassOf, known_of};

use std::alloc::{AllocError, Global};
use std::sync::Wait;
use std::test::Fail;
use std::thread;
use std::thread::Threads;
use wbt_estimate::Estimate;
use wbt_num::Items;
use wbt_published::{EstPass, Published};

// An estimate of which each number is told by its version.
fn estimate_of(version: u64) -> Estimate
    requires { version < 2 ^ 20 }
    ensures version { result.version ≡ version }
    ensures sound { IsSound result }
{
    Estimate {
        version,
        bw: version + 1,
        avg: version + 2,
        ratelimit: version + 3,
        balanced: version + 4,
        written_stamp: version + 5,
        dirtied_stamp: version + 6,
        at: version + 7,
    }
}

// A first estimate at moment 1, of which each rate is told by a number.
fn first_of(rate: u64) -> Estimate
    requires { rate < 2 ^ 20 }
    ensures { IsFirst result }
{
    Estimate {
        version: 0,
        bw: rate + 1,
        avg: rate + 2,
        ratelimit: rate + 3,
        balanced: rate + 4,
        written_stamp: 0,
        dirtied_stamp: 0,
        at: 1,
    }
}

// That of one context.
fn one_first(alloc: Global) -> Result<Items<Estimate>, AllocError>
    ensures { IfOk result (λ firsts. All IsFirst firsts × (length firsts ≡ 1)) }
{
    let mut firsts = Items::new(alloc);
    firsts.push(first_of(10))?;
    Ok(firsts)
}

// Those of two contexts.
fn two_firsts(alloc: Global) -> Result<Items<Estimate>, AllocError>
    ensures { IfOk result (λ firsts. All IsFirst firsts × (length firsts ≡ 2)) }
{
    let mut firsts = one_first(alloc)?;
    firsts.push(first_of(20))?;
    Ok(firsts)
}

#[test]
fn a_publication_is_read_whole(rt: HostRuntime) -> Result<(), Fail> {
    let firsts = one_first(rt.alloc())?;
    let (published, mut pass) = Published::make(rt.alloc(), firsts, 1)?;
    let first = published.read(&rt, &mut pass, 0);
    assert_eq!(rt; first, first_of(10));
    published.publish(&rt, &mut pass, 0, estimate_of(1));
    assert_eq!(rt; published.read(&rt, &mut pass, 0), estimate_of(1));
    Ok(())
}

#[test]
fn each_context_begins_with_its_own_estimate(rt: HostRuntime) -> Result<(), Fail> {
    let firsts = two_firsts(rt.alloc())?;
    let (published, mut pass) = Published::make(rt.alloc(), firsts, 1)?;
    assert_eq!(rt; published.read(&rt, &mut pass, 1), first_of(20));
    published.publish(&rt, &mut pass, 1, estimate_of(1));
    let mut other = published.split(&rt, rt.alloc(), &mut pass, &[1, 1], 1)?;
    assert_eq!(rt; published.read(&rt, &mut other, 0), first_of(10));
    assert_eq!(rt; published.read(&rt, &mut other, 1), estimate_of(1));
    published.join(&rt, &mut pass, other);
    Ok(())
}

#[test]
fn the_right_goes_to_the_owner(rt: HostRuntime) -> Result<(), Fail> {
    let firsts = two_firsts(rt.alloc())?;
    let (published, mut pass) = Published::make(rt.alloc(), firsts, 1)?;
    let mut other = published.split(&rt, rt.alloc(), &mut pass, &[0, 1], 1)?;
    assert_eq!(rt; (pass.publishes(0), pass.publishes(1)), (true, false));
    assert_eq!(rt; (other.publishes(0), other.publishes(1)), (false, true));
    published.publish(&rt, &mut other, 1, estimate_of(1));
    assert_eq!(rt; published.read(&rt, &mut pass, 1), estimate_of(1));
    assert_eq!(rt; published.read(&rt, &mut pass, 0).version, 0);
    published.join(&rt, &mut pass, other);
    assert_eq!(rt; (pass.publishes(0), pass.publishes(1)), (true, true));
    Ok(())
}

// How many estimates the publisher publishes.
const COUNT: u64 = 300;

// Publishes estimate after estimate.
fn publish_some<R: Wait>(rt: &R, published: &Published, mut pass: EstPass) -> EstPass
    requires pass { IsPassOf published.now pass × (0 < length published.now.names) × (0 < length pass.known) }
    requires right { ((known_of 0 pass).publishes ≡ true) × (next_version (known_of 0 pass) ≡ 1) }
    ensures { IsPassOf published.now result }
{
    for version in 0..COUNT {
        published.publish(rt, &mut pass, 0, estimate_of(version + 1));
        thread::yield_now();
    }
    pass
}

// Whether the estimate is one of those that were published, or the first one.
fn is_whole(estimate: &Estimate) -> bool {
    if estimate.version == 0 || estimate.version > COUNT {
        return *estimate == first_of(10);
    }
    *estimate == estimate_of(estimate.version)
}

// Reads until the last estimate comes, and says whether each was whole and none older than the one before.
fn read_some<R: Wait>(rt: &R, published: &Published, mut pass: EstPass) -> (EstPass, bool)
    requires { IsPassOf published.now pass × (0 < length published.now.names) }
    ensures { IsPassOf published.now result.0 }
{
    let mut good = true;
    let mut last = 0;
    for _ in rt.forever() {
        let estimate = published.read(rt, &mut pass, 0);
        good = good && is_whole(&estimate) && estimate.version >= last;
        last = estimate.version;
        if last == COUNT {
            return (pass, good);
        }
        thread::yield_now();
    }
    unreachable!()
}

// Two threads read, each with a pass of its own.
fn read_by_two<R: Threads + Wait + Sync>(
    rt: &R,
    published: &Published,
    one: EstPass,
    two: EstPass,
) -> ((EstPass, bool), (EstPass, bool))
    requires { IsPassOf published.now one × IsPassOf published.now two × (0 < length published.now.names) }
    ensures { IsPassOf published.now result.0.0 × IsPassOf published.now result.1.0 }
{
    thread::join(
        rt,
        || -> (EstPass, bool)
            requires { IsSync R.row × IsPassOf published.now one × (0 < length published.now.names) }
            ensures { IsPassOf published.entry.now result.0 }
        { read_some(rt, published, one) },
        || -> (EstPass, bool)
            requires { IsSync R.row × IsPassOf published.now two × (0 < length published.now.names) }
            ensures { IsPassOf published.entry.now result.0 }
        { read_some(rt, published, two) },
    )
}

// One thread publishes, and two read beside it.
fn read_beside_publisher<R: Threads + Wait + Sync>(rt: &R, alloc: Global) -> Result<bool, Fail> {
    let firsts = one_first(alloc)?;
    let (published, mut pass) = Published::make(alloc, firsts, 1)?;
    let one = published.split(rt, alloc, &mut pass, &[0], 1)?;
    let two = published.split(rt, alloc, &mut pass, &[0], 1)?;
    let shared = &published;
    let (mut all, (one, two)) = thread::join(
        rt,
        || -> EstPass
            requires pass { IsSync R.row × IsPassOf shared.now pass × (0 < length shared.now.names) × (0 < length pass.known) }
            requires right { ((known_of 0 pass).publishes ≡ true) × (next_version (known_of 0 pass) ≡ 1) }
            ensures { IsPassOf shared.entry.now result }
        { publish_some(rt, shared, pass) },
        || -> ((EstPass, bool), (EstPass, bool))
            requires { IsSync R.row × IsPassOf shared.now one × IsPassOf shared.now two × (0 < length shared.now.names) }
            ensures { IsPassOf shared.entry.now result.0.0 × IsPassOf shared.entry.now result.1.0 }
        { read_by_two(rt, shared, one, two) },
    );
    published.join(rt, &mut all, one.0);
    published.join(rt, &mut all, two.0);
    Ok(one.1 && two.1)
}

#[test]
fn readers_see_whole_estimates_in_order(rt: HostRuntime) -> Result<(), Fail> {
    assert!(rt; read_beside_publisher(&rt, rt.alloc())?);
    Ok(())
}
