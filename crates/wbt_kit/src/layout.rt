//! The layout of a trace's throttle.

ghost use Rattle.std.specs.Prelude.{◌≡◌, ◌<◌, ◌^◌, All, map, length, IfOk};
ghost use Rattle.wbt_trace.specs.Lawful.{IsLawful};
ghost use Rattle.wbt_journal.specs.Machine.{domains};
ghost use Rattle.wbt_journal.specs.Side.{all_writers};
ghost use Rattle.wbt_rules.specs.Thresholds.{DomainFits};
ghost use Rattle.wbt_table.specs.Layout.{IsLayout};
ghost use Rattle.wbt_kit.specs.Opening as spec;

use crate::devices::homes_of;
use std::alloc::Global;
use wbt_io::NoMemory;
use wbt_journal::writers_in_order;
use wbt_num::{Items, Limits, MOST_PAGE_STEPS};
use wbt_rules::{domains_of, first_limits};
use wbt_table::{Layout, Place, Writer};
use wbt_trace::{Inode, Trace, Writer as Pair};

// The layout of the throttle that a trace asks for.
pub fn layout_of(alloc: Global, trace: &Trace, now: u64) -> Result<Layout, NoMemory>
    requires { IsLawful trace.now }
    ensures value { IfOk result (λ layout. layout ≡ spec.layout_of trace.now now) }
    ensures layout { IfOk result IsLayout }
{
    Ok(Layout {
        cpus: trace.cpus,
        cap: trace.cap,
        firsts: firsts_of(alloc, trace, now)?,
        contexts: homes_of(alloc, trace)?,
        inodes: places_of(alloc, trace.inodes.as_slice())?,
        writers: writers_of(alloc, trace)?,
        page_steps: MOST_PAGE_STEPS,
    })
}

fn firsts_of(alloc: Global, trace: &Trace, now: u64) -> Result<Items<Limits>, NoMemory>
    requires few { length trace.now.cgroups < 2 ^ 31 }
    requires fits { (domain : _) → domain < domains trace.now → DomainFits trace.now domain }
    ensures { IfOk result (λ firsts. firsts ≡ spec.firsts_of trace.now now (domains trace.now)) }
{
    let mut firsts = Items::new(alloc);
    for domain in 0..domains_of(trace) {
        firsts.push(first_limits(trace, now, domain))?;
    }
    Ok(firsts)
}

fn places_of(alloc: Global, inodes: &[Inode]) -> Result<Items<Place>, NoMemory>
    ensures { IfOk result (λ places. places ≡ map spec.place_of inodes.now) }
{
    let mut places = Items::new(alloc);
    for inode in inodes {
        places.push(Place {
            context: inode.context,
            first: inode.first,
            pages: inode.pages,
        })?;
    }
    Ok(places)
}

// Each writer with the CPU of its task.
fn writers_of(alloc: Global, trace: &Trace) -> Result<Items<Writer>, NoMemory>
    requires { IsLawful trace.now }
    ensures { IfOk result (λ writers. writers ≡ map (spec.seated trace.now) (all_writers trace.now)) }
{
    let pairs = writers_in_order(alloc, trace)?;
    seated_each(alloc, trace, pairs.as_slice())
}

fn seated_each(alloc: Global, trace: &Trace, pairs: &[Pair]) -> Result<Items<Writer>, NoMemory>
    requires { All (λ pair. pair.task < length trace.now.tasks) pairs.now }
    ensures { IfOk result (λ writers. writers ≡ map (spec.seated trace.now) pairs.now) }
{
    let mut writers = Items::new(alloc);
    for pair in pairs {
        writers.push(seated(trace, pair))?;
    }
    Ok(writers)
}

fn seated(trace: &Trace, pair: &Pair) -> Writer
    requires { pair.now.task < length trace.now.tasks }
    ensures { result ≡ spec.seated trace.now pair.now }
{
    Writer {
        cpu: trace.tasks.as_slice()[pair.task as usize].cpu,
        context: pair.context,
    }
}
