//! What a throttle is made for here: one domain, one context, one inode, and as many writers on each CPU.

ghost use Rattle.std.specs.Prelude.{◌≡◌, ◌*◌, ◌≤◌, IfOk};
ghost use Rattle.wbt_num.specs.declared.most.TheConstants.{MOST_PAGES};
ghost use Rattle.caller_of_throttle.specs.Machine.{machine_of, writers_of};

use std::alloc::{AllocError, Global};
use wbt_num::{Items, Limits};
use wbt_table::{Layout, Place, Writer};

/// The first limits of the one domain, in pages.
pub const FIRST: Limits = Limits {
    thresh: 100,
    bg: 50,
    hard: 100,
};

/// The batches of four CPUs: of a context's counter, and of a domain's.
pub const CONTEXT_BATCH: u64 = 24;

pub const DOMAIN_BATCH: u64 = 32;

/// How many pages a writer may have left at most. It is what each has left at the start.
pub const CAP: u32 = 32;

/// A machine of so many CPUs, writers on each, and pages.
pub fn machine(alloc: Global, cpus: u32, each: u32, pages: u32) -> Result<Layout, AllocError>
    requires cpus { (1 ≤ cpus) × (cpus ≤ 4) }
    requires each { (1 ≤ each) × (each ≤ 256) }
    requires pages { pages ≤ MOST_PAGES }
    ensures { IfOk result (λ key. key ≡ machine_of cpus each pages) }
{
    let mut firsts = Items::new(alloc);
    firsts.push(FIRST)?;
    let mut contexts = Items::new(alloc);
    contexts.push(0)?;
    let mut inodes = Items::new(alloc);
    inodes.push(Place {
        context: 0,
        first: 0,
        pages,
    })?;
    let writers = writers_for(alloc, cpus * each, each)?;
    Ok(Layout {
        cpus,
        cap: CAP,
        firsts,
        contexts,
        inodes,
        writers,
        page_steps: 1 << 33,
    })
}

fn writers_for(alloc: Global, count: u32, each: u32) -> Result<Items<Writer>, AllocError>
    requires { 1 ≤ each }
    ensures { IfOk result (λ writers. writers ≡ writers_of each count) }
{
    let mut writers = Items::new(alloc);
    for writer in 0..count {
        writers.push(Writer {
            cpu: writer / each,
            context: 0,
        })?;
    }
    Ok(writers)
}
