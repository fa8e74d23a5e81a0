//! What a kit has for each context and for each device.

ghost use Rattle.std.specs.Prelude.{◌≡◌, ◌<◌, ◌^◌, All, length, IfOk};
ghost use Rattle.wbt_kit.specs.Opening as spec;
ghost use Rattle.wbt_rules.specs.First.{first_estimates};

use std::alloc::Global;
use wbt_estimate::Estimate;
use wbt_io::NoMemory;
use wbt_num::Items;
use wbt_rules::first_by;
use wbt_trace::{FlusherLine, Inode, Trace};

// The domain of each context.
pub fn homes_of(alloc: Global, trace: &Trace) -> Result<Items<u32>, NoMemory>
    ensures { IfOk result (λ homes. homes ≡ spec.homes_of trace.now) }
{
    let mut homes = Items::new(alloc);
    for context in trace.contexts.as_slice() {
        homes.push(context.domain)?;
    }
    Ok(homes)
}

// The estimate that each context begins with, of a machine that is opened at this moment, in ticks.
pub fn first_estimates_of(
    alloc: Global,
    trace: &Trace,
    now: u64,
) -> Result<Items<Estimate>, NoMemory>
    ensures { IfOk result (λ firsts. firsts ≡ first_estimates trace.now now) }
{
    let mut firsts = Items::new(alloc);
    for context in trace.contexts.as_slice() {
        firsts.push(first_by(context.estimate, now))?;
    }
    Ok(firsts)
}

// By context: the CPU of the first flusher of its device.
pub fn owners_of(alloc: Global, trace: &Trace) -> Result<Items<u32>, NoMemory>
    ensures { IfOk result (λ owners. owners ≡ spec.owners_of trace.now) }
{
    let mut owners = Items::new(alloc);
    for context in trace.contexts.as_slice() {
        owners.push(first_cpu(context.device, trace.flushers.as_slice()))?;
    }
    Ok(owners)
}

// The CPU of the device's first flusher, or 0 where it has none.
fn first_cpu(device: u32, flushers: &[FlusherLine]) -> u32
    ensures { result ≡ spec.first_cpu device flushers.now }
{
    for flusher in flushers {
        if flusher.device == device {
            return flusher.cpu;
        }
    }
    0
}

// By device: how many inodes lie on it, at least 1.
pub fn queue_sizes(alloc: Global, trace: &Trace) -> Result<Items<u32>, NoMemory>
    requires devices { length trace.now.devices < 2 ^ 32 }
    requires inodes { length trace.now.inodes < 2 ^ 32 }
    requires contexts { All (λ inode. inode.context < length trace.now.contexts) trace.now.inodes }
    ensures { IfOk result (λ sizes. sizes ≡ spec.queue_sizes trace.now) }
{
    let mut sizes = Items::new(alloc);
    for device in 0..trace.devices.as_slice().len() as u32 {
        sizes.push(inodes_on(trace, device).max(1))?;
    }
    Ok(sizes)
}

fn inodes_on(trace: &Trace, device: u32) -> u32
    requires inodes { length trace.now.inodes < 2 ^ 32 }
    requires contexts { All (λ inode. inode.context < length trace.now.contexts) trace.now.inodes }
    ensures { result ≡ spec.inodes_on trace.now device }
{
    let mut count = 0;
    for inode in trace.inodes.as_slice() {
        if is_on(trace, inode, device) {
            count += 1;
        }
    }
    count
}

fn is_on(trace: &Trace, inode: &Inode, device: u32) -> bool
    requires { inode.now.context < length trace.now.contexts }
    ensures { result ≡ spec.is_on trace.now device inode.now }
{
    trace.contexts.as_slice()[inode.context as usize].device == device
}
