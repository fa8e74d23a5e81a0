//! What a trace says of its things by number.

ghost use Rattle.std.specs.Prelude.{◌≡◌, ◌+◌, ◌*◌, ◌<◌, ◌≤◌, ◌^◌, false, length};
ghost use Rattle.wbt_flex.specs.Proportions.{may_be_added};
ghost use Rattle.wbt_flex.specs.declared.share.Fraction.{Fraction as Part};
ghost use Rattle.wbt_rules.specs.Things as spec;
ghost use Rattle.wbt_rules.specs.Things.{IsAbove};
ghost use Rattle.wbt_trace.specs.Sofar.{least_shares as least_value};

use wbt_trace::{Device, FlusherLine, Inode, Trace};

/// How many domains there are: the global one, and one for each cgroup.
pub fn domains_of(trace: &Trace) -> u32
    requires { length trace.now.cgroups < 2 ^ 31 }
    ensures { result ≡ spec.domains trace.now }
{
    trace.cgroups.as_slice().len() as u32 + 1
}

/// The inode's context.
pub fn context_of(trace: &Trace, inode: u32) -> u32
    requires { inode < length trace.now.inodes }
    ensures { result ≡ spec.context_of trace.now inode }
{
    trace.inodes.as_slice()[inode as usize].context
}

/// The device of the inode's context.
pub fn device_of(trace: &Trace, inode: u32) -> u32
    requires inode { inode < length trace.now.inodes }
    requires context { spec.context_of trace.now inode < length trace.now.contexts }
    ensures { result ≡ spec.device_of trace.now inode }
{
    let context = context_of(trace, inode);
    trace.contexts.as_slice()[context as usize].device
}

/// The inode of this number.
pub fn inode_at(trace: &Trace, inode: u32) -> Inode
    requires { inode < length trace.now.inodes }
    ensures { result ≡ spec.inode_of trace.now inode }
{
    trace.inodes.as_slice()[inode as usize]
}

/// The number of the inode's first page.
pub fn first_of(trace: &Trace, inode: u32) -> u32
    requires { inode < length trace.now.inodes }
    ensures { result ≡ (spec.inode_of trace.now inode).first }
{
    trace.inodes.as_slice()[inode as usize].first
}

/// The number of the page after the inode's last.
pub fn end_of(trace: &Trace, inode: u32) -> u32
    requires inode { inode < length trace.now.inodes }
    requires fits { spec.end_of trace.now inode < 2 ^ 32 }
    ensures { result ≡ spec.end_of trace.now inode }
{
    let inode = trace.inodes.as_slice()[inode as usize];
    inode.first + inode.pages
}

/// The flusher's device.
pub fn flusher_device(trace: &Trace, flusher: u32) -> u32
    requires { flusher < length trace.now.flushers }
    ensures { result ≡ spec.flusher_device trace.now flusher }
{
    trace.flushers.as_slice()[flusher as usize].device
}

/// Whether the flusher is the first of its device, which updates the estimates.
pub fn leads(trace: &Trace, flusher: u32) -> bool
    requires there { flusher < length trace.now.flushers }
    requires few { length trace.now.flushers < 2 ^ 31 }
    ensures { result ≡ spec.leads trace.now flusher }
{
    first_flusher(flusher_device(trace, flusher), trace.flushers.as_slice()) == flusher
}

// The number of a device's first flusher; 0 where it has none.
fn first_flusher(device: u32, flushers: &[FlusherLine]) -> u32
    requires few { length flushers.now < 2 ^ 31 }
    ensures { result ≡ spec.first_flusher device 0 flushers.now }
{
    let mut number = 0;
    for flusher in flushers {
        if flusher.device == device {
            return number;
        }
        number += 1;
    }
    0
}

/// The device of this number.
pub fn device_at(trace: &Trace, device: u32) -> Device
    requires { device < length trace.now.devices }
    ensures { result ≡ spec.device_at trace.now device }
{
    trace.devices.as_slice()[device as usize]
}

/// How many pages the device writes in a second.
pub fn rate_of(trace: &Trace, device: u32) -> u64
    requires { device < length trace.now.devices }
    ensures { result ≡ spec.rate_of trace.now device }
{
    trace.devices.as_slice()[device as usize].rate
}

/// The context's cgroup, 0 where it has none.
pub fn group_of(trace: &Trace, context: u32) -> u32
    requires { context < length trace.now.contexts }
    ensures { result ≡ spec.group_of trace.now context }
{
    trace.contexts.as_slice()[context as usize].domain
}

/// The greatest share of the context's device, in 1024ths.
pub fn max_share(trace: &Trace, context: u32) -> u64
    requires context { context < length trace.now.contexts }
    requires device { (spec.context_at trace.now context).device < length trace.now.devices }
    requires share { (spec.device_at trace.now (spec.context_at trace.now context).device).max ≤ 100 }
    ensures value { result ≡ spec.max_share trace.now context }
    ensures share { result ≤ 1024 }
    ensures none_above { (part : Part) → IsAbove part (spec.device_at trace.now (spec.context_at trace.now context).device) → may_be_added part result ≡ false }
{
    greatest_share(&context_device(trace, context))
}

/// The greatest share of a device, in 1024ths, as near as these come below its percents: to a part that is above its greatest share in
/// percent nothing is added.
pub fn greatest_share(device: &Device) -> u64
    requires { device.now.max ≤ 100 }
    ensures value { result ≡ spec.greatest_share device.now }
    ensures share { result ≤ 1024 }
    ensures none_above { (part : Part) → IsAbove part device.now → may_be_added part result ≡ false }
    ensures no_less { 1024 * device.now.max < (result + 1) * 100 }
{
    1024 * u64::from(device.max) / 100
}

/// The context's device.
pub fn context_device(trace: &Trace, context: u32) -> Device
    requires context { context < length trace.now.contexts }
    requires device { (spec.context_at trace.now context).device < length trace.now.devices }
    ensures { result ≡ spec.device_at trace.now (spec.context_at trace.now context).device }
{
    let device = trace.contexts.as_slice()[context as usize].device;
    trace.devices.as_slice()[device as usize]
}

/// The least shares of all devices together, in percent.
pub fn least_shares(devices: &[Device]) -> u32
    requires { least_value devices.now ≤ 100 }
    ensures { result ≡ least_value devices.now }
{
    let mut sum = 0;
    for device in devices {
        sum += device.min;
    }
    sum
}
