//! The structs that cross. Each field is a number of 64 bits, so that C lays them out alike everywhere, without a gap.

/// A domain and one context in it.
#[repr(C)]
#[derive(Clone, Copy)]
pub struct Domain {
    /// The threshold, in pages.
    pub thresh: u64,
    /// The background threshold, in pages.
    pub bg: u64,
    /// The hard limit, in pages.
    pub hard: u64,
    /// The domain's dirty pages, those under writeback among them.
    pub dirty: u64,
    /// The context's part of the threshold, in pages.
    pub wb_thresh: u64,
}

/// A writer's own numbers.
#[repr(C)]
#[derive(Clone, Copy)]
pub struct Writer {
    /// Pages dirtied since its last pause.
    pub nr_dirtied: u64,
    /// Its allowance, in pages.
    pub nr_dirtied_pause: u64,
    /// The moment at which its last pause ended, in ticks; 0 where it had none.
    pub paused_when: u64,
}

/// What one decision is made from.
#[repr(C)]
#[derive(Clone, Copy)]
pub struct Check {
    /// The global domain.
    pub global: Domain,
    /// The cgroup's domain, read where `has_cgroup` is 1.
    pub cgroup: Domain,
    /// 1 where the context has a cgroup, else 0.
    pub has_cgroup: u64,
    /// The context's dirty pages, those under writeback among them.
    pub wb_dirty: u64,
    /// How many CPUs there are.
    pub cpus: u64,
    /// The most pages that are left to a writer.
    pub cap: u64,
    /// The average bandwidth of the context's device, in pages a second.
    pub avg: u64,
    /// The rate limit of the context's writers, in pages a second.
    pub ratelimit: u64,
    /// The writer.
    pub writer: Writer,
    /// The moment of the check, in ticks.
    pub moment: u64,
}

/// What a check decides.
#[repr(C)]
#[derive(Clone, Copy)]
pub struct Decided {
    /// 0: free, 1: goes on after its pause, 2: exempt, 3: waits.
    pub kind: u64,
    /// The pause, in ticks.
    pub pause: u64,
    /// How many pages the writer then may dirty.
    pub left: u64,
    /// The writer's numbers after the check.
    pub writer: Writer,
    /// 1 where the context is marked, else 0.
    pub exceeded: u64,
}

/// The settings of a machine for its dirty pages.
#[repr(C)]
#[derive(Clone, Copy)]
pub struct Knobs {
    /// The threshold, in percent.
    pub ratio: u64,
    /// The background threshold, in percent.
    pub bg_ratio: u64,
    /// The threshold in bytes, which replaces the percentage; 0 where it is unset.
    pub bytes: u64,
    /// The background threshold in bytes, likewise.
    pub bg_bytes: u64,
}

/// Two thresholds, in pages.
#[repr(C)]
#[derive(Clone, Copy)]
pub struct Thresholds {
    /// The threshold.
    pub thresh: u64,
    /// The background threshold.
    pub bg: u64,
}

/// An estimate: rates in pages a second, stamps in pages, a moment in ticks.
#[repr(C)]
#[derive(Clone, Copy)]
pub struct Rates {
    /// How many updates came before.
    pub version: u64,
    /// The bandwidth.
    pub bw: u64,
    /// Its average.
    pub avg: u64,
    /// The rate limit.
    pub ratelimit: u64,
    /// The balanced rate.
    pub balanced: u64,
    /// Pages written in all at the last update.
    pub written_stamp: u64,
    /// Pages dirtied in all at the last update.
    pub dirtied_stamp: u64,
    /// The moment of the last update.
    pub at: u64,
}

/// What was measured at a moment.
#[repr(C)]
#[derive(Clone, Copy)]
pub struct Measured {
    /// The moment, in ticks.
    pub moment: u64,
    /// Pages written in all.
    pub written: u64,
    /// Pages dirtied in all.
    pub dirtied: u64,
    /// The position ratio, in 1024ths.
    pub ratio: u64,
    /// 1 where the domain's dirty pages are below its setpoint, else 0.
    pub below_setpoint: u64,
}

/// The least pause, in ticks, and the allowance after a pause, in pages.
#[repr(C)]
#[derive(Clone, Copy)]
pub struct Least {
    /// The allowance.
    pub pages: u64,
    /// The least pause.
    pub pause: u64,
}

/// What a CPU counts of its writers, in pages.
#[repr(C)]
#[derive(Clone, Copy)]
pub struct Counts {
    /// Fresh writes since it last counted anew.
    pub since_check: u64,
    /// Pages of writers that ended.
    pub leaks: u64,
}

/// What decides about a context's part of a threshold.
#[repr(C)]
#[derive(Clone, Copy)]
pub struct Share {
    /// The numerator of the context's fraction of completed writes.
    pub num: u64,
    /// Its denominator.
    pub den: u64,
    /// The sum of all devices' least shares, in percent.
    pub sum_min: u64,
    /// The least share of the context's device, in percent.
    pub min: u64,
    /// Its greatest share, in percent.
    pub max: u64,
}
