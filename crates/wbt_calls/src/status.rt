//! What a call answers. The header of `wbt_c` has the same numbers.

/// All was in range, and the result is written.
pub const OK: u32 = 0;

/// The number of CPUs isn't 1 to 64.
pub const BAD_CPUS: u32 = 1;

/// The cap isn't 1 to 1024.
pub const BAD_CAP: u32 = 2;

/// The moment is 2^62 or more.
pub const BAD_NOW: u32 = 3;

/// The pages dirtied, or the allowance, or in a CPU's counts their sum, are 2^52 or more.
pub const BAD_WRITER: u32 = 4;

/// The average isn't 1 to 2^44 - 1, or the rate limit is 0, or the estimate isn't sound.
pub const BAD_ESTIMATE: u32 = 5;

/// The context's pages are 2^33 or more.
pub const BAD_CONTEXT: u32 = 6;

/// The limits of the domain, or of the global one, aren't in order, or the hard limit is above 4294967295.
pub const BAD_DOMAIN: u32 = 7;

/// A flag is neither 0 nor 1.
pub const BAD_FLAG: u32 = 8;

/// The limits of the cgroup's domain aren't in order, or its hard limit is above 4294967295.
pub const BAD_CGROUP: u32 = 9;

/// The context's threshold is above its domain's.
pub const BAD_PART: u32 = 10;

/// A percentage is above 100, or a number of bytes above 2^48.
pub const BAD_SETTINGS: u32 = 11;

/// A number of the sample is out of its range.
pub const BAD_SAMPLE: u32 = 12;

/// There are more than 1024 writers.
pub const BAD_WRITERS: u32 = 13;

/// There are more than 64 contexts.
pub const BAD_CONTEXTS: u32 = 14;

/// The limit is above 4294967295.
pub const BAD_LIMIT: u32 = 15;

/// Fewer than 200 ticks passed since the estimate.
pub const TOO_EARLY: u32 = 16;

/// The fraction isn't one: its denominator isn't 1 to 2^41 - 1, or its numerator is greater.
pub const BAD_FRACTION: u32 = 17;

/// A share of a device is above 100 percent, or the least one above the greatest.
pub const BAD_SHARES: u32 = 18;

/// A cgroup's file pages or its headroom are above 2^40.
pub const BAD_PAGES: u32 = 19;
