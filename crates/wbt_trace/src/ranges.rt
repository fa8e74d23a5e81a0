//! The greatest numbers that a line of a trace may say, beside those that count things of a machine.

/// Ticks or steps that one line may say: 10^12.
pub const MOST_COUNT: u64 = 1000000000000;

/// A ratio or a share, in percent.
pub const MOST_PERCENT: u64 = 100;

/// Bytes of a setting: 2^48.
pub const MOST_SETTING_BYTES: u64 = 281474976710656;

/// Available pages, and file pages and headroom of a cgroup: 2^40.
pub const MOST_AVAIL_PAGES: u64 = 1099511627776;

/// Pages a second that a device writes: 2^20.
pub const MOST_DEVICE_RATE: u64 = 1048576;

/// Hundredths of a second after which an inode of a context is due: 1000 seconds.
pub const MOST_EXPIRE: u64 = 100000;

/// Pages a second that a first estimate says: 2^40.
pub const MOST_FIRST_RATE: u64 = 1099511627776;

/// The ratio of the threshold where no line says it, in percent.
pub const DEFAULT_RATIO: u32 = 20;

/// The ratio of the background threshold where no line says it, in percent.
pub const DEFAULT_BACKGROUND_RATIO: u32 = 10;
