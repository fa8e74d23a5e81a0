//! How much of each thing a machine, a trace or a run may have. Code and definitions cite these numbers.

/// CPUs of a machine.
pub const MOST_CPUS: u32 = 64;

/// Devices of a machine.
pub const MOST_DEVICES: usize = 16;

/// Cgroups of a machine. With the global domain there is one domain more.
pub const MOST_CGROUPS: usize = 8;

/// Writeback contexts of a machine.
pub const MOST_CONTEXTS: usize = 64;

/// Inodes of a machine.
pub const MOST_INODES: usize = 4096;

/// Pages of all inodes together, and so of one inode.
pub const MOST_PAGES: u32 = 2097152;

/// Tasks of a machine.
pub const MOST_TASKS: usize = 256;

/// Flushers of a machine.
pub const MOST_FLUSHERS: usize = 64;

/// Writers: distinct pairs of a task and the context of an inode that it writes.
pub const MOST_WRITERS: usize = 1024;

/// Pages that a writer may have left, which is the greatest cap.
pub const MOST_CAP: u32 = 1024;

/// Lines of a trace that tell available pages.
pub const MOST_AVAIL_LINES: usize = 256;

/// Actions of all tasks together: lines of a trace that write or rest.
pub const MOST_ACTIONS: usize = 65536;

/// Lines of a trace that tell an order of steps or move the clock.
pub const MOST_ORDER_LINES: usize = 65536;

/// Bytes of an input: 2^26.
pub const MOST_INPUT: usize = 67108864;

/// Steps of a replay: 2^22.
pub const MOST_STEPS: u64 = 4194304;

/// Page steps of one CPU, which are those that dirty or complete a page: 2^33.
pub const MOST_PAGE_STEPS: u64 = 8589934592;
