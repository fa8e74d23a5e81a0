//! Traces that several tests run.

/// One CPU, one task that writes two pages.
pub const TWO_PAGES: &str =
    "cpus 1\navail 0 100000\ndevice 0 25600 0 100\ncontext 0 0 0\ninode 0 0 2\ntask 0 0\nflusher 0 0 0\nwrite 0 0 0 2\n";

/// Two tasks that write 32 pages each, each on a CPU of its own, and a flusher on a third.
pub const THREE_CPUS: &str =
    "cpus 3\navail 0 100000\ndevice 0 25600 0 100\ncontext 0 0 0\ninode 0 0 64\ntask 0 0\ntask 1 1\nflusher 0 0 2\nwrite 0 0 0 32\nwrite 1 0 32 32\n";
