//! What no clause says: that memory is enough for a small run and its text, and that refused memory is named.

use std::alloc::Global;
use std::fmt::Write;
use std::test::Fail;
use wbt_io::MemSink;
use wbt_journal::{Ending, Journal, PrintEnd, print};
use wbt_replay::replay;
use wbt_trace_text::read_trace;

// A trace that writes nothing, one that writes the two pages of its inode, and one of two CPUs, of which the second makes a
// step between two steps of the first one's write.
const EMPTY: &[u8] =
    b"cpus 1\navail 0 100000\ndevice 0 25600 0 100\ncontext 0 0 0\ninode 0 0 2\ntask 0 0\nflusher 0 0 0\n";

const TWO_PAGES: &[u8] =
    b"cpus 1\navail 0 100000\ndevice 0 25600 0 100\ncontext 0 0 0\ninode 0 0 2\ntask 0 0\nflusher 0 0 0\nwrite 0 0 0 2\n";

const TWO_CPUS: &[u8] =
    b"cpus 2\navail 0 100000\ndevice 0 25600 0 100\ncontext 0 0 0\ninode 0 0 2\ntask 0 0\ntask 1 1\nflusher 0 0 1\nwrite 0 0 0 1\nwrite 1 0 1 1\norder 0 2\norder 1 1\norder 0 1\n";

// A run of checks: two cgroups, a cap of one page, and estimates of two contexts while a task rests.
const CHECKS: &[u8] =
    b"cpus 1\ncap 1\navail 0 1000\ndevice 0 25600 0 100\ncgroup 1 100 100\ncgroup 2 30 5\ncontext 0 0 1\ncontext 1 0 2\ninode 0 0 2\ninode 1 1 1\ntask 0 0\ntask 1 0\nflusher 0 0 0\nwrite 0 0 0 2\nrest 1 300\nwrite 1 1 0 1\n";

// Two pages, of which each scan of their device takes one, and a context whose first estimate is a slow disk's.
const ONE_A_SCAN: &[u8] =
    b"cpus 1\navail 0 100000\ndevice 0 25600 0 100\ncontext 0 0 0\ninode 0 0 2\ntask 0 0\nflusher 0 0 0\nchunk 0 1\nwrite 0 0 0 2\n";

const SLOW_AT_FIRST: &[u8] =
    b"cpus 1\navail 0 100000\navail 150 50000\ndevice 0 25600 0 100\ncontext 0 0 0\nestimate 0 100 100 50\ninode 0 0 2\ntask 0 0\nflusher 0 0 0\nrest 0 300\nwrite 0 0 0 1\n";

// Inodes of two pages and of five, of which each scan takes one page, or two, and goes on where the last one ended.
const ROUND_TWO: &[u8] =
    b"cpus 1\navail 0 100000\ndevice 0 25600 0 100\ncontext 0 0 0\ninode 0 0 2\ntask 0 0\nflusher 0 0 0\nchunk 0 1\nwrite 0 0 0 2\ncyclic 0\n";

const ROUND_FIVE: &[u8] =
    b"cpus 1\navail 0 100000\ndevice 0 25600 0 100\ncontext 0 0 0\ninode 0 0 5\ntask 0 0\nflusher 0 0 0\nchunk 0 2\nwrite 0 0 0 5\ncyclic 0\n";

// A task that rests for its pace before pages 2, 4 and 6.
const PACED: &[u8] =
    b"cpus 1\navail 0 100000\ndevice 0 25600 0 100\ncontext 0 0 0\ninode 0 0 7\ntask 0 0\npace 0 2 50\nflusher 0 0 0\nwrite 0 0 0 5\nrest 0 3\nwrite 0 0 5 2\n";

// The texts of their journals.
const EMPTY_TEXT: &[u8] =
    b"timer\nlimits 0 1 19995 9985 19995\ncpu 0\ncensus 0 0\ntotals 0 0\nend done\n";

const TWO_PAGES_TEXT: &[u8] =
    b"timer\nlimits 0 1 19995 9985 19995\ncpu 0\nwrite 0 0 fresh\nwrite 0 1 fresh\nclaim 0 0\nclaim 0 1\nbatch 0 2 1 2\ndone 0 0\ndone 0 1\nshare 0 0 2\nsteps\nstep 1 0 dirty 1 21067\nstep 2 0 add 1 21067\nstep 3 0 add 1 21067\nstep 4 0 mark 1 21067\nstep 5 0 first 1 21067\nstep 6 0 middle 1 21067\nstep 7 0 limits 1 21067\nstep 8 0 count 1 21067\nstep 9 0 dirty 2 21067\nstep 10 0 add 2 21067\nstep 11 0 add 2 21067\nstep 12 0 mark 2 21067\nstep 13 0 unmark 2 21067\nstep 14 0 look 2 21067\nstep 15 0 claim 2 21067\nstep 16 0 look 2 21067\nstep 17 0 claim 2 21067\nstep 18 0 complete 1 21067\nstep 19 0 add 1 21067\nstep 20 0 add 1 21067\nstep 21 0 complete 0 21067\nstep 22 0 add 0 21067\nstep 23 0 add 0 21067\ncensus 0 0\ntotals 2 2\nend done\n";

const TWO_CPUS_TEXT: &[u8] =
    b"timer\nlimits 0 1 19995 9985 19995\ncpu 0\nwrite 0 0 fresh\ncpu 1\nwrite 1 1 fresh\nclaim 0 0\nclaim 0 1\nbatch 0 2 1 2\ndone 0 0\ndone 0 1\nshare 0 0 2\nsteps\nstep 1 0 dirty 1 22171\nstep 2 0 add 1 22171\nstep 3 1 dirty 2 22171\nstep 4 0 add 2 22171\nstep 5 0 mark 2 22171\nstep 6 1 add 2 22171\nstep 7 1 add 2 22171\nstep 8 1 mark 2 22171\nstep 9 1 unmark 2 22171\nstep 10 1 look 2 22171\nstep 11 1 claim 2 22171\nstep 12 1 look 2 22171\nstep 13 1 claim 2 22171\nstep 14 1 complete 1 22171\nstep 15 1 add 1 22171\nstep 16 1 add 1 22171\nstep 17 1 complete 0 22171\nstep 18 1 add 0 22171\nstep 19 1 add 0 22171\ncensus 0 0\ntotals 2 2\nend done\n";

const CHECKS_TEXT: &[u8] =
    b"timer\nlimits 0 1 199 99 199\nlimits 1 1 39 19 39\nlimits 2 1 6 3 6\nlimits 0 201 199 99 199\nlimits 1 201 39 19 39\nlimits 2 201 6 3 6\ncpu 0\nwrite 0 0 fresh\nread 0 0 199 99 199 0 0 0 0 1\nread 1 0 39 19 39 0 0 0 0 1\ncount 0 0 0\ncheck 0 0 1 0 free 0 1 0 4 1\nwrite 0 1 fresh\nread 0 0 199 99 199 0 0 0 0 1\nread 1 0 39 19 39 0 0 0 0 1\ncount 0 0 0\ncheck 0 0 1 0 free 0 1 0 4 1\nest 0 1 24350 25600 25600 25600 0 0 201\nest 1 1 24350 25600 25600 25600 0 0 201\nwrite 1 2 fresh\nread 0 1 199 99 199 0 0 0 0 1\nread 2 1 6 3 6 0 0 0 0 1\ncount 1 0 0\ncheck 1 1 301 1 free 0 1 0 2 301\nclaim 0 0\nclaim 0 1\nbatch 0 2 301 302\ndone 0 0\ndone 0 1\nshare 0 0 2\nshare 1 0 2\nclaim 0 2\nbatch 0 1 302 303\ndone 0 2\nshare 0 1 1\nshare 2 1 1\nsteps\nstep 1 0 dirty 1 265 1 88 0 55\nstep 2 0 add 1 265 1 88 0 55\nstep 3 0 add 1 265 1 88 0 55\nstep 4 0 add 1 265 1 88 0 55\nstep 5 0 mark 1 265 1 88 0 55\nstep 6 0 first 1 265 1 88 0 55\nstep 7 0 middle 1 265 1 88 0 55\nstep 8 0 limits 1 265 1 88 0 55\nstep 9 0 count 1 265 1 88 0 55\nstep 10 0 first 1 265 1 88 0 55\nstep 11 0 middle 1 265 1 88 0 55\nstep 12 0 limits 1 265 1 88 0 55\nstep 13 0 count 1 265 1 88 0 55\nstep 14 0 first 1 265 1 88 0 55\nstep 15 0 middle 1 265 1 88 0 55\nstep 16 0 limits 1 265 1 88 0 55\nstep 17 0 count 1 265 1 88 0 55\nstep 18 0 first 1 265 1 88 0 55\nstep 19 0 middle 1 265 1 88 0 55\nstep 20 0 limits 1 265 1 88 0 55\nstep 21 0 count 1 265 1 88 0 55\nstep 22 0 first 1 265 1 88 0 55\nstep 23 0 middle 1 265 1 88 0 55\nstep 24 0 limits 1 265 1 88 0 55\nstep 25 0 count 1 265 1 88 0 55\nstep 26 0 count 1 265 1 88 0 55\nstep 27 0 dirty 2 265 2 88 0 55\nstep 28 0 add 2 265 2 88 0 55\nstep 29 0 add 2 265 2 88 0 55\nstep 30 0 add 2 265 2 88 0 55\nstep 31 0 mark 2 265 2 88 0 55\nstep 32 0 first 2 265 2 88 0 55\nstep 33 0 middle 2 265 2 88 0 55\nstep 34 0 limits 2 265 2 88 0 55\nstep 35 0 count 2 265 2 88 0 55\nstep 36 0 first 2 265 2 88 0 55\nstep 37 0 middle 2 265 2 88 0 55\nstep 38 0 limits 2 265 2 88 0 55\nstep 39 0 count 2 265 2 88 0 55\nstep 40 0 count 2 265 2 88 0 55\nstep 41 0 first 2 265 2 88 0 55\nstep 42 0 middle 2 265 2 88 0 55\nstep 43 0 limits 2 265 2 88 0 55\nstep 44 0 count 2 265 2 88 0 55\nstep 45 0 first 2 265 2 88 0 55\nstep 46 0 middle 2 265 2 88 0 55\nstep 47 0 limits 2 265 2 88 0 55\nstep 48 0 count 2 265 2 88 0 55\nstep 49 0 first 2 265 2 88 0 55\nstep 50 0 middle 2 265 2 88 0 55\nstep 51 0 limits 2 265 2 88 0 55\nstep 52 0 count 2 265 2 88 0 55\nstep 53 0 first 2 265 2 88 0 55\nstep 54 0 middle 2 265 2 88 0 55\nstep 55 0 limits 2 265 2 88 0 55\nstep 56 0 count 2 265 2 88 0 55\nstep 57 0 first 2 265 2 88 0 55\nstep 58 0 middle 2 265 2 88 0 55\nstep 59 0 limits 2 265 2 88 0 55\nstep 60 0 count 2 265 2 88 0 55\nstep 61 0 first 2 265 2 88 0 55\nstep 62 0 middle 2 265 2 88 0 55\nstep 63 0 limits 2 265 2 88 0 55\nstep 64 0 count 2 265 2 88 0 55\nstep 65 0 count 2 265 2 88 0 55\nstep 66 0 count 2 265 2 88 0 55\nstep 67 timer count 2 265 2 88 0 55\nstep 68 timer peak 2 265 2 88 0 55\nstep 69 timer unseal 2 265 2 88 0 55\nstep 70 timer thresh 2 265 2 88 0 55\nstep 71 timer publish 2 265 2 88 0 55\nstep 72 timer count 2 265 2 88 0 55\nstep 73 timer peak 2 265 2 88 0 55\nstep 74 timer unseal 2 265 2 88 0 55\nstep 75 timer thresh 2 265 2 88 0 55\nstep 76 timer publish 2 265 2 88 0 55\nstep 77 timer count 2 265 2 88 0 55\nstep 78 timer peak 2 265 2 88 0 55\nstep 79 timer unseal 2 265 2 88 0 55\nstep 80 timer thresh 2 265 2 88 0 55\nstep 81 timer publish 2 265 2 88 0 55\nstep 82 0 dirty 3 265 2 88 1 55\nstep 83 0 add 3 265 2 88 1 55\nstep 84 0 add 3 265 2 88 1 55\nstep 85 0 add 3 265 2 88 1 55\nstep 86 0 mark 3 265 2 88 1 55\nstep 87 0 first 3 265 2 88 1 55\nstep 88 0 middle 3 265 2 88 1 55\nstep 89 0 limits 3 265 2 88 1 55\nstep 90 0 count 3 265 2 88 1 55\nstep 91 0 first 3 265 2 88 1 55\nstep 92 0 middle 3 265 2 88 1 55\nstep 93 0 limits 3 265 2 88 1 55\nstep 94 0 count 3 265 2 88 1 55\nstep 95 0 first 3 265 2 88 1 55\nstep 96 0 middle 3 265 2 88 1 55\nstep 97 0 limits 3 265 2 88 1 55\nstep 98 0 count 3 265 2 88 1 55\nstep 99 0 first 3 265 2 88 1 55\nstep 100 0 middle 3 265 2 88 1 55\nstep 101 0 limits 3 265 2 88 1 55\nstep 102 0 count 3 265 2 88 1 55\nstep 103 0 first 3 265 2 88 1 55\nstep 104 0 middle 3 265 2 88 1 55\nstep 105 0 limits 3 265 2 88 1 55\nstep 106 0 count 3 265 2 88 1 55\nstep 107 0 count 3 265 2 88 1 55\nstep 108 0 unmark 3 265 2 88 1 55\nstep 109 0 look 3 265 2 88 1 55\nstep 110 0 claim 3 265 2 88 1 55\nstep 111 0 look 3 265 2 88 1 55\nstep 112 0 claim 3 265 2 88 1 55\nstep 113 0 complete 2 265 1 88 1 55\nstep 114 0 add 2 265 1 88 1 55\nstep 115 0 add 2 265 1 88 1 55\nstep 116 0 add 2 265 1 88 1 55\nstep 117 0 complete 1 265 0 88 1 55\nstep 118 0 add 1 265 0 88 1 55\nstep 119 0 add 1 265 0 88 1 55\nstep 120 0 add 1 265 0 88 1 55\nstep 121 0 unmark 1 265 0 88 1 55\nstep 122 0 look 1 265 0 88 1 55\nstep 123 0 claim 1 265 0 88 1 55\nstep 124 0 complete 0 265 0 88 0 55\nstep 125 0 add 0 265 0 88 0 55\nstep 126 0 add 0 265 0 88 0 55\nstep 127 0 add 0 265 0 88 0 55\ncensus 0 0\ntotals 3 3\nend done\n";

const ONE_A_SCAN_TEXT: &[u8] =
    b"timer\nlimits 0 1 19995 9985 19995\ncpu 0\nwrite 0 0 fresh\nwrite 0 1 fresh\nclaim 0 0\nbatch 0 1 1 2\ndone 0 0\nshare 0 0 1\nclaim 0 1\nbatch 0 1 2 3\ndone 0 1\nshare 0 0 1\nsteps\nstep 1 0 dirty 1 21067\nstep 2 0 add 1 21067\nstep 3 0 add 1 21067\nstep 4 0 mark 1 21067\nstep 5 0 first 1 21067\nstep 6 0 middle 1 21067\nstep 7 0 limits 1 21067\nstep 8 0 count 1 21067\nstep 9 0 dirty 2 21067\nstep 10 0 add 2 21067\nstep 11 0 add 2 21067\nstep 12 0 mark 2 21067\nstep 13 0 unmark 2 21067\nstep 14 0 look 2 21067\nstep 15 0 claim 2 21067\nstep 16 0 mark 2 21067\nstep 17 0 complete 1 21067\nstep 18 0 add 1 21067\nstep 19 0 add 1 21067\nstep 20 0 unmark 1 21067\nstep 21 0 look 1 21067\nstep 22 0 look 1 21067\nstep 23 0 claim 1 21067\nstep 24 0 complete 0 21067\nstep 25 0 add 0 21067\nstep 26 0 add 0 21067\ncensus 0 0\ntotals 2 2\nend done\n";

const SLOW_AT_FIRST_TEXT: &[u8] =
    b"timer\nlimits 0 1 19995 9985 19995\nlimits 0 201 9997 4992 19683\ncpu 0\nest 0 1 95 100 50 100 0 0 201\nwrite 0 0 fresh\nclaim 0 0\nbatch 0 1 301 302\ndone 0 0\nshare 0 0 1\nsteps\nstep 1 0 first 0 21067\nstep 2 0 middle 0 21067\nstep 3 0 limits 0 21067\nstep 4 0 count 0 21067\nstep 5 0 first 0 21067\nstep 6 0 middle 0 21067\nstep 7 0 limits 0 21067\nstep 8 0 count 0 21067\nstep 9 0 first 0 21067\nstep 10 0 middle 0 21067\nstep 11 0 limits 0 21067\nstep 12 0 count 0 21067\nstep 13 0 count 0 21067\nstep 14 timer count 0 21067\nstep 15 timer peak 0 21067\nstep 16 timer unseal 0 21067\nstep 17 timer thresh 0 21067\nstep 18 timer publish 0 21067\nstep 19 0 dirty 1 21067\nstep 20 0 add 1 21067\nstep 21 0 add 1 21067\nstep 22 0 mark 1 21067\nstep 23 0 unmark 1 21067\nstep 24 0 look 1 21067\nstep 25 0 claim 1 21067\nstep 26 0 look 1 21067\nstep 27 0 complete 0 21067\nstep 28 0 add 0 21067\nstep 29 0 add 0 21067\ncensus 0 0\ntotals 1 1\nend done\n";

const ROUND_TWO_TEXT: &[u8] =
    b"timer\nlimits 0 1 19995 9985 19995\ncpu 0\nwrite 0 0 fresh\nwrite 0 1 fresh\nclaim 0 0\nbatch 0 1 1 2\ndone 0 0\nshare 0 0 1\nclaim 0 1\nbatch 0 1 2 3\ndone 0 1\nshare 0 0 1\nsteps\nstep 1 0 dirty 1 21067\nstep 2 0 add 1 21067\nstep 3 0 add 1 21067\nstep 4 0 mark 1 21067\nstep 5 0 first 1 21067\nstep 6 0 middle 1 21067\nstep 7 0 limits 1 21067\nstep 8 0 count 1 21067\nstep 9 0 dirty 2 21067\nstep 10 0 add 2 21067\nstep 11 0 add 2 21067\nstep 12 0 mark 2 21067\nstep 13 0 unmark 2 21067\nstep 14 0 look 2 21067\nstep 15 0 claim 2 21067\nstep 16 0 mark 2 21067\nstep 17 0 complete 1 21067\nstep 18 0 add 1 21067\nstep 19 0 add 1 21067\nstep 20 0 unmark 1 21067\nstep 21 0 look 1 21067\nstep 22 0 claim 1 21067\nstep 23 0 mark 1 21067\nstep 24 0 complete 0 21067\nstep 25 0 add 0 21067\nstep 26 0 add 0 21067\nstep 27 0 unmark 0 21067\nstep 28 0 look 0 21067\nstep 29 0 look 0 21067\ncensus 0 0\ntotals 2 2\nend done\n";

const ROUND_FIVE_TEXT: &[u8] =
    b"timer\nlimits 0 1 19995 9985 19995\ncpu 0\nwrite 0 0 fresh\nwrite 0 1 fresh\nwrite 0 2 fresh\nwrite 0 3 fresh\nwrite 0 4 fresh\nclaim 0 0\nclaim 0 1\nbatch 0 2 1 2\ndone 0 0\ndone 0 1\nshare 0 0 2\nclaim 0 2\nclaim 0 3\nbatch 0 2 2 3\ndone 0 2\ndone 0 3\nshare 0 0 2\nclaim 0 4\nbatch 0 1 3 4\ndone 0 4\nshare 0 0 1\nsteps\nstep 1 0 dirty 1 21067\nstep 2 0 add 1 21067\nstep 3 0 add 1 21067\nstep 4 0 mark 1 21067\nstep 5 0 first 1 21067\nstep 6 0 middle 1 21067\nstep 7 0 limits 1 21067\nstep 8 0 count 1 21067\nstep 9 0 dirty 2 21067\nstep 10 0 add 2 21067\nstep 11 0 add 2 21067\nstep 12 0 mark 2 21067\nstep 13 0 dirty 3 21067\nstep 14 0 add 3 21067\nstep 15 0 add 3 21067\nstep 16 0 mark 3 21067\nstep 17 0 dirty 4 21067\nstep 18 0 add 4 21067\nstep 19 0 add 4 21067\nstep 20 0 mark 4 21067\nstep 21 0 dirty 5 21067\nstep 22 0 add 5 21067\nstep 23 0 add 5 21067\nstep 24 0 mark 5 21067\nstep 25 0 unmark 5 21067\nstep 26 0 look 5 21067\nstep 27 0 claim 5 21067\nstep 28 0 look 5 21067\nstep 29 0 claim 5 21067\nstep 30 0 mark 5 21067\nstep 31 0 complete 4 21067\nstep 32 0 add 4 21067\nstep 33 0 add 4 21067\nstep 34 0 complete 3 21067\nstep 35 0 add 3 21067\nstep 36 0 add 3 21067\nstep 37 0 unmark 3 21067\nstep 38 0 look 3 21067\nstep 39 0 claim 3 21067\nstep 40 0 look 3 21067\nstep 41 0 claim 3 21067\nstep 42 0 mark 3 21067\nstep 43 0 complete 2 21067\nstep 44 0 add 2 21067\nstep 45 0 add 2 21067\nstep 46 0 complete 1 21067\nstep 47 0 add 1 21067\nstep 48 0 add 1 21067\nstep 49 0 unmark 1 21067\nstep 50 0 look 1 21067\nstep 51 0 claim 1 21067\nstep 52 0 look 1 21067\nstep 53 0 look 1 21067\nstep 54 0 look 1 21067\nstep 55 0 look 1 21067\nstep 56 0 complete 0 21067\nstep 57 0 add 0 21067\nstep 58 0 add 0 21067\ncensus 0 0\ntotals 5 5\nend done\n";

const PACED_TEXT: &[u8] =
    b"timer\nlimits 0 1 19995 9985 19995\ncpu 0\nwrite 0 0 fresh\nwrite 0 1 fresh\nwrite 0 2 fresh\nwrite 0 3 fresh\nwrite 0 4 fresh\nwrite 0 5 fresh\nwrite 0 6 fresh\nclaim 0 0\nclaim 0 1\nclaim 0 2\nclaim 0 3\nclaim 0 4\nclaim 0 5\nclaim 0 6\nbatch 0 7 154 155\ndone 0 0\ndone 0 1\ndone 0 2\ndone 0 3\ndone 0 4\ndone 0 5\ndone 0 6\nshare 0 0 7\nsteps\nstep 1 0 dirty 1 21067\nstep 2 0 add 1 21067\nstep 3 0 add 1 21067\nstep 4 0 mark 1 21067\nstep 5 0 first 1 21067\nstep 6 0 middle 1 21067\nstep 7 0 limits 1 21067\nstep 8 0 count 1 21067\nstep 9 0 dirty 2 21067\nstep 10 0 add 2 21067\nstep 11 0 add 2 21067\nstep 12 0 mark 2 21067\nstep 13 0 dirty 3 21067\nstep 14 0 add 3 21067\nstep 15 0 add 3 21067\nstep 16 0 mark 3 21067\nstep 17 0 dirty 4 21067\nstep 18 0 add 4 21067\nstep 19 0 add 4 21067\nstep 20 0 mark 4 21067\nstep 21 0 first 4 21067\nstep 22 0 middle 4 21067\nstep 23 0 limits 4 21067\nstep 24 0 count 4 21067\nstep 25 0 dirty 5 21067\nstep 26 0 add 5 21067\nstep 27 0 add 5 21067\nstep 28 0 mark 5 21067\nstep 29 0 dirty 6 21067\nstep 30 0 add 6 21067\nstep 31 0 add 6 21067\nstep 32 0 mark 6 21067\nstep 33 0 dirty 7 21067\nstep 34 0 add 7 21067\nstep 35 0 add 7 21067\nstep 36 0 mark 7 21067\nstep 37 0 unmark 7 21067\nstep 38 0 look 7 21067\nstep 39 0 claim 7 21067\nstep 40 0 look 7 21067\nstep 41 0 claim 7 21067\nstep 42 0 look 7 21067\nstep 43 0 claim 7 21067\nstep 44 0 look 7 21067\nstep 45 0 claim 7 21067\nstep 46 0 look 7 21067\nstep 47 0 claim 7 21067\nstep 48 0 look 7 21067\nstep 49 0 claim 7 21067\nstep 50 0 look 7 21067\nstep 51 0 claim 7 21067\nstep 52 0 complete 6 21067\nstep 53 0 add 6 21067\nstep 54 0 add 6 21067\nstep 55 0 complete 5 21067\nstep 56 0 add 5 21067\nstep 57 0 add 5 21067\nstep 58 0 complete 4 21067\nstep 59 0 add 4 21067\nstep 60 0 add 4 21067\nstep 61 0 complete 3 21067\nstep 62 0 add 3 21067\nstep 63 0 add 3 21067\nstep 64 0 complete 2 21067\nstep 65 0 add 2 21067\nstep 66 0 add 2 21067\nstep 67 0 complete 1 21067\nstep 68 0 add 1 21067\nstep 69 0 add 1 21067\nstep 70 0 complete 0 21067\nstep 71 0 add 0 21067\nstep 72 0 add 0 21067\ncensus 0 0\ntotals 7 7\nend done\n";

// What came of writing a text to a sink.
#[derive(Drop)]
struct Printed {
    end: Result<(), PrintEnd>,
    faults: u64,
    held: Vec<u8>,
}

// The journal of the replay of a text.
fn replayed(alloc: Global, text: &[u8]) -> Result<Journal, Fail> {
    let trace = read_trace(alloc, text)?;
    Ok(replay(alloc, &trace)?)
}

// Writes the text of a journal to a new sink whose call of number `fail` fails.
fn print_journal(alloc: Global, journal: &Journal, fail: u64) -> Result<Printed, Fail> {
    let mut sink = MemSink::make(alloc, 16384, 100, [fail].to_vec(alloc)?)?;
    let end = print(alloc, journal, &mut sink);
    let faults = sink.fault_count();
    let held = sink.into_bytes();
    Ok(Printed { end, faults, held })
}

// Replays the trace of a text, and writes its journal to a sink whose call of number `fail` fails.
fn print_run(alloc: Global, text: &[u8], fail: u64) -> Result<Printed, Fail> {
    let journal = replayed(alloc, text)?;
    print_journal(alloc, &journal, fail)
}

#[test]
fn memory_is_enough_for_small_runs(rt: HostRuntime) -> Result<(), Fail> {
    for (trace, text) in [
        (EMPTY, EMPTY_TEXT),
        (TWO_PAGES, TWO_PAGES_TEXT),
        (TWO_CPUS, TWO_CPUS_TEXT),
        (CHECKS, CHECKS_TEXT),
        (ONE_A_SCAN, ONE_A_SCAN_TEXT),
        (SLOW_AT_FIRST, SLOW_AT_FIRST_TEXT),
        (ROUND_TWO, ROUND_TWO_TEXT),
        (ROUND_FIVE, ROUND_FIVE_TEXT),
        (PACED, PACED_TEXT),
    ] {
        let printed = print_run(rt.alloc(), trace, 99)?;
        assert_eq!(rt; printed.end, Ok(()));
        assert_eq!(rt; printed.faults, 0);
        assert_eq!(rt; printed.held.as_slice(), text);
    }
    Ok(())
}

// A task whose last page ends its pace's count, and one at whose third page a rest line and a rest of its pace come together; and the same
// with the rests as lines.
const PACE_TO_THE_END: &[u8] =
    b"cpus 1\navail 0 100000\ndevice 0 25600 0 100\ncontext 0 0 0\ninode 0 0 4\ntask 0 0\npace 0 2 50\nflusher 0 0 0\nwrite 0 0 0 4\n";

const CUT_TO_THE_END: &[u8] =
    b"cpus 1\navail 0 100000\ndevice 0 25600 0 100\ncontext 0 0 0\ninode 0 0 4\ntask 0 0\nflusher 0 0 0\nwrite 0 0 0 2\nrest 0 50\nwrite 0 0 2 2\n";

const PACE_AFTER_A_REST: &[u8] =
    b"cpus 1\navail 0 100000\ndevice 0 25600 0 100\ncontext 0 0 0\ninode 0 0 4\ntask 0 0\npace 0 2 50\nflusher 0 0 0\nwrite 0 0 0 2\nrest 0 300\nwrite 0 0 2 1\n";

const CUT_AFTER_A_REST: &[u8] =
    b"cpus 1\navail 0 100000\ndevice 0 25600 0 100\ncontext 0 0 0\ninode 0 0 4\ntask 0 0\nflusher 0 0 0\nwrite 0 0 0 2\nrest 0 300\nrest 0 50\nwrite 0 0 2 1\n";

#[test]
fn a_pace_rests_where_lines_would(rt: HostRuntime) -> Result<(), Fail> {
    for (paced, cut) in [
        (PACE_TO_THE_END, CUT_TO_THE_END),
        (PACE_AFTER_A_REST, CUT_AFTER_A_REST),
    ] {
        let found = print_run(rt.alloc(), paced, 99)?;
        let wanted = print_run(rt.alloc(), cut, 99)?;
        assert_eq!(rt; found.end, Ok(()));
        assert_eq!(rt; found.held.as_slice(), wanted.held.as_slice());
    }
    Ok(())
}

#[test]
fn a_sink_that_fails_its_first_write_holds_nothing(rt: HostRuntime) -> Result<(), Fail> {
    let printed = print_run(rt.alloc(), EMPTY, 1)?;
    assert_eq!(rt; printed.end, Err(PrintEnd::WriteFault));
    assert_eq!(rt; printed.faults, 1);
    assert_eq!(rt; printed.held.as_slice(), b"".as_slice());
    Ok(())
}

// As many inodes as a trace may have, each of a page.
const MANY_INODES: u32 = 4096;

fn put_inode(text: &mut String, inode: u32) -> Result<(), Fail> {
    Ok(write!(text, "inode {inode} 0 1\n")?)
}

fn put_write(text: &mut String, inode: u32) -> Result<(), Fail> {
    Ok(write!(text, "write 0 {inode} 0 1\n")?)
}

// One task writes all of them before their device's flusher takes a step.
fn many_inodes(alloc: Global) -> Result<String, Fail> {
    let mut text = String::from_str(
        alloc,
        "cpus 2\navail 0 100000\ndevice 0 25600 0 100\ncontext 0 0 0\n",
    )?;
    for inode in 0..MANY_INODES {
        put_inode(&mut text, inode)?;
    }
    text.push_str("task 0 0\nflusher 0 0 1\n")?;
    for inode in 0..MANY_INODES {
        put_write(&mut text, inode)?;
    }
    text.push_str("order 0 1000000\n")?;
    Ok(text)
}

#[test]
fn all_inodes_of_a_trace_wait_in_one_queue(rt: HostRuntime) -> Result<(), Fail> {
    let text = many_inodes(rt.alloc())?;
    let journal = replayed(rt.alloc(), text.as_bytes())?;
    assert_eq!(rt; journal.ending, Ending::Done);
    assert_eq!(rt; journal.left.as_slice().len(), 0);
    Ok(())
}
