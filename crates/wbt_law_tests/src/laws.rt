//! Law texts with what they print, and the first fault of texts that are refused.

use std::alloc::Global;
use std::test::Fail;
use wbt_law::{law_text, read_law};
use wbt_limits::freerun;
use wbt_num::Limits;
use wbt_position::setpoint;
use wbt_trace_text::TraceFault;

// What a text shows, the text, and what is printed.
type Row = (&'static str, &'static [u8], &'static [u8]);

static ROWS: [Row; 18] = [
    (
        "a writer pauses for what it dirtied",
        b"cpus 4\ncap 1024\nnow 5000\ntask 250 250 4999\nestimate 25600 25600\ncontext 17492\ndomain 19995 9985 19995 17492 19995\n",
        b"ratio 1023\ndecision go 8 250\ntask 0 250 5008\n",
    ),
    (
        "no pause where the writer took longer",
        b"cpus 4\ncap 1024\nnow 5000\ntask 250 250 4990\nestimate 25600 25600\ncontext 17492\ndomain 19995 9985 19995 17492 19995\n",
        b"ratio 1023\ndecision go 0 250\ntask 0 250 4999\n",
    ),
    (
        "the clock went back",
        b"cpus 4\ncap 1024\nnow 1000\ntask 250 250 1500\nestimate 25600 25600\ncontext 17492\ndomain 19995 9985 19995 17492 19995\n",
        b"ratio 1023\ndecision go 88 250\ntask 0 250 1176\n",
    ),
    (
        "a context that may be all error is exempt",
        b"cpus 4\ncap 1024\nnow 5000\ntask 32 32 4900\nestimate 25600 25600\ncontext 96\ndomain 19995 9985 19995 19995 19995\n",
        b"ratio 0\ndecision exempt 1 1\ntask 0 0 5001\n",
    ),
    (
        "one page more waits",
        b"cpus 4\ncap 1024\nnow 5000\ntask 32 32 4900\nestimate 25600 25600\ncontext 97\ndomain 19995 9985 19995 19995 19995\n",
        b"ratio 0\ndecision wait 1 0\ntask 0 0 5001\n",
    ),
    (
        "a wait below the limit",
        b"cpus 4\ncap 1024\nnow 5000\ntask 32 32 4990\nestimate 25600 400\ncontext 19994\ndomain 19995 9985 19995 19994 19995\n",
        b"ratio 1\ndecision wait 100 0\ntask 0 0 5100\n",
    ),
    (
        "nothing dirty under limits of 0 is free",
        b"cpus 4\ncap 1024\nnow 7\ntask 1 32 0\nestimate 25600 25600\ncontext 0\ndomain 0 0 0 0 0\n",
        b"ratio 0\ndecision free 0 1\ntask 0 1 7\n",
    ),
    (
        "each domain has its ratio",
        b"cpus 54\ncap 23\nnow 999999999999999\ntask 129095875 1 1000000000000000\nestimate 468096 725\ncontext 3444\ndomain 12327 10959 14113 13585 3902\ndomain 128 93 329 320 8\n",
        b"ratio 832 250\ndecision go 1 1\ntask 0 0 1000000000000001\n",
    ),
    (
        "each number may be its least",
        b"cpus 1\ncap 1\nnow 0\ntask 0 0 0\nestimate 1 1\ncontext 0\ndomain 0 0 0 0 0\n",
        b"ratio 0\ndecision free 0 1\ntask 0 1 0\n",
    ),
    (
        "each number may be its greatest",
        b"cpus 64\ncap 1024\nnow 1000000000000000\ntask 17179869184 17179869184 1000000000000000\nestimate 1099511627776 1099511627776\ncontext 8388608\ndomain 4294967295 4294967295 4294967295 8388608 4294967295\n",
        b"ratio 16384\ndecision free 0 1024\ntask 0 32768 1000000000000000\n",
    ),
    (
        "four times the hard limit waits",
        b"cpus 64\ncap 1024\nnow 1000000000000000\ntask 17179869184 17179869184 1000000000000000\nestimate 1099511627776 1099511627776\ncontext 8388608\ndomain 2097151 2097151 2097151 8388608 2097151\n",
        b"ratio 0\ndecision wait 1 0\ntask 0 0 1000000000000001\n",
    ),
    (
        "the poll interval is by the threshold, and not by the hard limit",
        b"cpus 4\ncap 1024\nnow 5000\ntask 250 250 4999\nestimate 25600 25600\ncontext 100\ndomain 10000 5000 20000 64 10\n",
        b"ratio 17408\ndecision free 0 64\ntask 0 64 5000\n",
    ),
    (
        "an allowance is to last 10000 / 1024 ticks longer for each doubling of the bandwidth over the rate limit",
        b"cpus 4\ncap 1024\nnow 5000\ntask 250 250 4999\nestimate 25600 12800\ncontext 17492\ndomain 19995 9985 19995 17492 19995\n",
        b"ratio 1023\ndecision go 18 237\ntask 0 237 5018\n",
    ),
    (
        "a context weighs at least an eighth of what is left to the hard limit",
        b"cpus 4\ncap 1024\nnow 5000\ntask 250 250 4999\nestimate 25600 25600\ncontext 100\ndomain 20000 9985 20000 17000 10\n",
        b"ratio 2030\ndecision go 1 25\ntask 0 25 5002\n",
    ),
    (
        "a pause that is cut sets the moment on by what was left of it",
        b"cpus 4\ncap 1024\nnow 5000\ntask 250 250 5090\nestimate 25600 25600\ncontext 17492\ndomain 19995 9985 19995 17492 19995\n",
        b"ratio 1023\ndecision go 88 250\ntask 0 250 5099\n",
    ),
    (
        "a writer that is more than a second late starts anew",
        b"cpus 4\ncap 1024\nnow 5000\ntask 250 250 3500\nestimate 25600 25600\ncontext 17492\ndomain 19995 9985 19995 17492 19995\n",
        b"ratio 1023\ndecision go 0 250\ntask 0 250 5000\n",
    ),
    (
        "a context weighs no more than the domain's threshold",
        b"cpus 4\ncap 1024\nnow 5000\ntask 250 250 4999\nestimate 25600 25600\ncontext 6000\ndomain 10000 5000 20000 16000 15000\n",
        b"ratio 1012\ndecision go 8 250\ntask 0 250 5008\n",
    ),
    (
        "a writer that is just a second late keeps its moment",
        b"cpus 4\ncap 1024\nnow 5000\ntask 250 250 3991\nestimate 25600 25600\ncontext 17492\ndomain 19995 9985 19995 17492 19995\n",
        b"ratio 1023\ndecision go 0 250\ntask 0 250 4000\n",
    ),
];

// What is printed of a law text.
fn printed_of(alloc: Global, text: &[u8]) -> Result<String, Fail> {
    let law = read_law(alloc, text)?;
    Ok(law_text(alloc, &law)?)
}

#[test]
fn a_text_is_answered_by_its_ratios_and_decision(rt: HostRuntime) -> Result<(), Fail> {
    for (shows, text, printed) in ROWS.iter() {
        let found = printed_of(rt.alloc(), text)?;
        assert_eq!(rt; found.as_bytes(), *printed, "{shows}");
    }
    Ok(())
}

static REFUSED: [(&str, &[u8], TraceFault); 32] = [
    ("no line", b"", TraceFault::BadLine { line: 1 }),
    ("no CPU", b"cpus 0\n", TraceFault::OutOfRange { line: 1 }),
    ("65 CPUs", b"cpus 65\n", TraceFault::OutOfRange { line: 1 }),
    (
        "a leading zero",
        b"cpus 04\n",
        TraceFault::BadLine { line: 1 },
    ),
    ("no number", b"cpus\n", TraceFault::BadLine { line: 1 }),
    (
        "two numbers",
        b"cpus 4 4\n",
        TraceFault::BadLine { line: 1 },
    ),
    (
        "no line feed at the end",
        b"cpus 4",
        TraceFault::BadLine { line: 1 },
    ),
    (
        "an end after the first line",
        b"cpus 4\n",
        TraceFault::BadLine { line: 2 },
    ),
    (
        "a line out of its place",
        b"cpus 4\nnow 7\ncap 9\n",
        TraceFault::BadLine { line: 2 },
    ),
    (
        "a line twice",
        b"cpus 4\ncpus 4\n",
        TraceFault::BadLine { line: 2 },
    ),
    (
        "1025 pages left",
        b"cpus 4\ncap 1025\n",
        TraceFault::OutOfRange { line: 2 },
    ),
    (
        "a moment past the greatest",
        b"cpus 4\ncap 9\nnow 1000000000000001\n",
        TraceFault::OutOfRange { line: 3 },
    ),
    (
        "an allowance past the greatest",
        b"cpus 4\ncap 9\nnow 7\ntask 0 17179869185 0\n",
        TraceFault::OutOfRange { line: 4 },
    ),
    (
        "a rate limit of 0",
        b"cpus 4\ncap 9\nnow 7\ntask 0 0 0\nestimate 1 0\n",
        TraceFault::OutOfRange { line: 5 },
    ),
    (
        "too many pages of the context",
        b"cpus 4\ncap 9\nnow 7\ntask 0 0 0\nestimate 1 1\ncontext 8388609\n",
        TraceFault::OutOfRange { line: 6 },
    ),
    (
        "no domain",
        b"cpus 4\ncap 9\nnow 7\ntask 0 0 0\nestimate 1 1\ncontext 0\n",
        TraceFault::BadLine { line: 7 },
    ),
    (
        "a background threshold above the threshold",
        b"cpus 4\ncap 9\nnow 7\ntask 0 0 0\nestimate 1 1\ncontext 0\ndomain 3 4 5 0 0\n",
        TraceFault::OutOfRange { line: 7 },
    ),
    (
        "a threshold above the hard limit",
        b"cpus 4\ncap 9\nnow 7\ntask 0 0 0\nestimate 1 1\ncontext 0\ndomain 5 3 4 0 0\n",
        TraceFault::OutOfRange { line: 7 },
    ),
    (
        "a domain with four numbers",
        b"cpus 4\ncap 9\nnow 7\ntask 0 0 0\nestimate 1 1\ncontext 0\ndomain 5 3 5 0\n",
        TraceFault::BadLine { line: 7 },
    ),
    (
        "the second domain out of range",
        b"cpus 4\ncap 9\nnow 7\ntask 0 0 0\nestimate 1 1\ncontext 0\ndomain 5 3 5 0 0\ndomain 5 3 4294967296 0 0\n",
        TraceFault::OutOfRange { line: 8 },
    ),
    (
        "a third domain",
        b"cpus 4\ncap 9\nnow 7\ntask 0 0 0\nestimate 1 1\ncontext 0\ndomain 5 3 5 0 0\ndomain 5 3 5 0 0\ndomain 5 3 5 0 0\n",
        TraceFault::BadLine { line: 9 },
    ),
    (
        "an empty last line",
        b"cpus 4\ncap 9\nnow 7\ntask 0 0 0\nestimate 1 1\ncontext 0\ndomain 5 3 5 0 0\n\n",
        TraceFault::BadLine { line: 8 },
    ),
    (
        "no page left",
        b"cpus 4\ncap 0\n",
        TraceFault::OutOfRange { line: 2 },
    ),
    (
        "pages dirtied past the greatest",
        b"cpus 4\ncap 9\nnow 7\ntask 17179869185 0 0\n",
        TraceFault::OutOfRange { line: 4 },
    ),
    (
        "a pause that ended past the greatest moment",
        b"cpus 4\ncap 9\nnow 7\ntask 0 0 1000000000000001\n",
        TraceFault::OutOfRange { line: 4 },
    ),
    (
        "an average of 0",
        b"cpus 4\ncap 9\nnow 7\ntask 0 0 0\nestimate 0 1\n",
        TraceFault::OutOfRange { line: 5 },
    ),
    (
        "an average past the greatest",
        b"cpus 4\ncap 9\nnow 7\ntask 0 0 0\nestimate 1099511627777 1\n",
        TraceFault::OutOfRange { line: 5 },
    ),
    (
        "a rate limit past the greatest",
        b"cpus 4\ncap 9\nnow 7\ntask 0 0 0\nestimate 1 1099511627777\n",
        TraceFault::OutOfRange { line: 5 },
    ),
    (
        "a hard limit past the greatest",
        b"cpus 4\ncap 9\nnow 7\ntask 0 0 0\nestimate 1 1\ncontext 0\ndomain 5 3 4294967296 0 0\n",
        TraceFault::OutOfRange { line: 7 },
    ),
    (
        "too many pages of the domain",
        b"cpus 4\ncap 9\nnow 7\ntask 0 0 0\nestimate 1 1\ncontext 0\ndomain 5 3 5 8388609 0\n",
        TraceFault::OutOfRange { line: 7 },
    ),
    (
        "a context's threshold past the greatest",
        b"cpus 4\ncap 9\nnow 7\ntask 0 0 0\nestimate 1 1\ncontext 0\ndomain 5 3 5 0 4294967296\n",
        TraceFault::OutOfRange { line: 7 },
    ),
    (
        "too many pages of the second domain",
        b"cpus 4\ncap 9\nnow 7\ntask 0 0 0\nestimate 1 1\ncontext 0\ndomain 5 3 5 0 0\ndomain 5 3 5 8388609 0\n",
        TraceFault::OutOfRange { line: 8 },
    ),
];

// The fault of a law text, if there is one.
fn fault_of(alloc: Global, text: &[u8]) -> Option<TraceFault> {
    read_law(alloc, text).err()
}

#[test]
fn the_first_fault_is_named(rt: HostRuntime) {
    for (shows, text, fault) in REFUSED.iter() {
        assert_eq!(rt; fault_of(rt.alloc(), text), Some(*fault), "{shows}");
    }
}

#[test]
fn a_machine_of_64_gigabytes_runs_free_to_2514944_pages(rt: HostRuntime) -> Result<(), Fail> {
    let limits = Limits {
        thresh: 3354624,
        bg: 1675264,
        hard: 3354624,
    };
    assert_eq!(rt; (freerun(&limits), setpoint(&limits)), (2514944, 2934784));
    Ok(())
}
