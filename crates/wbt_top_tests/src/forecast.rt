//! Forecasts: worked texts, their sums beside those of a replay's journal, and what is left where words, a text, a source or a sink fail.

use super::faults::TWO_PAGES;
use super::worked::MACHINE;
use plain_in_use::{Outcome, count_of, positive_of, run, run_on, serve, sum_of};
use std::alloc::Global;
use std::test::Fail;
use wbt_io::{MemSink, MemSource};
use wbt_top_plain::{Status, code};
use wbt_trace_text::{Missing, TraceFault};

const TWO_PAGES_FORECAST: &str =
    "forecast 1000\nfrom 0\ndomain 0 0 2 19995 21067\ncontext 0 2 2 25600 25600 25600\ntask 0 2 0 0 0 0\ntotals 2 2\nend done\n";

const HALTED: &str =
    "cpus 1\navail 0 100000\ndevice 0 25600 0 100\ncontext 0 0 0\ninode 0 0 2\ntask 0 0\nflusher 0 0 0\nwrite 0 0 0 2\nhalt 3\n";

// Two cgroups, a cap of one page, and a task that rests while the estimates of two contexts are made anew.
const CHECKS: &str =
    "cpus 1\ncap 1\navail 0 1000\ndevice 0 25600 0 100\ncgroup 1 100 100\ncgroup 2 30 5\ncontext 0 0 1\ncontext 1 0 2\ninode 0 0 2\ninode 1 1 1\ntask 0 0\ntask 1 0\nflusher 0 0 0\nwrite 0 0 0 2\nrest 1 300\nwrite 1 1 0 1\n";

// A slow disk under two writers, which pause thousands of times.
const PAUSES: &str =
    "cpus 2\navail 0 1000\ndevice 0 100 0 100\ncontext 0 0 0\ninode 0 0 400\ntask 0 0\ntask 1 1\nflusher 0 0 1\nwrite 0 0 0 200\nwrite 0 0 0 200\nwrite 1 0 200 200\n";

// A forecast by intervals of so many ticks, of a text at which nothing fails.
fn forecast(alloc: Global, every: &str, text: &str) -> Result<Outcome, Fail> {
    run_on(alloc, &["forecast", every], text, 0, 0)
}

// A forecast of two pages by a source and a sink of one byte a call, which fail at these calls.
fn forecast_by_bytes(alloc: Global, read_fails: u64, write_fails: u64) -> Result<Outcome, Fail> {
    let bytes = TWO_PAGES.as_bytes().to_vec(alloc)?;
    let source = MemSource::make(bytes, 1, [read_fails].to_vec(alloc)?);
    let sink = MemSink::make(alloc, 4096, 1, [write_fails].to_vec(alloc)?)?;
    serve(alloc, &["forecast", "1000"], source, sink)
}

#[test]
fn two_pages_are_foretold(rt: HostRuntime) -> Result<(), Fail> {
    let done = forecast(rt.alloc(), "1000", TWO_PAGES)?;
    assert_eq!(rt; (done.status, code(&done.status)), (Status::Good, 0));
    assert_eq!(rt; done.held.as_slice(), TWO_PAGES_FORECAST.as_bytes());
    Ok(())
}

#[test]
fn each_interval_with_a_step_has_its_row(rt: HostRuntime) -> Result<(), Fail> {
    let done = forecast(rt.alloc(), "1", TWO_PAGES)?;
    assert_eq!(rt; done.status, Status::Good);
    assert_eq!(rt;
        done.held.as_slice(),
        b"forecast 1\nfrom 1\ndomain 0 2 2 19995 21067\ncontext 0 2 0 25600 25600 25600\ntask 0 2 0 0 0 0\nfrom 2\ndomain 0 0 1 19995 21067\ncontext 0 0 2 25600 25600 25600\ntotals 2 2\nend done\n".as_slice()
    );
    Ok(())
}

#[test]
fn the_longest_interval_has_all(rt: HostRuntime) -> Result<(), Fail> {
    let done = forecast(rt.alloc(), "1000000000", TWO_PAGES)?;
    assert_eq!(rt; done.status, Status::Good);
    assert_eq!(rt;
        done.held.as_slice(),
        b"forecast 1000000000\nfrom 0\ndomain 0 0 2 19995 21067\ncontext 0 2 2 25600 25600 25600\ntask 0 2 0 0 0 0\ntotals 2 2\nend done\n".as_slice()
    );
    Ok(())
}

#[test]
fn a_run_whose_cpu_is_halted_is_foretold(rt: HostRuntime) -> Result<(), Fail> {
    let halted = forecast(rt.alloc(), "1", HALTED)?;
    assert_eq!(rt; halted.status, Status::Good);
    assert_eq!(rt;
        halted.held.as_slice(),
        b"forecast 1\nfrom 1\ndomain 0 1 1 19995 21067\ncontext 0 1 0 25600 25600 25600\ntask 0 1 0 0 0 0\ntotals 1 0\nend halted\n".as_slice()
    );
    Ok(())
}

#[test]
fn words_that_are_no_forecast_are_refused(rt: HostRuntime) -> Result<(), Fail> {
    let alloc = rt.alloc();
    for number in [
        "0",
        "01",
        "1000000001",
        "+1",
        "-1",
        "1 ",
        "",
        "18446744073709551617",
    ] {
        let refused = run_on(alloc, &["forecast", number], TWO_PAGES, 0, 0)?;
        assert_eq!(rt; refused.status, Status::BadWords, "{number}");
        assert!(rt; refused.held.is_empty(), "{number}");
    }
    let none = run(alloc, "forecast", TWO_PAGES)?;
    assert_eq!(rt; none.status, Status::BadWords);
    let two = run_on(alloc, &["forecast", "1", "2"], TWO_PAGES, 0, 0)?;
    assert_eq!(rt; two.status, Status::BadWords);
    let other = run_on(alloc, &["replay", "1000"], TWO_PAGES, 0, 0)?;
    assert_eq!(rt; other.status, Status::BadWords);
    Ok(())
}

#[test]
fn a_refused_trace_is_told_with_its_line(rt: HostRuntime) -> Result<(), Fail> {
    let alloc = rt.alloc();
    let misspelled = forecast(alloc, "1000", "cpus 01\n")?;
    assert_eq!(rt;
        misspelled.status,
        Status::BadTrace(TraceFault::BadLine { line: 1 })
    );
    assert!(rt; misspelled.held.is_empty());
    let no_flusher = forecast(alloc, "1000", MACHINE)?;
    assert_eq!(rt;
        no_flusher.status,
        Status::BadTrace(TraceFault::Missing {
            what: Missing::Flusher
        })
    );
    Ok(())
}

#[test]
fn a_source_that_fails_early_is_told(rt: HostRuntime) -> Result<(), Fail> {
    for fails in 1..=3u64 {
        let failed = forecast_by_bytes(rt.alloc(), fails, 0)?;
        assert_eq!(rt; failed.status, Status::ReadFault, "at read {fails}");
        assert!(rt; failed.held.is_empty(), "at read {fails}");
    }
    Ok(())
}

#[test]
fn a_sink_that_fails_at_any_byte_holds_those_before(rt: HostRuntime) -> Result<(), Fail> {
    for held in 0..TWO_PAGES_FORECAST.len() {
        let fails = (held as u64).saturating_add(1);
        let failed = forecast_by_bytes(rt.alloc(), 0, fails)?;
        assert_eq!(rt; failed.status, Status::WriteFault, "at write {fails}");
        assert_eq!(rt;
            Some(failed.held.as_slice()),
            TWO_PAGES_FORECAST.as_bytes().get(..held),
            "at write {fails}"
        );
    }
    Ok(())
}

// What a run comes to: pages written, checks, pauses and their ticks, pages dirtied and completed.
#[derive(Clone, Copy, Debug, PartialEq, Eq)]
struct Sums {
    pages: u64,
    checks: u64,
    pauses: u64,
    ticks: u64,
    dirtied: u64,
    completed: u64,
}

fn sums_of_journal(text: &[u8]) -> Sums {
    Sums {
        pages: count_of(text, b"write"),
        checks: count_of(text, b"check"),
        pauses: positive_of(text, b"check", 6),
        ticks: sum_of(text, b"check", 6),
        dirtied: sum_of(text, b"totals", 1),
        completed: sum_of(text, b"totals", 2),
    }
}

fn sums_of_rows(text: &[u8]) -> Sums {
    Sums {
        pages: sum_of(text, b"task", 2),
        checks: sum_of(text, b"task", 3),
        pauses: sum_of(text, b"task", 4),
        ticks: sum_of(text, b"task", 5),
        dirtied: sum_of(text, b"context", 2),
        completed: sum_of(text, b"context", 3),
    }
}

// A call with these words on a text at which nothing fails.
fn serve_whole(alloc: Global, words: &[&str], text: &str) -> Result<Outcome, Fail> {
    let bytes = text.as_bytes().to_vec(alloc)?;
    let source = MemSource::make(bytes, 65536, Vec::new(alloc));
    let sink = MemSink::make(alloc, 1 << 22, 65536, Vec::new(alloc))?;
    serve(alloc, words, source, sink)
}

#[test]
fn rows_sum_up_to_what_the_journal_tells(rt: HostRuntime) -> Result<(), Fail> {
    let alloc = rt.alloc();
    for (text, every) in [
        (CHECKS, "100"),
        (PAUSES, "1"),
        (PAUSES, "250"),
        (PAUSES, "1000000000"),
    ] {
        let replayed = serve_whole(alloc, &["replay"], text)?;
        let foretold = serve_whole(alloc, &["forecast", every], text)?;
        assert_eq!(rt;
            (replayed.status, foretold.status),
            (Status::Good, Status::Good)
        );
        let sums = sums_of_rows(&foretold.held);
        assert_eq!(rt; sums, sums_of_journal(&replayed.held), "by {every} ticks");
        assert_eq!(rt;
            sum_of(&foretold.held, b"totals", 1),
            sums.dirtied,
            "by {every} ticks"
        );
        assert_eq!(rt;
            sum_of(&foretold.held, b"totals", 2),
            sums.completed,
            "by {every} ticks"
        );
    }
    Ok(())
}
