//! Runs over threads: what no clause says of them, that memory is enough and that all is done; and what each refusal leaves.

use plain_in_use::{Outcome, words_of};
use std::alloc::Global;
use std::sync::Wait;
use std::test::Fail;
use std::thread::Threads;
use top_in_use::{Input, SlowClock, THREE_CPUS, TWO_PAGES, call, calm, jumping_clock};
use wbt_io::{FreeGate, HaltGate, ModelRack};
use wbt_run::MeetingGate;
use wbt_top_plain::{Route, Status, route};
use wbt_trace_text::{Missing, TraceFault};

// One call at a clock that moves slowly, with a gate that stops nobody and disks that don't fail.
fn run<H: Threads + Wait + Sync>(
    rt: &H,
    alloc: Global,
    words: &[&str],
    text: &str,
) -> Result<Outcome, Fail> {
    call(
        rt,
        alloc,
        &calm(words, text),
        &SlowClock::make(),
        &FreeGate,
        &mut ModelRack::make(),
    )
}

// A text has this line.
fn tells(text: &[u8], line: &str) -> bool {
    text.split(|byte| *byte == b'\n')
        .any(|found| found == line.as_bytes())
}

#[test]
fn two_pages_are_written_and_cleaned(rt: HostRuntime) -> Result<(), Fail> {
    let done = run(&rt, rt.alloc(), &["run"], TWO_PAGES)?;
    assert_eq!(rt; done.status, Status::Good);
    assert!(rt; done.held.ends_with(b"census 0 0\ntotals 2 2\nend done\n"));
    Ok(())
}

#[test]
fn a_clock_that_jumps_stops_nobody(rt: HostRuntime) -> Result<(), Fail> {
    let alloc = rt.alloc();
    let clock = jumping_clock(alloc)?;
    let done = call(
        &rt,
        alloc,
        &calm(&["run"], TWO_PAGES),
        &clock,
        &FreeGate,
        &mut ModelRack::make(),
    )?;
    assert_eq!(rt; done.status, Status::Good);
    assert!(rt; tells(done.held.as_slice(), "totals 2 2"));
    assert!(rt; done.held.ends_with(b"end done\n"));
    Ok(())
}

#[test]
fn a_cpu_that_is_stopped_leaves_its_page(rt: HostRuntime) -> Result<(), Fail> {
    let halted = call(
        &rt,
        rt.alloc(),
        &calm(&["run"], TWO_PAGES),
        &SlowClock::make(),
        &HaltGate { halt: 3 },
        &mut ModelRack::make(),
    )?;
    assert_eq!(rt; halted.status, Status::Good);
    assert!(rt;
        halted
            .held
            .ends_with(b"left 0 dirty\ncensus 1 0\ntotals 1 0\nend halted\n")
    );
    Ok(())
}

#[test]
fn a_bulk_run_cleans_what_it_dirties(rt: HostRuntime) -> Result<(), Fail> {
    for (number, line) in [
        ("4", "bulk 4 dirtied 4 cleaned 4 left 0\n"),
        ("1000", "bulk 1000 dirtied 1000 cleaned 1000 left 0\n"),
    ] {
        let mut rack = ModelRack::make();
        let done = call(
            &rt,
            rt.alloc(),
            &calm(&["bulk", number], ""),
            &SlowClock::make(),
            &FreeGate,
            &mut rack,
        )?;
        assert_eq!(rt; done.status, Status::Good);
        assert_eq!(rt; done.held.as_slice(), line.as_bytes());
    }
    Ok(())
}

#[test]
fn a_bulk_run_writes_to_disks(rt: HostRuntime) -> Result<(), Fail> {
    let mut rack = ModelRack::make();
    let done = call(
        &rt,
        rt.alloc(),
        &calm(&["bulk", "1000"], ""),
        &SlowClock::make(),
        &FreeGate,
        &mut rack,
    )?;
    assert_eq!(rt; done.status, Status::Good);
    assert_eq!(rt; rack.pages, 1000);
    Ok(())
}

#[test]
fn words_that_are_no_command_of_runs_are_refused(rt: HostRuntime) -> Result<(), Fail> {
    let alloc = rt.alloc();
    let no_words: &[&str] = &[];
    for words in [
        no_words,
        &["bulk"],
        &["bulk", "3"],
        &["bulk", "07"],
        &["bulk", "+7"],
        &["bulk", "0"],
        &["bulk", ""],
        &["bulk", " 7"],
        &["bulk", "2097153"],
        &["bulk", "18446744073709551620"],
        &["bulk", "7", "7"],
        &["bulks", "7"],
        &["run", "x"],
        &["Run"],
        &["replay"],
        &["check"],
        &["law"],
    ] {
        let refused = run(&rt, alloc, words, TWO_PAGES)?;
        assert_eq!(rt; refused.status, Status::BadWords);
        assert!(rt; refused.held.is_empty());
    }
    Ok(())
}

#[test]
fn words_go_to_the_call_that_serves_them(rt: HostRuntime) -> Result<(), Fail> {
    let alloc = rt.alloc();
    let one: &[&str] = &["run"];
    for (words, call) in [
        (one, Route::Threads),
        (&["bulk", "4"], Route::Threads),
        (&["bulk", "2097152"], Route::Threads),
        (&["bulk", "2097153"], Route::Bad),
        (&["bulk", "3"], Route::Bad),
        (&["replay"], Route::Plain),
        (&["check"], Route::Plain),
        (&["law"], Route::Plain),
        (&["audit"], Route::Plain),
        (&["audit", "audit"], Route::Bad),
    ] {
        assert_eq!(rt; route(&words_of(alloc, words)?), call);
    }
    Ok(())
}

#[test]
fn what_fails_is_told_and_nothing_more_is_written(rt: HostRuntime) -> Result<(), Fail> {
    let alloc = rt.alloc();
    for (words, text, read_fails, write_fails, status) in [
        (["run"].as_slice(), TWO_PAGES, 1, 0, Status::ReadFault),
        (&["run"], TWO_PAGES, 2, 0, Status::ReadFault),
        (&["run"], TWO_PAGES, 0, 1, Status::WriteFault),
        (&["bulk", "4"], TWO_PAGES, 1, 1, Status::WriteFault),
        (
            &["run"],
            "",
            0,
            0,
            Status::BadTrace(TraceFault::Missing {
                what: Missing::Cpus,
            }),
        ),
        (
            &["run"],
            "cpus 01\n",
            0,
            0,
            Status::BadTrace(TraceFault::BadLine { line: 1 }),
        ),
    ] {
        let input = Input {
            words,
            text,
            read_fails,
            write_fails,
        };
        let failed = call(
            &rt,
            alloc,
            &input,
            &SlowClock::make(),
            &FreeGate,
            &mut ModelRack::make(),
        )?;
        assert_eq!(rt; failed.status, status);
        assert!(rt; failed.held.is_empty());
    }
    Ok(())
}

// The same trace on five CPUs, two of which have nothing to do: six workers, with the timer's.
const FIVE_CPUS: &str =
    "cpus 5\navail 0 100000\ndevice 0 25600 0 100\ncontext 0 0 0\ninode 0 0 64\ntask 0 0\ntask 1 1\nflusher 0 0 2\nwrite 0 0 0 32\nwrite 1 0 32 32\n";

#[test]
fn workers_are_beside_each_other(rt: HostRuntime) -> Result<(), Fail> {
    for text in [THREE_CPUS, FIVE_CPUS] {
        let gate = MeetingGate::make();
        let done = call(
            &rt,
            rt.alloc(),
            &calm(&["run"], text),
            &SlowClock::make(),
            &gate,
            &mut ModelRack::make(),
        )?;
        assert!(rt; gate.has_met());
        assert_eq!(rt; done.status, Status::Good);
        assert!(rt; done.held.ends_with(b"census 0 0\ntotals 64 64\nend done\n"));
    }
    Ok(())
}
