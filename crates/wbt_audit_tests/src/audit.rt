//! Journals that are judged: the worked rows, journals that are cut, and a sink that fails.

use plain_in_use::{run, run_on};
use std::alloc::{AllocError, Global};
use std::test::Fail;
use wbt_top_plain::{Status, code};
use wbt_trace_text::TraceFault;

// A trace that writes nothing, and its journal.
const EMPTY: &str =
    "cpus 1\navail 0 100000\ndevice 0 25600 0 100\ncontext 0 0 0\ninode 0 0 2\ntask 0 0\nflusher 0 0 0\n";

const EMPTY_TEXT: &str =
    "timer\nlimits 0 1 19995 9985 19995\ncpu 0\ncensus 0 0\ntotals 0 0\nend done\n";

// What a task does beside the trace that writes nothing.
const WRITES_TWO: &str = "write 0 0 0 2\n";

// The journal of the trace that writes two pages, as a run over threads may tell it.
const TWO_PAGES_TEXT: &str =
    "timer\nlimits 0 1 19995 9985 19995\ncpu 0\nwrite 0 0 fresh\nwrite 0 1 fresh\nclaim 0 0\nclaim 0 1\nbatch 0 2 1 2\ndone 0 0\ndone 0 1\nshare 0 0 2\ncensus 0 0\ntotals 2 2\nend done\n";

// An input of these pieces.
fn input_of(alloc: Global, pieces: &[&str]) -> Result<String, AllocError> {
    let mut text = String::new(alloc);
    for piece in pieces {
        text.push_str(piece)?;
    }
    Ok(text)
}

// What is wanted of an input: its status, its code, its sentence and its output.
#[derive(Clone, Copy)]
struct Wanted<'a> {
    status: Status,
    code: u8,
    sentence: &'a str,
    output: &'a str,
}

const LAWFUL: Wanted<'static> = Wanted {
    status: Status::Good,
    code: 0,
    sentence: "wbsim: ok",
    output: "lawful\n",
};

fn unlawful(output: &str) -> Wanted {
    Wanted {
        status: Status::Unlawful,
        code: 11,
        sentence: "wbsim: unlawful",
        output,
    }
}

fn bad_journal(line: u64, sentence: &str) -> Wanted {
    Wanted {
        status: Status::BadJournal { line },
        code: 10,
        sentence,
        output: "",
    }
}

// Whether the input of these pieces has what is wanted.
fn is_judged(alloc: Global, pieces: &[&str], wanted: Wanted) -> Result<bool, Fail> {
    let text = input_of(alloc, pieces)?;
    let done = run(alloc, "audit", text.as_str())?;
    let sentence = format!(in alloc; "{}", done.status)?;
    Ok(
        done.status == wanted.status
            && code(&done.status) == wanted.code
            && sentence.as_str() == wanted.sentence
            && done.held.as_slice() == wanted.output.as_bytes(),
    )
}

#[test]
fn a_journal_that_tells_nothing_is_lawful(rt: HostRuntime) -> Result<(), Fail> {
    assert!(rt; is_judged(rt.alloc(), &[EMPTY, "journal\n", EMPTY_TEXT], LAWFUL)?);
    Ok(())
}

#[test]
fn a_hard_limit_that_does_not_follow_is_told_with_its_line(rt: HostRuntime) -> Result<(), Fail> {
    let text = "timer\nlimits 0 1 19995 9985 19996\ncpu 0\ncensus 0 0\ntotals 0 0\nend done\n";
    assert!(rt;
        is_judged(
            rt.alloc(),
            &[EMPTY, "journal\n", text],
            unlawful("broken clause 9 line 2\n")
        )?
    );
    Ok(())
}

// The same where the disk failed to write the two pages at first.
const FAILED_ONCE_TEXT: &str =
    "timer\nlimits 0 1 19995 9985 19995\ncpu 0\nwrite 0 0 fresh\nwrite 0 1 fresh\nclaim 0 0\nclaim 0 1\nfault 0 2\nback 0 0 dirty\nback 0 1 dirty\nclaim 0 0\nclaim 0 1\nbatch 0 2 1001 1002\ndone 0 0\ndone 0 1\nshare 0 0 2\ncensus 0 0\ntotals 2 2\nend done\n";

#[test]
fn a_batch_has_no_more_pages_than_its_devices_line_says(rt: HostRuntime) -> Result<(), Fail> {
    for (line, text, wanted) in [
        ("chunk 0 2\n", TWO_PAGES_TEXT, LAWFUL),
        ("chunk 0 2\n", FAILED_ONCE_TEXT, LAWFUL),
        (
            "chunk 0 1\n",
            TWO_PAGES_TEXT,
            unlawful("broken clause 14 line 8\n"),
        ),
        (
            "chunk 0 1\n",
            FAILED_ONCE_TEXT,
            unlawful("broken clause 14 line 8\n"),
        ),
    ] {
        let pieces = [EMPTY, line, WRITES_TWO, "journal\n", text];
        assert!(rt; is_judged(rt.alloc(), &pieces, wanted)?);
    }
    Ok(())
}

// The journal of a page that stood first in its flusher's list, but for the moment of its notice.
const NOTICED: &str = "timer\nlimits 0 1 19995 9985 19995\ncpu 0\nwrite 0 0 fresh\nnotice 0 0 ";

const TAKEN: &str =
    "\ntake 0 0\nclaim 0 0\nbatch 0 1 1 2\ndone 0 0\nshare 0 0 1\ncensus 0 0\ntotals 1 1\nend done\n";

// An ageing device, of which one page is written.
const AGES_ONE: &str = "expire 0 10\nwrite 0 0 0 1\n";

// A task whose pages are checked one by one, and the journal of one of them, but for the moment of the check, which is told twice.
const CHECKS_EACH: &str =
    "cpus 1\ncap 1\navail 0 100000\ndevice 0 1000 0 100\ncontext 0 0 0\ninode 0 0 4\ntask 0 0\nflusher 0 0 0\nwrite 0 0 0 1\n";

const CHECKED: &str =
    "timer\nlimits 0 1 19995 9985 19995\ncpu 0\nwrite 0 0 fresh\nread 0 0 19995 9985 19995 0 0 0 0 1\ncount 0 0 0\ncheck 0 0 ";

const DECIDED: &str = " 0 free 0 1 0 128 ";

const CLEANED: &str =
    "\nclaim 0 0\nbatch 0 1 1 2\ndone 0 0\nshare 0 0 1\ncensus 0 0\ntotals 1 1\nend done\n";

#[test]
fn an_inode_is_noticed_before_the_end_of_time(rt: HostRuntime) -> Result<(), Fail> {
    for (moment, wanted) in [
        ("1", LAWFUL),
        ("4611686018427387903", LAWFUL),
        ("4611686018427387904", unlawful("broken clause 10 line 5\n")),
        (
            "18446744073709551615",
            unlawful("broken clause 10 line 5\n"),
        ),
    ] {
        let pieces = [EMPTY, AGES_ONE, "journal\n", NOTICED, moment, TAKEN];
        assert!(rt; is_judged(rt.alloc(), &pieces, wanted)?, "{moment}");
    }
    Ok(())
}

#[test]
fn a_check_decides_before_the_end_of_time(rt: HostRuntime) -> Result<(), Fail> {
    for (moment, wanted) in [
        ("1", LAWFUL),
        ("4611686018427387903", LAWFUL),
        ("4611686018427387904", unlawful("broken clause 7 line 7\n")),
        ("18446744073709551615", unlawful("broken clause 7 line 7\n")),
    ] {
        let pieces = [
            CHECKS_EACH,
            "journal\n",
            CHECKED,
            moment,
            DECIDED,
            moment,
            CLEANED,
        ];
        assert!(rt; is_judged(rt.alloc(), &pieces, wanted)?, "{moment}");
    }
    Ok(())
}

#[test]
fn a_journal_that_leaves_writes_out_is_not_done(rt: HostRuntime) -> Result<(), Fail> {
    assert!(rt;
        is_judged(
            rt.alloc(),
            &[EMPTY, WRITES_TWO, "journal\n", EMPTY_TEXT],
            unlawful("broken clause 16 line 6\n")
        )?
    );
    Ok(())
}

#[test]
fn totals_that_are_no_sums_are_no_journal(rt: HostRuntime) -> Result<(), Fail> {
    let text = "timer\nlimits 0 1 19995 9985 19995\ncpu 0\ncensus 0 0\ntotals 1 0\nend done\n";
    assert!(rt;
        is_judged(
            rt.alloc(),
            &[EMPTY, "journal\n", text],
            bad_journal(5, "wbsim: journal line 5: bad line")
        )?
    );
    Ok(())
}

#[test]
fn a_trace_alone_has_no_journal(rt: HostRuntime) -> Result<(), Fail> {
    assert!(rt;
        is_judged(
            rt.alloc(),
            &[EMPTY],
            bad_journal(0, "wbsim: journal line 0: bad line")
        )?
    );
    Ok(())
}

// The journal of a run that was halted before it wrote anything.
const HALTED_TEXT: &str =
    "timer\nlimits 0 1 19995 9985 19995\ncpu 0\ncensus 0 0\ntotals 0 0\nend halted\n";

#[test]
fn a_task_that_rests_last_beside_another_is_not_settled(rt: HostRuntime) -> Result<(), Fail> {
    for text in [EMPTY_TEXT, HALTED_TEXT] {
        assert!(rt;
            is_judged(
                rt.alloc(),
                &[EMPTY, "task 1 0\nrest 1 5\n", "journal\n", text],
                Wanted {
                    status: Status::Unsettled,
                    code: 12,
                    sentence: "wbsim: unsettled",
                    output: "unsettled task 1\n",
                }
            )?
        );
    }
    Ok(())
}

#[test]
fn a_task_that_rests_last_alone_is_settled(rt: HostRuntime) -> Result<(), Fail> {
    assert!(rt;
        is_judged(
            rt.alloc(),
            &[EMPTY, "rest 0 5\n", "journal\n", EMPTY_TEXT],
            LAWFUL
        )?
    );
    Ok(())
}

#[test]
fn a_bad_trace_comes_before_a_bad_journal(rt: HostRuntime) -> Result<(), Fail> {
    let text = input_of(rt.alloc(), &["cpus 01\njournal\n", "no journal\n"])?;
    let done = run(rt.alloc(), "audit", text.as_str())?;
    assert_eq!(rt;
        done.status,
        Status::BadTrace(TraceFault::BadLine { line: 1 })
    );
    assert!(rt; done.held.is_empty());
    Ok(())
}

#[test]
fn the_line_journal_has_its_line_feed_and_nothing_else(rt: HostRuntime) -> Result<(), Fail> {
    for line in [
        "journal",
        "journal \n",
        " journal\n",
        "Journal\n",
        "journals\n",
    ] {
        let text = input_of(rt.alloc(), &[EMPTY, line])?;
        let done = run(rt.alloc(), "audit", text.as_str())?;
        assert_eq!(rt;
            done.status,
            Status::BadTrace(TraceFault::BadLine { line: 8 }),
            "{line}"
        );
    }
    Ok(())
}

#[test]
fn a_second_line_journal_is_no_line_of_a_journal(rt: HostRuntime) -> Result<(), Fail> {
    assert!(rt;
        is_judged(
            rt.alloc(),
            &[EMPTY, "journal\n", "timer\njournal\n"],
            bad_journal(2, "wbsim: journal line 2: bad line")
        )?
    );
    Ok(())
}

// How many lines a text has.
fn lines_in(text: &str) -> u64 {
    let mut lines: u64 = 0;
    for byte in text.as_bytes() {
        if *byte == b'\n' {
            lines = lines.saturating_add(1);
        }
    }
    lines
}

#[test]
fn a_journal_that_is_cut_is_refused_at_the_line_that_is_missing(
    rt: HostRuntime,
) -> Result<(), Fail> {
    for cut in 0..TWO_PAGES_TEXT.len() {
        if let Some(text) = TWO_PAGES_TEXT.get(..cut) {
            let whole = input_of(rt.alloc(), &[EMPTY, WRITES_TWO, "journal\n", text])?;
            let done = run(rt.alloc(), "audit", whole.as_str())?;
            let line = lines_in(text).saturating_add(1);
            assert_eq!(rt; done.status, Status::BadJournal { line }, "cut at {cut}");
            assert!(rt; done.held.is_empty(), "cut at {cut}");
        }
    }
    assert!(rt;
        is_judged(
            rt.alloc(),
            &[EMPTY, WRITES_TWO, "journal\n", TWO_PAGES_TEXT],
            LAWFUL
        )?
    );
    Ok(())
}

// The status and the output for an input, by a sink that fails at its first write.
fn by_a_failing_sink(alloc: Global, pieces: &[&str]) -> Result<(Status, Vec<u8>), Fail> {
    let text = input_of(alloc, pieces)?;
    let done = run_on(alloc, &["audit"], text.as_str(), 0, 1)?;
    Ok((done.status, done.held))
}

#[test]
fn a_verdict_stands_before_a_fault_of_the_sink(rt: HostRuntime) -> Result<(), Fail> {
    let alloc = rt.alloc();
    let (lawful, held) = by_a_failing_sink(alloc, &[EMPTY, "journal\n", EMPTY_TEXT])?;
    assert_eq!(rt; lawful, Status::WriteFault);
    assert!(rt; held.is_empty());
    let broken = [EMPTY, WRITES_TWO, "journal\n", EMPTY_TEXT];
    let (broken, held) = by_a_failing_sink(alloc, &broken)?;
    assert_eq!(rt; broken, Status::Unlawful);
    assert!(rt; held.is_empty());
    let open = [EMPTY, "task 1 0\nrest 1 5\n", "journal\n", EMPTY_TEXT];
    let (open, held) = by_a_failing_sink(alloc, &open)?;
    assert_eq!(rt; open, Status::Unsettled);
    assert!(rt; held.is_empty());
    Ok(())
}
