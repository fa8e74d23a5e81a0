//! Allowances of writers, leaks of ended ones, and a history of events.

ghost use Rattle.std.specs.Prelude.{◌≡◌};

use wbt_task::{CpuLocal, Due, Event, Task, end_task, first_task, new_writer, page_done, run};

fn cpu(since_check: u64, leaks: u64) -> CpuLocal
    ensures since { result.since_check ≡ since_check }
    ensures leaks { result.leaks ≡ leaks }
{
    CpuLocal { since_check, leaks }
}

fn writer(nr_dirtied: u64, nr_dirtied_pause: u64) -> Task
    ensures dirtied { result.nr_dirtied ≡ nr_dirtied }
{
    Task {
        nr_dirtied,
        nr_dirtied_pause,
        paused_when: 7,
    }
}

#[test]
fn a_new_writer_takes_the_leaks(rt: HostRuntime) {
    let mut local = cpu(0, 5);
    let mut task = first_task();
    assert_eq!(rt; page_done(&mut local, &mut task, 31, false, 1000), Due::No);
    assert_eq!(rt; local, cpu(1, 0));
    assert_eq!(rt; task.nr_dirtied, 6);
    assert_eq!(rt; task.nr_dirtied_pause, 32);
    assert_eq!(rt; task.paused_when, 0);
}

#[test]
fn leaks_fill_an_allowance_and_no_more(rt: HostRuntime) {
    let mut local = cpu(4, 50);
    let mut task = writer(3, 32);
    assert_eq!(rt;
        page_done(&mut local, &mut task, 31, false, 1000),
        Due::Check
    );
    assert_eq!(rt; local, cpu(5, 22));
    assert_eq!(rt; task, writer(32, 32));
    let mut local = cpu(4, 50);
    let mut task = writer(3, 32);
    assert_eq!(rt;
        page_done(&mut local, &mut task, 31, true, 1000),
        Due::Check
    );
    assert_eq!(rt; local, cpu(5, 46));
    assert_eq!(rt; task, writer(8, 32));
}

#[test]
fn a_cpu_asks_after_so_many_pages(rt: HostRuntime) {
    let mut local = cpu(15, 9);
    let mut task = writer(3, 32);
    assert_eq!(rt; page_done(&mut local, &mut task, 31, false, 16), Due::Check);
    assert_eq!(rt; local, cpu(0, 9));
    assert_eq!(rt; task, writer(4, 32));
    let mut local = cpu(14, 0);
    let mut task = writer(3, 32);
    assert_eq!(rt; page_done(&mut local, &mut task, 31, false, 16), Due::No);
    assert_eq!(rt; local, cpu(15, 0));
    assert_eq!(rt; task, writer(4, 32));
}

#[test]
fn a_used_up_allowance_asks(rt: HostRuntime) {
    let mut local = cpu(3, 9);
    let mut task = writer(31, 32);
    assert_eq!(rt;
        page_done(&mut local, &mut task, 31, false, 1000),
        Due::Check
    );
    assert_eq!(rt; local, cpu(0, 9));
    assert_eq!(rt; task, writer(32, 32));
}

#[test]
fn the_mark_cuts_the_allowance(rt: HostRuntime) {
    for (nr_dirtied, nr_dirtied_pause, exceeded, want) in [
        (7, 32, true, Due::Check),
        (7, 32, false, Due::No),
        (6, 32, true, Due::No),
        (6, 7, true, Due::Check),
    ] {
        let mut local = cpu(3, 0);
        let mut task = writer(nr_dirtied, nr_dirtied_pause);
        assert_eq!(rt;
            page_done(&mut local, &mut task, 9, exceeded, 1000),
            want,
            "{nr_dirtied} of {nr_dirtied_pause}"
        );
    }
}

#[test]
fn no_page_left_asks(rt: HostRuntime) {
    let mut local = cpu(3, 0);
    let mut task = writer(3, 32);
    assert_eq!(rt;
        page_done(&mut local, &mut task, 0, false, 1000),
        Due::Check
    );
    assert_eq!(rt; local, cpu(4, 0));
    assert_eq!(rt; task, writer(4, 32));
}

#[test]
fn an_ended_task_leaves_its_pages(rt: HostRuntime) {
    let mut local = cpu(3, 2);
    end_task(&mut local, &writer(4, 32));
    end_task(&mut local, &writer(0, 32));
    assert_eq!(rt; local, cpu(3, 6));
}

#[test]
fn a_writer_writes_and_ends(rt: HostRuntime) {
    let mut local = CpuLocal {
        since_check: 0,
        leaks: 0,
    };
    let mut writers = [new_writer(9)];
    run(
        &[Event::Wrote(0), Event::Ended(0)],
        16,
        9,
        &mut local,
        &mut writers,
    );
    assert_eq!(rt;
        local,
        CpuLocal {
            since_check: 1,
            leaks: 1
        }
    );
    assert_eq!(rt; writers[0], new_writer(9));
}
