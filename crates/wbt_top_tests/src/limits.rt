//! Inputs at the limits of what a trace may have: memory is enough for them, and each ends with its text.

use plain_in_use::run_whole;
use std::alloc::{AllocError, Global};
use std::test::Fail;
use wbt_num::{MOST_ACTIONS, MOST_INPUT, MOST_ORDER_LINES};
use wbt_top_plain::Status;
use wbt_trace_text::TraceFault;

// The machine of 64 CPUs and 16 disks, each CPU with a task that writes the 15 pages of an inode of its own.
fn wide_machine(alloc: Global) -> Result<Vec<u8>, AllocError> {
    let mut text = b"cpus 64\ncap 16\navail 0 100000\n"
        .as_slice()
        .to_vec(alloc)?;
    for disk in 0..16u32 {
        text.extend_from_slice(format!(in alloc; "device {disk} 25600 0 100\n")?.as_bytes())?;
        text.extend_from_slice(format!(in alloc; "context {disk} {disk} 0\n")?.as_bytes())?;
    }
    for cpu in 0..64u32 {
        let disk = cpu % 16;
        text.extend_from_slice(format!(in alloc; "inode {cpu} {disk} 15\n")?.as_bytes())?;
        text.extend_from_slice(format!(in alloc; "task {cpu} {cpu}\n")?.as_bytes())?;
        text.extend_from_slice(format!(in alloc; "write {cpu} {cpu} 0 15\n")?.as_bytes())?;
    }
    for disk in 0..16u32 {
        text.extend_from_slice(format!(in alloc; "flusher {disk} {disk} {disk}\n")?.as_bytes())?;
    }
    Ok(text)
}

#[test]
fn a_run_of_64_cpus_and_65536_order_lines_is_replayed(rt: HostRuntime) -> Result<(), Fail> {
    let alloc = rt.alloc();
    let mut text = wide_machine(alloc)?;
    for line in 0..MOST_ORDER_LINES {
        let cpu = line % 64;
        text.extend_from_slice(format!(in alloc; "order {cpu} 1\n")?.as_bytes())?;
    }
    let done = run_whole(alloc, "replay", text)?;
    assert_eq!(rt; done.status, Status::Good);
    // The length is that of the text that an independent program prints.
    assert_eq!(rt; done.held.len(), 302898);
    assert!(rt;
        done.held
            .ends_with(b"census 0 0\ntotals 960 960\nend done\n")
    );
    Ok(())
}

#[test]
fn a_trace_of_65536_actions_is_checked(rt: HostRuntime) -> Result<(), Fail> {
    let alloc = rt.alloc();
    let mut text =
        b"cpus 1\ncap 1024\nset dirty_ratio 20\nset dirty_background_ratio 10\nset dirty_bytes 0\nset dirty_background_bytes 0\navail 0 100000\ndevice 0 25600 0 100\ncontext 0 0 0\ninode 0 0 2\ntask 0 0\nflusher 0 0 0\n"
            .as_slice()
            .to_vec(alloc)?;
    for _ in 0..MOST_ACTIONS {
        text.extend_from_slice(b"rest 0 7\n")?;
    }
    let wanted = text.as_slice().to_vec(alloc)?;
    let done = run_whole(alloc, "check", text)?;
    assert_eq!(rt; done.status, Status::Good);
    assert!(rt; done.held.as_slice() == wanted.as_slice());
    Ok(())
}

#[test]
fn a_line_of_too_many_numbers_is_a_bad_line(rt: HostRuntime) -> Result<(), Fail> {
    let alloc = rt.alloc();
    let mut text = b"cpus 1\navail".as_slice().to_vec(alloc)?;
    for _ in 0..100000u32 {
        text.extend_from_slice(b" 0")?;
    }
    text.extend_from_slice(b"\n")?;
    let done = run_whole(alloc, "check", text)?;
    assert_eq!(rt;
        done.status,
        Status::BadTrace(TraceFault::BadLine { line: 2 })
    );
    Ok(())
}

#[test]
fn an_input_of_as_many_bytes_as_there_may_be_is_read(rt: HostRuntime) -> Result<(), Fail> {
    let alloc = rt.alloc();
    let done = run_whole(alloc, "replay", vec![in alloc; b'c'; MOST_INPUT]?)?;
    assert_eq!(rt;
        done.status,
        Status::BadTrace(TraceFault::BadLine { line: 1 })
    );
    Ok(())
}
