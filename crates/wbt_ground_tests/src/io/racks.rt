//! Racks lend disks, also to two threads, and add up what those wrote and where they failed.

use std::alloc::Global;
use std::test::Fail;
use std::thread;
use std::thread::Threads;
use wbt_io::{Disk, FaultyRack, ModelRack, NoMemory, Rack};

// Has a disk write so many batches of two pages, and gives it back. It answers how many failed.
fn write_batches<R: Rack>(alloc: Global, rack: &mut R, batches: u32) -> Result<u64, NoMemory> {
    let mut disk = rack.lend(alloc, 0, 25600)?;
    let mut failed = 0u64;
    for _ in 0..batches {
        if disk.write(&[0, 1], 1).is_err() {
            failed = failed.saturating_add(1);
        }
    }
    rack.give(disk);
    Ok(failed)
}

// Lends two disks, has each write its batch in a thread of its own, and gives them back.
fn write_beside<H: Threads, R: Rack>(rt: &H, alloc: Global, rack: &mut R) -> Result<(), NoMemory> {
    let mut left = rack.lend(alloc, 0, 25600)?;
    let mut right = match rack.lend(alloc, 1, 25600) {
        Ok(disk) => disk,
        Err(refused) => {
            rack.give(left);
            return Err(refused);
        }
    };
    thread::join_mut(
        rt,
        &mut || {
            let _ = left.write(&[0, 1], 1);
        },
        &mut || {
            let _ = right.write(&[2], 1);
        },
    );
    rack.give(left);
    rack.give(right);
    Ok(())
}

#[test]
fn disks_write_in_threads(rt: HostRuntime) -> Result<(), Fail> {
    let mut rack = ModelRack::make();
    write_beside(&rt, rt.alloc(), &mut rack)?;
    assert_eq!(rt; rack.pages, 3);
    let mut rack = FaultyRack::make([1].to_vec(rt.alloc())?);
    write_beside(&rt, rt.alloc(), &mut rack)?;
    assert_eq!(rt; rack.page_count(), 0);
    assert_eq!(rt; rack.fault_count(), 2);
    Ok(())
}

#[test]
fn a_rack_adds_up_what_its_disks_wrote(rt: HostRuntime) -> Result<(), Fail> {
    let mut rack = ModelRack::make();
    assert_eq!(rt; write_batches(rt.alloc(), &mut rack, 3)?, 0);
    assert_eq!(rt; rack.pages, 6);
    assert_eq!(rt; write_batches(rt.alloc(), &mut rack, 2)?, 0);
    assert_eq!(rt; rack.pages, 10);
    Ok(())
}

#[test]
fn a_rack_adds_up_the_faults_of_its_disks(rt: HostRuntime) -> Result<(), Fail> {
    let mut rack = FaultyRack::make([1, 3].to_vec(rt.alloc())?);
    assert_eq!(rt; write_batches(rt.alloc(), &mut rack, 4)?, 2);
    assert_eq!(rt; rack.page_count(), 4);
    assert_eq!(rt; rack.fault_count(), 2);
    assert_eq!(rt; write_batches(rt.alloc(), &mut rack, 2)?, 1);
    assert_eq!(rt; rack.page_count(), 6);
    assert_eq!(rt; rack.fault_count(), 3);
    Ok(())
}

#[test]
fn a_rack_lends_a_new_disk_of_the_rate(rt: HostRuntime) -> Result<(), Fail> {
    let disk = ModelRack::make().lend(rt.alloc(), 5, 300)?;
    assert_eq!(rt; (disk.rate, disk.busy, disk.pages), (300, 0, 0));
    let mut disk = FaultyRack::make([2].to_vec(rt.alloc())?).lend(rt.alloc(), 5, 300)?;
    assert_eq!(rt; disk.write(&[4, 5, 6], 7), Ok(17));
    assert!(rt; disk.write(&[4, 5, 6], 7).is_err());
    Ok(())
}
