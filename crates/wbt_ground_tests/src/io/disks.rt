//! Disks that write at a rate, and one that fails at the calls that it is told.

use std::test::Fail;
use wbt_io::{Disk, Failed, FaultyDisk, ModelDisk};

#[test]
fn a_batch_takes_its_pages_over_the_rate(rt: HostRuntime) {
    let mut disk = ModelDisk {
        rate: 25600,
        busy: 0,
        pages: 0,
    };
    assert_eq!(rt; disk.write(&[0, 1], 1), Ok(2));
    assert_eq!(rt; disk.busy, 2);
    assert_eq!(rt; disk.pages, 2);
}

#[test]
fn a_batch_waits_for_the_one_before_it(rt: HostRuntime) {
    let mut disk = ModelDisk {
        rate: 1000,
        busy: 0,
        pages: 0,
    };
    assert_eq!(rt; disk.write(&[7, 8, 9], 5), Ok(8));
    assert_eq!(rt; disk.write(&[7, 8], 6), Ok(10));
    assert_eq!(rt; disk.write(&[7], 20), Ok(21));
    assert_eq!(rt; disk.busy, 21);
    assert_eq!(rt; disk.pages, 6);
}

#[test]
fn no_number_passes_its_end(rt: HostRuntime) {
    let mut disk = ModelDisk {
        rate: 1,
        busy: 0,
        pages: u64::MAX - 1,
    };
    assert_eq!(rt; disk.write(&[7], (1 << 63) - 1001), Ok((1 << 63) - 1));
    assert_eq!(rt; disk.pages, u64::MAX);
    assert_eq!(rt; disk.write(&[7], 0), Ok(1 << 63));
    assert_eq!(rt; disk.write(&[7], u64::MAX), Ok(1 << 63));
    assert_eq!(rt; disk.pages, u64::MAX);
    disk.rate = u64::MAX;
    disk.busy = 0;
    assert_eq!(rt; disk.write(&[7, 8], 4), Ok(5));
}

#[test]
fn it_fails_at_its_listed_calls(rt: HostRuntime) -> Result<(), Fail> {
    let mut disk = FaultyDisk::make(1000, [2, 4].to_vec(rt.alloc())?);
    assert_eq!(rt; disk.write(&[7, 8, 9], 5), Ok(8));
    assert_eq!(rt; disk.write(&[7, 8], 6), Err(Failed));
    assert_eq!(rt; disk.page_count(), 3);
    assert_eq!(rt; disk.fault_count(), 1);
    assert_eq!(rt; disk.write(&[7, 8], 6), Ok(10));
    assert_eq!(rt; disk.write(&[7, 8], 6), Err(Failed));
    assert_eq!(rt; disk.write(&[7], 6), Ok(11));
    assert_eq!(rt; disk.page_count(), 6);
    assert_eq!(rt; disk.fault_count(), 2);
    Ok(())
}
