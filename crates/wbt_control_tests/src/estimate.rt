//! Estimates and their updates.

use wbt_estimate::{Estimate, Sample, first_estimate, update};

const BEFORE: Estimate = Estimate {
    version: 4,
    bw: 25600,
    avg: 25600,
    ratelimit: 25600,
    balanced: 10000,
    written_stamp: 0,
    dirtied_stamp: 0,
    at: 1,
};

const SAMPLE: Sample = Sample {
    now: 201,
    written: 5120,
    dirtied: 20000,
    ratio: 1,
    below_setpoint: false,
};

#[test]
fn updates_after_200_ticks(rt: HostRuntime) {
    let after = Estimate {
        version: 5,
        bw: 25600,
        avg: 25600,
        ratelimit: 23650,
        balanced: 6,
        written_stamp: 5120,
        dirtied_stamp: 20000,
        at: 201,
    };
    assert_eq!(rt; update(BEFORE, &SAMPLE), Some(after));
    assert_eq!(rt; update(BEFORE, &Sample { now: 200, ..SAMPLE }), None);
    assert_eq!(rt; update(BEFORE, &Sample { now: 0, ..SAMPLE }), None);
}

#[test]
fn begins_at_25600_pages_a_second(rt: HostRuntime) {
    let first = first_estimate(7);
    assert_eq!(rt; first.version, 0);
    assert_eq!(rt;
        [first.bw, first.avg, first.ratelimit, first.balanced],
        [25600; 4]
    );
    assert_eq!(rt;
        [first.written_stamp, first.dirtied_stamp, first.at],
        [0, 0, 7]
    );
}
