//! The curve, and the position ratio on it and on the context's line.

use wbt_num::Limits;
use wbt_position::{DomainRead, polynom, position, setpoint};

#[test]
fn rounds_down_below_the_limit_too(rt: HostRuntime) {
    assert_eq!(rt; polynom(17492, 17492, 19995), 1024);
    assert_eq!(rt; polynom(17492, 14990, 19995), 2045);
    assert_eq!(rt; polynom(17492, 19994, 19995), 2);
    assert_eq!(rt; polynom(17492, 19995, 19995), 0);
}

const LIMITS: Limits = Limits {
    thresh: 19995,
    bg: 9985,
    hard: 19995,
};

#[test]
fn follows_the_curve_and_the_line(rt: HostRuntime) {
    let middle = DomainRead {
        limits: LIMITS,
        dirty: 17492,
        wb_thresh: 19995,
    };
    assert_eq!(rt; setpoint(&LIMITS), 17492);
    assert_eq!(rt; position(&middle, 17492, 25600), 1023);
    let near_limit = DomainRead {
        dirty: 19994,
        ..middle
    };
    assert_eq!(rt; position(&near_limit, 19994, 25600), 1);
    let at_limit = DomainRead {
        dirty: 19995,
        ..middle
    };
    assert_eq!(rt; position(&at_limit, 0, 25600), 0);
}

#[test]
fn follows_them_at_the_greatest_limits(rt: HostRuntime) {
    let greatest = Limits {
        thresh: 4294967295,
        bg: 2147483647,
        hard: 4294967295,
    };
    let average = (1 << 44) - 1;
    let middle = DomainRead {
        limits: greatest,
        dirty: 3758096383,
        wb_thresh: 4294967295,
    };
    assert_eq!(rt; setpoint(&greatest), 3758096383);
    assert_eq!(rt; position(&middle, 3758096383, average), 1023);
    assert_eq!(rt;
        position(&DomainRead { dirty: 0, ..middle }, 0, 25600),
        300662624
    );
    let near_limit = DomainRead {
        dirty: 4294967294,
        ..middle
    };
    assert_eq!(rt; position(&near_limit, 4294967294, average), 1);
    let half = DomainRead {
        wb_thresh: 2147483647,
        ..middle
    };
    assert_eq!(rt; position(&half, 4294967296, 25600), 256);
}

#[test]
fn falls_with_the_pages_of_the_context(rt: HostRuntime) {
    let middle = DomainRead {
        limits: LIMITS,
        dirty: 17492,
        wb_thresh: 19995,
    };
    assert_eq!(rt; position(&middle, 0, 25600), 8888);
    assert_eq!(rt; position(&middle, 1250, 25600), 8837);
    assert_eq!(rt; position(&middle, 5000, 25600), 2171);
    assert_eq!(rt; position(&middle, 9997, 25600), 1061);
    assert_eq!(rt; position(&middle, 20000, 25600), 1011);
    assert_eq!(rt; position(&middle, 200000, 25600), 256);
    assert_eq!(rt; position(&middle, 240000, 25600), 256);
}
