//! Thresholds of domains, cgroups and contexts, and the limit that follows one.

use wbt_limits::{
    Pair, cgroup_avail, follow_limit, freerun, join_limits, over_background, pack_hard,
    pack_thresh, ratelimit_pages, sequence_of, thresholds, wb_bg, wb_thresh,
};
use wbt_num::{Limits, Settings};

fn settings(ratio: u32, bg_ratio: u32, bytes: u64) -> Settings {
    Settings {
        ratio,
        bg_ratio,
        bytes,
        bg_bytes: 0,
    }
}

#[test]
fn thresholds_come_from_ratios_or_bytes(rt: HostRuntime) {
    for (ratio, bg_ratio, bytes, avail, thresh, bg) in [
        (20, 10, 0, 100000, 19995, 9985),
        (20, 30, 0, 100000, 19995, 9997),
        (20, 10, 8193, 100000, 3, 1),
        (20, 10, 0, 0, 0, 0),
        (20, 10, 0, 16777216, 3354624, 1675264),
        (100, 100, 0, 1 << 40, 4294967295, 2147483647),
    ] {
        let pair = thresholds(avail, &settings(ratio, bg_ratio, bytes), None);
        assert_eq!(rt;
            pair,
            Pair { thresh, bg },
            "at {avail} pages, {ratio}, {bg_ratio}, {bytes}"
        );
    }
}

#[test]
fn bytes_are_a_part_of_all_pages_in_a_cgroup(rt: HostRuntime) {
    for (bytes, global_avail, thresh, bg) in [
        (0, 100000, 15996, 7988),
        (40960, 100000, 19, 9),
        (4096, 0, 80000, 7988),
    ] {
        let pair = thresholds(80000, &settings(20, 10, bytes), Some(global_avail));
        assert_eq!(rt;
            pair,
            Pair { thresh, bg },
            "at {bytes} of {global_avail} pages"
        );
    }
}

#[test]
fn a_limit_rises_at_once_and_falls_slowly(rt: HostRuntime) {
    assert_eq!(rt; follow_limit(5000, 10000, 0), 10000);
    assert_eq!(rt; follow_limit(20000, 10000, 15000), 19844);
    assert_eq!(rt; follow_limit(12000, 10000, 15000), 12000);
}

#[test]
fn checks_come_more_often_with_more_cpus(rt: HostRuntime) {
    for (cpus, want) in [(1, 624), (4, 156), (64, 16)] {
        assert_eq!(rt; ratelimit_pages(19995, cpus), want, "at {cpus} CPUs");
    }
}

#[test]
fn writers_run_free_to_the_middle(rt: HostRuntime) {
    let limits = Limits {
        thresh: 19995,
        bg: 9985,
        hard: 19995,
    };
    assert_eq!(rt; freerun(&limits), 14990);
    assert!(rt; !over_background(9985, &limits));
    assert!(rt; over_background(9986, &limits));
}

#[test]
fn clean_pages_elsewhere_count_up_to_the_headroom(rt: HostRuntime) {
    assert_eq!(rt; cgroup_avail(50000, 30000, 1000, 100000, 5000), 80000);
    assert_eq!(rt; cgroup_avail(50000, 60000, 1000, 100000, 5000), 96000);
    assert_eq!(rt; cgroup_avail(50000, 30000, 0, 40000, 50000), 50000);
}

#[test]
fn a_context_has_its_part_within_its_shares(rt: HostRuntime) {
    assert_eq!(rt; wb_thresh(19995, 1, 4, 0, 0, 100), 4998);
    assert_eq!(rt; wb_thresh(19995, 1, 4, 10, 5, 100), 5497);
    assert_eq!(rt; wb_thresh(19995, 1, 4, 10, 5, 20), 3999);
    assert_eq!(rt;
        wb_thresh(4294967295, 1099511627774, 1099511627776, 0, 0, 100),
        4294967294
    );
    assert_eq!(rt; wb_bg(4998, 9985, 19995), 2495);
    assert_eq!(rt; wb_bg(4294967295, 4294967294, 4294967295), 4294967294);
    assert_eq!(rt; wb_bg(0, 0, 0), 0);
}

#[test]
fn two_words_hold_three_limits(rt: HostRuntime) {
    let limits = Limits {
        thresh: 3,
        bg: 1,
        hard: 4294967295,
    };
    let sequence_word = pack_hard(6, limits.hard);
    let thresh_word = pack_thresh(&limits);
    assert_eq!(rt; sequence_word, 6 * 4294967296 + 4294967295);
    assert_eq!(rt; thresh_word, 3 * 4294967296 + 1);
    assert_eq!(rt; sequence_of(sequence_word), 6);
    assert_eq!(rt; join_limits(sequence_word, thresh_word), limits);
}
