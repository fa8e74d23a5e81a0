//! The longest pause, the least one, and the pages between polls.

use wbt_pause::{MinPause, max_pause, min_pause, poll_interval};

#[test]
fn pauses_at_most_200_ticks(rt: HostRuntime) {
    assert_eq!(rt; max_pause(1000, 25600), 5);
    assert_eq!(rt; max_pause(100000, 25600), 200);
}

#[test]
fn pauses_at_least_half_of_the_aim(rt: HostRuntime) {
    assert_eq!(rt;
        min_pause(200, 25600, 25600, 25600),
        MinPause {
            pages: 250,
            pause: 6
        }
    );
}

#[test]
fn polls_at_the_square_root_of_what_is_free(rt: HostRuntime) {
    assert_eq!(rt; poll_interval(19995, 0), 128);
    assert_eq!(rt; poll_interval(19995, 19994), 1);
    assert_eq!(rt; poll_interval(10, 20), 1);
}
