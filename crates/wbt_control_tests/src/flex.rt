//! Parts that are halved with each period, fractions, and batches up to the greatest share.

ghost use Rattle.std.specs.Prelude.{◌≡◌};

use wbt_flex::{Fraction, Half, age, fraction, may_add, new_period};

fn half(period: u64, events: u64) -> Half
    ensures period_is { result.period ≡ period }
    ensures events_are { result.events ≡ events }
{
    Half { period, events }
}

#[test]
fn a_part_is_halved_once_a_period(rt: HostRuntime) {
    assert_eq!(rt; age(half(0, 10), 0), half(0, 10));
    assert_eq!(rt; age(half(0, 10), 1), half(1, 5));
    assert_eq!(rt; age(half(3, 10), 5), half(5, 2));
    assert_eq!(rt; age(half(0, 1 << 63), 63), half(63, 1));
}

#[test]
fn nothing_is_left_of_64_periods_ago(rt: HostRuntime) {
    assert_eq!(rt; age(half(0, u64::MAX), 63), half(63, 1));
    assert_eq!(rt; age(half(0, u64::MAX), 64), half(64, 0));
    assert_eq!(rt; age(half(1, u64::MAX), u64::MAX), half(u64::MAX, 0));
}

#[test]
fn a_new_period_halves_the_domain(rt: HostRuntime) {
    assert_eq!(rt; new_period(half(0, 11), 1), Some(half(1, 5)));
    assert_eq!(rt; new_period(half(2, 11), 64), Some(half(66, 0)));
    assert_eq!(rt; new_period(half(16777214, 11), 1), Some(half(16777215, 5)));
}

#[test]
fn no_period_comes_of_nothing_or_after_the_last(rt: HostRuntime) {
    assert_eq!(rt; new_period(half(0, 1), 1), None);
    assert_eq!(rt; new_period(half(0, 0), 1), None);
    assert_eq!(rt; new_period(half(16777214, 11), 2), None);
    assert_eq!(rt; new_period(half(16777216, 11), 1), None);
    assert_eq!(rt; new_period(half(1, 11), u64::MAX), None);
}

fn of(period: u64, num: u64, den: u64) -> Fraction {
    Fraction { period, num, den }
}

#[test]
fn ten_events_and_a_new_period(rt: HostRuntime) {
    assert_eq!(rt; new_period(half(0, 1), 1), None);
    let part = half(0, 10);
    let domain = half(0, 11);
    assert_eq!(rt; fraction(part, domain), of(0, 10, 11));
    assert_eq!(rt; new_period(domain, 1), Some(half(1, 5)));
    assert_eq!(rt; age(part, 1), half(1, 5));
    assert_eq!(rt; fraction(part, half(1, 5)), of(1, 5, 5));
}

#[test]
fn a_fraction_is_of_something(rt: HostRuntime) {
    assert_eq!(rt; fraction(half(0, 0), half(0, 1)), of(0, 0, 1));
    assert_eq!(rt; fraction(half(0, 1 << 39), half(64, 0)), of(64, 0, 1));
    assert_eq!(rt; fraction(half(64, 0), half(64, 0)), of(64, 0, 1));
    assert_eq!(rt; fraction(half(64, 7), half(64, 5)), of(64, 7, 7));
}

#[test]
fn a_batch_is_added_up_to_the_greatest_share(rt: HostRuntime) {
    for (num, den, max_frac, want) in [
        (1, 2, 512, true),
        (1, 2, 511, false),
        (0, 1, 0, true),
        (1, 1, 1024, true),
        (1 << 41, 1 << 41, 1023, false),
    ] {
        let f = Fraction {
            period: 0,
            num,
            den,
        };
        assert_eq!(rt; may_add(&f, max_frac), want, "{num}/{den} at {max_frac}");
    }
}
