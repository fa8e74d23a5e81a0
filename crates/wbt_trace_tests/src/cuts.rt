//! Cuts and numbers, as they stand in texts.

use std::alloc::Global;
use std::test::Fail;
use wbt_text::{cut, front_of, numbers};

#[test]
fn a_text_is_cut_at_the_first_such_byte(rt: HostRuntime) {
    let parts = cut(b"ab c d", b' ');
    assert_eq!(rt; parts, Some((b"ab".as_slice(), b"c d".as_slice())));
    let parts = cut(b" x", b' ');
    assert_eq!(rt; parts, Some((b"".as_slice(), b"x".as_slice())));
    assert!(rt; cut(b"abc", b' ').is_none());
}

#[test]
fn a_front_ends_at_the_first_digit(rt: HostRuntime) {
    let (front, rest) = front_of(b"set dirty_ratio 20");
    assert_eq!(rt; front, b"set dirty_ratio ".as_slice());
    assert_eq!(rt; rest, b"20".as_slice());
    let (front, rest) = front_of(b"no number");
    assert_eq!(rt; front, b"no number".as_slice());
    assert_eq!(rt; rest, b"".as_slice());
}

// Whether the text is that of these numbers.
fn is_read(alloc: Global, text: &[u8], expected: &[u64]) -> bool {
    match numbers(alloc, text) {
        Ok(Some(found)) => found.as_slice() == expected,
        _ => false,
    }
}

#[test]
fn numbers_have_one_space_between_two_of_them(rt: HostRuntime) {
    assert!(rt;
        is_read(
            rt.alloc(),
            b"0 7 999999999999999999",
            &[0, 7, 999_999_999_999_999_999]
        )
    );
    for text in [
        b"".as_slice(),
        b" 1",
        b"1 ",
        b"1  2",
        b"01",
        b"1 x",
        b"-1",
        b"1000000000000000000",
    ] {
        assert!(rt; matches!(numbers(rt.alloc(), text), Ok(None)));
    }
}
