//! Numbers in decimal.

use std::alloc::{AllocError, Global};
use std::test::Fail;
use wbt_journal::digits::{ROOM, put_signed};

static NUMBERS: [(i128, &[u8]); 11] = [
    (0, b"0"),
    (9, b"9"),
    (10, b"10"),
    (99, b"99"),
    (2097152, b"2097152"),
    (18446744073709551615, b"18446744073709551615"),
    (18446744073709551616, b"18446744073709551616"),
    (i128::MAX, b"170141183460469231731687303715884105727"),
    (-1, b"-1"),
    (-10, b"-10"),
    (i128::MIN, b"-170141183460469231731687303715884105728"),
];

// A number as it is put at the end of a room.
fn decimal(alloc: Global, number: i128) -> Result<Vec<u8>, AllocError> {
    let mut room = [b'x'; ROOM];
    let first = put_signed(number, &mut room);
    room[first..].to_vec(alloc)
}

#[test]
fn numbers_are_put_at_the_end(rt: HostRuntime) -> Result<(), Fail> {
    for (number, text) in NUMBERS.iter() {
        let found = decimal(rt.alloc(), *number)?;
        assert_eq!(rt; found.as_slice(), *text);
    }
    Ok(())
}
