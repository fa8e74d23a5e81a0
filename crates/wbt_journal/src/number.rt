//! The digits of a number, which are put down in front of a place from the last to the first.

ghost use Rattle.std.specs.Prelude.{◌≡◌, ◌+◌, ◌≤◌, ◌++◌, length, drop};
ghost use Rattle.std.specs.Fmt.{decimal, signed_decimal};

use crate::digits::ROOM;
use crate::room::put_byte;

/// Puts a number in front of a place, after a sign where it is below zero, and answers where its text begins. Most numbers have 64
/// bits, and divisions of more are slow.
pub fn put_number(number: i128, end: usize, room: &mut [u8]) -> usize
    requires long { ROOM ≤ end }
    requires within { end ≤ length room.old }
    ensures before { result ≤ end }
    ensures place { end ≤ result + ROOM }
    ensures text { drop result room.new ≡ signed_decimal number ++ drop end room.old }
{
    if 0 <= number && number <= u64::MAX as i128 {
        put_short(number as u64, end, room)
    } else {
        put_wide_signed(number, end, room)
    }
}

fn put_wide_signed(number: i128, end: usize, room: &mut [u8]) -> usize
    requires long { ROOM ≤ end }
    requires within { end ≤ length room.old }
    ensures before { result ≤ end }
    ensures place { end ≤ result + ROOM }
    ensures text { drop result room.new ≡ signed_decimal number ++ drop end room.old }
{
    let first = put_wide(number.unsigned_abs(), end, room);
    if number >= 0 {
        return first;
    }
    put_byte(b'-', first, room)
}

// Puts the digits of a number of up to 128 bits. Divisions of more than 64 bits are made only where what is left needs them.
fn put_wide(number: u128, end: usize, room: &mut [u8]) -> usize
    requires long { 39 ≤ end }
    requires within { end ≤ length room.old }
    ensures before { result ≤ end }
    ensures place { end ≤ result + 39 }
    ensures text { drop result room.new ≡ decimal number ++ drop end room.old }
{
    let mut left = number;
    let mut at = end;
    while left > u64::MAX as u128 {
        at -= 1;
        room[at] = b'0' + (left % 10) as u8;
        left /= 10;
    }
    put_before(left as u64, at, room)
}

/// Puts the digits of a number of 64 bits in front of a place, and answers where they begin.
pub fn put_short(number: u64, end: usize, room: &mut [u8]) -> usize
    requires long { 20 ≤ end }
    requires within { end ≤ length room.old }
    ensures before { result ≤ end }
    ensures place { end ≤ result + 20 }
    ensures text { drop result room.new ≡ decimal number ++ drop end room.old }
{
    put_before(number, end, room)
}

fn put_before(number: u64, end: usize, room: &mut [u8]) -> usize
    requires long { length (decimal number) ≤ end }
    requires within { end ≤ length room.old }
    ensures place { result + length (decimal number) ≡ end }
    ensures text { drop result room.new ≡ decimal number ++ drop end room.old }
{
    let mut left = number;
    let mut at = end;
    while left >= 10 {
        at -= 1;
        room[at] = b'0' + (left % 10) as u8;
        left /= 10;
    }
    room[at - 1] = b'0' + left as u8;
    at - 1
}
