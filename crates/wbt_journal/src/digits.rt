//! A number in a room of its own.

ghost use Rattle.std.specs.Prelude.{◌≡◌, ◌≤◌, drop};
ghost use Rattle.std.specs.Fmt.{signed_decimal};

use crate::number::put_number;

/// Bytes in which each number has room with its sign.
pub const ROOM: usize = 40;

/// Puts a number at the end of the room, after a sign where it is below zero, and answers where its text begins.
pub fn put_signed(number: i128, room: &mut [u8; ROOM]) -> usize
    ensures within { result ≤ ROOM }
    ensures text { drop result room.new ≡ signed_decimal number }
{
    put_number(number, ROOM, room)
}
