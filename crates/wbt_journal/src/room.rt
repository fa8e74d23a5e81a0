//! Text that is put down from its end to its beginning, in a room of fixed size: each part stands in front of the one before.

ghost use Rattle.std.specs.Prelude.{◌≡◌, ◌+◌, ◌≤◌, ◌∷◌, ◌++◌, length, drop};

/// Puts a byte in front of a place, and answers where it stands.
pub fn put_byte(byte: u8, end: usize, room: &mut [u8]) -> usize
    requires some { 1 ≤ end }
    requires within { end ≤ length room.old }
    ensures place { result + 1 ≡ end }
    ensures text { drop result room.new ≡ byte ∷ drop end room.old }
{
    room[end - 1] = byte;
    end - 1
}

/// Puts bytes in front of a place, and answers where they begin.
pub fn put_bytes(bytes: &[u8], end: usize, room: &mut [u8]) -> usize
    requires long { length bytes.now ≤ end }
    requires within { end ≤ length room.old }
    ensures place { result + length bytes.now ≡ end }
    ensures text { drop result room.new ≡ bytes.now ++ drop end room.old }
{
    let first = end - bytes.len();
    room[first..end].copy_from_slice(bytes);
    first
}
