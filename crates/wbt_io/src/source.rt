//! Where bytes come from, and how a whole input is read.

ghost use Rattle.std.specs.Prelude.{◌≡◌, ◌≢◌, ℕ, ◌≤◌, ◌<◌, ◌+◌, ◌⊎◌, List, length, take, vec_len, Option, Err, IfOk, OnOk, OnErr, IsErrOf, IfSome};
ghost use Rattle.std.specs.Io.KnownBytes.{prepend_known, IsAtEnd};
ghost use Rattle.wbt_io.specs.Faults.{HasRisen};
ghost use Rattle.wbt_io.specs.Told.{Loses, LosesAtMost};

use crate::Failed;
use std::alloc::Global;

/// Where bytes come from.
///
/// A source counts its faults in a u64, which never falls and which stays at its last value. It may tell which bytes are
/// left; it tells them after a call exactly where it told them before.
pub trait Source {
    /// The bytes that are left, where the source tells them.
    ghost left: { Self → Option (List ℕ) };

    /// The count of faults.
    ghost faults: { Self → ℕ };

    /// Puts the next bytes at the front of the buffer, and answers how many. The answer 0 for a buffer that isn't empty
    /// is the end of the input.
    fn read(&mut self, buf: &mut [u8]) -> Result<usize, Failed>
        ensures within { IfOk result (λ count. count ≤ length buf.new) }
        ensures gives { IfOk result (λ count. left self.old ≡ prepend_known (take count buf.new) (left self.new)) }
        ensures end { IfOk result (λ count. count ≡ 0 → 0 < length buf.new → IsAtEnd (left self.new)) }
        ensures err { OnErr result (left self.new ≡ left self.old) }

        // The count of faults never falls, and a call fails only where it rose.
        ensures later { faults self.old ≤ faults self.new }
        ensures cause { OnErr result (HasRisen (faults self.old) (faults self.new)) };
}

/// Why an input wasn't read to its end.
#[derive(Clone, Copy, Debug, PartialEq, Eq)]
pub enum ReadEnd {
    /// The source failed.
    ReadFault,
    /// The source gave more bytes than were allowed.
    TooLong,
    /// There was no memory for the bytes.
    NoMemory,
}

// The most bytes that are asked for in one call of `read`.
const PIECE: usize = 65536;

// How many bytes to ask for next, where so many more may come: a piece, but no more than one byte too many.
fn next_piece(room: u64) -> usize
    ensures some { 1 ≤ result }
    ensures within { result ≤ PIECE }
    ensures one_too_many { result ≤ room + 1 }
{
    if room < PIECE as u64 {
        room as usize + 1
    } else {
        PIECE
    }
}

/// Reads to the end of the input, which may have at most `most` bytes, and answers all its bytes.
///
/// It stops at the source's first fault, at its first 0, and at the first byte that is too many. Want of memory may end
/// it at any time.
pub fn read_all<S: Source>(alloc: Global, source: &mut S, most: u64) -> Result<Vec<u8>, ReadEnd>
    // All that was left was read, it isn't too long, and nothing is left.
    ensures all { IfOk result (λ bytes. IfSome (S.left source.old) (λ left. bytes.items ≡ left)) }
    ensures within { IfOk result (λ bytes. vec_len bytes ≤ most) }
    ensures end { OnOk result (IsAtEnd (S.left source.new)) }

    // The source has lost bytes at its front, and no others: just one too many at TooLong, and no byte too many at any
    // other answer.
    ensures taken { ¬ IsErrOf result ReadEnd.TooLong → LosesAtMost most (S.left source.old) (S.left source.new) }
    ensures one_too_many { IsErrOf result ReadEnd.TooLong → Loses (most + 1) (S.left source.old) (S.left source.new) }

    // TooLong is answered only where there were too many bytes, and there always, unless a fault was counted or memory
    // ran out.
    ensures too_long { IsErrOf result ReadEnd.TooLong → IfSome (S.left source.old) (λ left. most < length left) }
    ensures not_missed { ¬ HasRisen (S.faults source.old) (S.faults source.new) → IfSome (S.left source.old) (λ left. most < length left → IsErrOf result ReadEnd.TooLong ⊎ IsErrOf result ReadEnd.NoMemory) }

    // The count of faults never falls. A fault is answered only where it rose: where none was counted, the answer is
    // Ok, TooLong or NoMemory.
    ensures later { S.faults source.old ≤ S.faults source.new }
    ensures cause { IsErrOf result ReadEnd.ReadFault → HasRisen (S.faults source.old) (S.faults source.new) }
    ensures faultless { ¬ HasRisen (S.faults source.old) (S.faults source.new) → result ≢ Err ReadEnd.ReadFault }
{
    let mut bytes = Vec::new(alloc);
    let mut piece = [0u8; PIECE];
    'pieces: loop {
        let room = most - bytes.len() as u64;
        let asked = next_piece(room);
        let Ok(count) = source.read(&mut piece[..asked]) else {
            return Err(ReadEnd::ReadFault);
        };
        if count == 0 {
            return Ok(bytes);
        }
        if count as u64 > room {
            return Err(ReadEnd::TooLong);
        }
        if bytes.extend_from_slice(&piece[..count]).is_err() {
            return Err(ReadEnd::NoMemory);
        }
    }
}
