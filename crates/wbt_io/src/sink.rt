//! Where bytes go, and how a whole text is written.

ghost use Rattle.std.specs.Prelude.{◌≡◌, ℕ, ◌≤◌, ◌<◌, List, length, take, Option, IfOk, OnOk, OnErr, IsOk};
ghost use Rattle.std.specs.Io.KnownBytes.{append_known};
ghost use Rattle.wbt_io.specs.Faults.{HasRisen};
ghost use Rattle.wbt_io.specs.Told.{GainsPart};

use crate::Failed;

/// Where bytes go.
///
/// A sink counts its faults in a u64, which never falls and which stays at its last value. It may tell which bytes it
/// holds; it tells them after a call exactly where it told them before.
pub trait Sink {
    /// The bytes that the sink holds, where it tells them.
    ghost held: { Self → Option (List ℕ) };

    /// The count of faults.
    ghost faults: { Self → ℕ };

    /// Takes the first bytes of a piece, and answers how many: at least one of a piece that isn't empty.
    fn write(&mut self, piece: &[u8]) -> Result<usize, Failed>
        ensures within { IfOk result (λ count. count ≤ length piece.now) }
        ensures progress { IfOk result (λ count. 0 < length piece.now → 0 < count) }
        ensures takes { IfOk result (λ count. held self.new ≡ append_known (held self.old) (take count piece.now)) }
        ensures err { OnErr result (held self.new ≡ held self.old) }

        // The count of faults never falls, and a call fails only where it rose.
        ensures later { faults self.old ≤ faults self.new }
        ensures cause { OnErr result (HasRisen (faults self.old) (faults self.new)) };
}

/// Writes all the bytes, in as many calls of `write` as it takes. It stops at the sink's first fault, and takes no memory.
pub fn write_all<K: Sink>(sink: &mut K, bytes: &[u8]) -> Result<(), Failed>
    ensures ok { OnOk result (K.held sink.new ≡ append_known (K.held sink.old) bytes.now) }
    ensures err { OnErr result (GainsPart (K.held sink.old) (K.held sink.new) bytes.now) }

    // The count of faults never falls. The call fails only where it rose: where no fault was counted, all is written.
    ensures later { K.faults sink.old ≤ K.faults sink.new }
    ensures cause { OnErr result (HasRisen (K.faults sink.old) (K.faults sink.new)) }
    ensures faultless { ¬ HasRisen (K.faults sink.old) (K.faults sink.new) → IsOk result }
{
    let mut done = 0usize;
    'pieces: while done < bytes.len() {
        let count = sink.write(&bytes[done..])?;
        done += count;
    }
    Ok(())
}
