//! A sink over a writer, as standard output.

ghost use Rattle.std.specs.Prelude.{◌≡◌, ◌≤◌, ◌<◌, length, take, None, IfOk, OnOk, OnErr};
ghost use Rattle.std.specs.Io.KnownBytes.{Appends};
ghost use Rattle.wbt_io.specs.Counting.{Counting};
ghost use Rattle.wbt_io.specs.Faults.{HasRisen, one_more};

use crate::{Failed, Sink};
use std::io::Write;
use std::marker::Model;

/// A writer as a sink, which tells nothing of the bytes. Contracts see it as the writer with its count of faults.
///
/// The writer is to hold no bytes back, since what a late flush loses isn't counted.
#[derive(Drop)]
pub struct StdSink<W: Write> {
    writer: W,
    faults: u64,
}

impl<W: Write> Model for StdSink<W> {
    ghost Value = { Counting W };

    ghost view = { λ s. record {
      inner = s.writer;
      faults = s.faults;
    } };
}

impl<W: Write> StdSink<W> {
    /// A sink over the writer, with no fault counted.
    pub fn make(writer: W) -> StdSink<W>
        ensures { result ≡ record { inner = writer; faults = 0 } }
    {
        StdSink { writer, faults: 0 }
    }

    /// The count of faults.
    pub fn fault_count(&self) -> u64
        ensures { result ≡ self.now.faults }
    {
        self.faults
    }
}

impl<W: Write> Sink for StdSink<W> {
    ghost held = { λ _. None };

    ghost faults = { λ s. s.faults };

    /// Each failed write is a fault, also one that takes nothing of a piece that isn't empty.
    fn write(&mut self, piece: &[u8]) -> Result<usize, Failed>
        // It hands the writer the piece's first bytes, where the writer says what it holds.
        ensures within { IfOk result (λ count. count ≤ length piece.now) }
        ensures progress { IfOk result (λ count. 0 < length piece.now → 0 < count) }
        ensures writes { IfOk result (λ count. Appends (W.contents self.old.inner) (W.contents self.new.inner) (take count piece.now)) }
        ensures counted { OnErr result (self.new.faults ≡ one_more self.old.faults) }
        ensures not_counted { OnOk result (self.new.faults ≡ self.old.faults) }

        // As every sink: the count never falls, and a call fails only where it rose.
        ensures later { self.old.faults ≤ self.new.faults }
        ensures cause { OnErr result (HasRisen self.old.faults self.new.faults) }
    {
        match self.writer.write(piece) {
            Ok(count) if count > 0 || piece.is_empty() => Ok(count),
            _ => {
                self.faults = self.faults.saturating_add(1);
                Err(Failed)
            }
        }
    }
}
