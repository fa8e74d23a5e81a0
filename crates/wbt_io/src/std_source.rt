//! A source over a reader, as standard input.

ghost use Rattle.std.specs.Prelude.{◌≡◌, ◌≤◌, length, None, IfOk, OnOk, OnErr};
ghost use Rattle.std.specs.Io.KnownBytes.{ReadConsumes};
ghost use Rattle.wbt_io.specs.Counting.{Counting};
ghost use Rattle.wbt_io.specs.Faults.{HasRisen, one_more};

use crate::{Failed, Source};
use std::io::Read;
use std::marker::Model;

/// A reader as a source, which tells nothing of the bytes. Contracts see it as the reader with its count of faults.
#[derive(Drop)]
pub struct StdSource<R: Read> {
    reader: R,
    faults: u64,
}

impl<R: Read> Model for StdSource<R> {
    ghost Value = { Counting R };

    ghost view = { λ s. record {
      inner = s.reader;
      faults = s.faults;
    } };
}

impl<R: Read> StdSource<R> {
    /// A source over the reader, with no fault counted.
    pub fn make(reader: R) -> StdSource<R>
        ensures { result ≡ record { inner = reader; faults = 0 } }
    {
        StdSource { reader, faults: 0 }
    }

    /// The count of faults.
    pub fn fault_count(&self) -> u64
        ensures { result ≡ self.now.faults }
    {
        self.faults
    }
}

impl<R: Read> Source for StdSource<R> {
    ghost left = { λ _. None };

    ghost faults = { λ s. s.faults };

    /// Each failed read is a fault.
    fn read(&mut self, buf: &mut [u8]) -> Result<usize, Failed>
        // It takes just what the reader gave, where the reader says what it has left.
        ensures within { IfOk result (λ count. count ≤ length buf.new) }
        ensures reads { ReadConsumes (R.remaining self.old.inner) (R.remaining self.new.inner) result buf.new }
        ensures counted { OnErr result (self.new.faults ≡ one_more self.old.faults) }
        ensures not_counted { OnOk result (self.new.faults ≡ self.old.faults) }

        // As every source: the count never falls, and a call fails only where it rose.
        ensures later { self.old.faults ≤ self.new.faults }
        ensures cause { OnErr result (HasRisen self.old.faults self.new.faults) }
    {
        match self.reader.read(buf) {
            Ok(count) => Ok(count),
            Err(_) => {
                self.faults = self.faults.saturating_add(1);
                Err(Failed)
            }
        }
    }
}
