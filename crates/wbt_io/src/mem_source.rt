//! A source in memory, which fails at the calls that it is told.

ghost use Rattle.std.specs.Prelude.{◌≡◌, ◌≤◌, ◌+◌, ◌<◌, ◌↔◌, ◌++◌, [], length, take, drop, min, Some, IfOk, OnOk, OnErr, IsErr, Contains, vec_len};
ghost use Rattle.std.specs.Io.KnownBytes.{prepend_known, IsAtEnd};
ghost use Rattle.wbt_io.specs.Faults.{HasRisen, one_more};
ghost use Rattle.wbt_io.specs.Memory.{SourceInMemory};

use crate::calls::Calls;
use crate::{Failed, Source};
use std::marker::Model;

/// Bytes in memory. Contracts see it as a `SourceInMemory`.
#[derive(Drop)]
pub struct MemSource {
    bytes: Vec<u8>,
    at: usize,
    most: usize,
    calls: Calls,
}

impl Model for MemSource {
    ghost Value = { SourceInMemory };

    ghost view = { λ s. record {
      left = drop s.at s.bytes.items;
      most = s.most;
      fails = s.calls.fails.items;
      calls = s.calls.made;
      faults = s.calls.faults;
    } };

    ghost invariant = { λ s. (s.at ≤ vec_len s.bytes) × (1 ≤ s.most) };
}

impl MemSource {
    /// A source that gives the bytes, at most `most` of them in a call. The calls whose numbers, counted from 1, stand in
    /// `fails` answer Failed.
    pub fn make(bytes: Vec<u8>, most: usize, fails: Vec<u64>) -> MemSource
        requires { 1 ≤ most }
        ensures { result ≡ record { left = bytes.items; most = most; fails = fails.items; calls = 0; faults = 0 } }
    {
        MemSource {
            bytes,
            at: 0,
            most,
            calls: Calls::make(fails),
        }
    }

    /// The count of faults.
    pub fn fault_count(&self) -> u64
        ensures { result ≡ self.now.faults }
    {
        self.calls.faults
    }
}

impl Source for MemSource {
    ghost left = { λ s. Some s.left };

    ghost faults = { λ s. s.faults };

    fn read(&mut self, buf: &mut [u8]) -> Result<usize, Failed>
        // As every source.
        ensures within { IfOk result (λ count. count ≤ length buf.new) }
        ensures gives { IfOk result (λ count. self.old.left ≡ take count buf.new ++ self.new.left) }
        ensures end { IfOk result (λ count. count ≡ 0 → 0 < length buf.new → self.new.left ≡ []) }
        ensures err { OnErr result (self.new.left ≡ self.old.left) }
        ensures later { self.old.faults ≤ self.new.faults }
        ensures cause { OnErr result (HasRisen self.old.faults self.new.faults) }

        // It fails at just the calls that it was told, and each failure is a fault counted.
        ensures fails { IsErr result ↔ Contains self.old.fails (self.old.calls + 1) }
        ensures counted { OnErr result (self.new.faults ≡ one_more self.old.faults) }
        ensures not_counted { OnOk result (self.new.faults ≡ self.old.faults) }
        ensures called { self.new.calls ≡ one_more self.old.calls }

        // It gives as many of the bytes left as one call may and the buffer takes.
        ensures count { IfOk result (λ count. count ≡ min (min (length self.old.left) self.old.most) (length buf.new)) }

        ensures most { self.new.most ≡ self.old.most }
        ensures fails_stay { self.new.fails ≡ self.old.fails }
    {
        if self.calls.begin() {
            self.calls.count_fault();
            return Err(Failed);
        }
        let rest = self.bytes.len() - self.at;
        let count = rest.min(self.most).min(buf.len());
        buf[..count].copy_from_slice(&self.bytes[self.at..self.at + count]);
        self.at += count;
        Ok(count)
    }
}
