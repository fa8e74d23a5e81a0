//! A sink in memory, which has a room and fails at the calls that it is told.

ghost use Rattle.std.specs.Prelude.{◌≡◌, ◌≤◌, ◌+◌, ◌-◌, ◌<◌, ◌↔◌, ◌++◌, ◌⊎◌, [], length, take, min, Some, IfOk, OnOk, OnErr, IsErr, Contains, vec_len, vec_capacity};
ghost use Rattle.wbt_io.specs.Faults.{HasRisen, one_more};
ghost use Rattle.wbt_io.specs.Memory.{SinkInMemory};

use crate::calls::Calls;
use crate::{Failed, NoMemory, Sink};
use std::alloc::Global;
use std::marker::Model;

/// Room for bytes in memory. Contracts see it as a `SinkInMemory`.
#[derive(Drop)]
pub struct MemSink {
    bytes: Vec<u8>,
    room: usize,
    most: usize,
    calls: Calls,
}

impl Model for MemSink {
    ghost Value = { SinkInMemory };

    ghost view = { λ s. record {
      held = s.bytes.items;
      room = s.room;
      most = s.most;
      fails = s.calls.fails.items;
      calls = s.calls.made;
      faults = s.calls.faults;
    } };

    ghost invariant = { λ s. (s.room ≤ vec_capacity s.bytes) × (vec_len s.bytes ≤ s.room) × (1 ≤ s.most) };
}

impl MemSink {
    /// An empty sink with room for so many bytes, which takes at most `most` of them in a call. The calls whose numbers,
    /// counted from 1, stand in `fails` answer Failed. All memory is taken here, and none later.
    pub fn make(
        alloc: Global,
        room: usize,
        most: usize,
        fails: Vec<u64>,
    ) -> Result<MemSink, NoMemory>
        requires { 1 ≤ most }
        ensures { IfOk result (λ sink. sink ≡ record { held = []; room = room; most = most; fails = fails.items; calls = 0; faults = 0 }) }
    {
        let bytes = Vec::with_capacity(alloc, room)?;
        Ok(MemSink {
            bytes,
            room,
            most,
            calls: Calls::make(fails),
        })
    }

    /// The bytes held.
    pub fn bytes(&self) -> &[u8]
        ensures { result.now ≡ self.now.held }
    {
        self.bytes.as_slice()
    }

    /// The bytes held, as a vector.
    pub fn into_bytes(self) -> Vec<u8>
        ensures { result.items ≡ self.held }
    {
        let MemSink { bytes, .. } = self;
        bytes
    }

    /// The count of faults.
    pub fn fault_count(&self) -> u64
        ensures { result ≡ self.now.faults }
    {
        self.calls.faults
    }
}

impl Sink for MemSink {
    ghost held = { λ s. Some s.held };

    ghost faults = { λ s. s.faults };

    fn write(&mut self, piece: &[u8]) -> Result<usize, Failed>
        // As every sink.
        ensures within { IfOk result (λ count. count ≤ length piece.now) }
        ensures progress { IfOk result (λ count. 0 < length piece.now → 0 < count) }
        ensures takes { IfOk result (λ count. self.new.held ≡ self.old.held ++ take count piece.now) }
        ensures err { OnErr result (self.new.held ≡ self.old.held) }
        ensures later { self.old.faults ≤ self.new.faults }
        ensures cause { OnErr result (HasRisen self.old.faults self.new.faults) }

        // It fails at the calls that it was told, and where a piece that isn't empty finds no room, and nowhere else.
        ensures fails { IsErr result ↔ (Contains self.old.fails (self.old.calls + 1) ⊎ ((0 < length piece.now) × (length self.old.held ≡ self.old.room))) }

        // Each failure is a fault counted.
        ensures counted { OnErr result (self.new.faults ≡ one_more self.old.faults) }
        ensures not_counted { OnOk result (self.new.faults ≡ self.old.faults) }
        ensures called { self.new.calls ≡ one_more self.old.calls }

        // It takes as many of the piece's first bytes as one call may and the room takes.
        ensures count { IfOk result (λ count. count ≡ min (min (length piece.now) self.old.most) (self.old.room - length self.old.held)) }

        ensures room { self.new.room ≡ self.old.room }
        ensures most { self.new.most ≡ self.old.most }
        ensures fails_stay { self.new.fails ≡ self.old.fails }
    {
        if self.calls.begin() {
            self.calls.count_fault();
            return Err(Failed);
        }
        let free = self.room - self.bytes.len();
        if free == 0 && !piece.is_empty() {
            self.calls.count_fault();
            return Err(Failed);
        }
        let count = piece.len().min(self.most).min(free);
        if self.bytes.extend_from_slice(&piece[..count]).is_err() {
            self.calls.count_fault();
            return Err(Failed);
        }
        Ok(count)
    }
}
