//! Text on its way to a sink.

ghost use Rattle.std.specs.Prelude.{◌≡◌, ◌≤◌, [], ◌∷◌, ◌++◌, length, ◌+◌, false, if◌then◌else◌, IfOk};
ghost use Rattle.wbt_journal.specs.Way.{Collected, Puts, way};

use std::alloc::{AllocError, Global};
use std::marker::Model;
use wbt_io::{Sink, write_all};

/// Bytes that go to the sink at once, but for the last ones.
const PIECE: usize = 65536;

/// Text on its way to a sink. It is collected in a piece, which goes to the sink when it is full. All memory is taken when
/// this is made, and after the sink's first fault nothing more is written.
#[derive(Drop)]
pub struct Out {
    piece: Vec<u8>,
    failed: bool,
}

impl Model for Out {
    ghost use Rattle.std.specs.Prelude.{◌≤◌, vec_len, vec_capacity};
    ghost use Rattle.wbt_journal.specs.Way.{Collected};
    ghost use Rattle.wbt_journal.specs.declared.out.TheConstants.{PIECE};

    ghost Value = { Collected };

    ghost view = { λ s. record { piece = s.piece.items; failed = s.failed } };

    ghost invariant = { λ s. (PIECE ≤ vec_capacity s.piece) × (vec_len s.piece ≤ PIECE) };
}

impl Out {
    /// Nothing yet.
    pub fn make(alloc: Global) -> Result<Out, AllocError>
        ensures { IfOk result (λ out. out ≡ record { piece = []; failed = false }) }
    {
        let piece = Vec::with_capacity(alloc, PIECE)?;
        Ok(Out {
            piece,
            failed: false,
        })
    }

    /// Whether the sink has failed.
    pub fn has_failed(&self) -> bool
        ensures { result ≡ self.now.failed }
    {
        self.failed
    }

    /// Sends what is collected.
    pub fn send<K: Sink>(&mut self, sink: &mut K)
        ensures puts { Puts [] (way (K.held sink.old) (K.faults sink.old) self.old) (way (K.held sink.new) (K.faults sink.new) self.new) }
        ensures gone { self.new.failed ≡ false → self.new.piece ≡ [] }
    {
        if self.failed {
            return;
        }
        if write_all(sink, self.piece.as_slice()).is_err() {
            self.failed = true;
            return;
        }
        self.piece.clear();
    }

    // Sends what is collected where there is no room for so many bytes after it.
    fn make_room<K: Sink>(&mut self, sink: &mut K, count: usize)
        requires { count ≤ PIECE }
        ensures puts { Puts [] (way (K.held sink.old) (K.faults sink.old) self.old) (way (K.held sink.new) (K.faults sink.new) self.new) }
        ensures room { self.new.failed ≡ false → length self.new.piece + count ≤ PIECE }
    {
        if PIECE - self.piece.len() < count {
            self.send(sink);
        }
    }

    // Collects bytes that there is room for.
    fn collect(&mut self, bytes: &[u8])
        requires { self.old.failed ≡ false → length self.old.piece + length bytes.now ≤ PIECE }
        ensures { self.new ≡ record { piece = (if self.old.failed then self.old.piece else self.old.piece ++ bytes.now); failed = self.old.failed } }
    {
        if self.failed {
            return;
        }
        if self.piece.extend_from_slice(bytes).is_err() {
            unreachable!();
        }
    }

    /// Puts a few bytes after what is collected.
    pub fn put<K: Sink>(&mut self, sink: &mut K, bytes: &[u8])
        requires { length bytes.now ≤ PIECE }
        ensures { Puts bytes.now (way (K.held sink.old) (K.faults sink.old) self.old) (way (K.held sink.new) (K.faults sink.new) self.new) }
    {
        self.make_room(sink, bytes.len());
        self.collect(bytes);
    }

    /// Puts bytes after what is collected, as many as there are.
    pub fn put_all<K: Sink>(&mut self, sink: &mut K, bytes: &[u8])
        ensures { Puts bytes.now (way (K.held sink.old) (K.faults sink.old) self.old) (way (K.held sink.new) (K.faults sink.new) self.new) }
    {
        let mut rest = bytes;
        while rest.len() > PIECE {
            let (piece, more) = rest.split_at(PIECE);
            self.put(sink, piece);
            rest = more;
        }
        self.put(sink, rest);
    }
}
