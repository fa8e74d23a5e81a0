//! The newest version that a CPU has seen of each thing.

ghost use Rattle.std.specs.Prelude.{◌≡◌, IfOk, length, nat_le, get_or, replicate};
ghost use Rattle.wbt_audit_walk.specs.Newest.{with_seen};

use std::alloc::Global;
use std::marker::Model;
use wbt_num::NoMemory;

/// The newest version of each thing, by its place; 0 where none was seen.
#[derive(Drop)]
pub struct Newest {
    versions: Vec<u64>,
}

impl Model for Newest {
    ghost use Rattle.std.specs.Prelude.{List, ℕ};

    ghost Value = { List ℕ };

    ghost view = { λ newest. newest.versions.items };
}

impl Newest {
    /// Nothing seen of so many things.
    pub fn make(alloc: Global, things: usize) -> Result<Newest, NoMemory>
        ensures { IfOk result (λ newest. newest ≡ replicate things 0) }
    {
        Ok(Newest {
            versions: zeros(alloc, things)?,
        })
    }

    /// A CPU's part begins, which has seen nothing.
    pub fn forget(&mut self)
        ensures { self.new ≡ replicate (length self.old) 0 }
    {
        self.versions.as_mut_slice().fill(0);
    }

    /// Whether a version isn't older than what was seen.
    pub fn allows(&self, place: usize, version: u64) -> bool
        ensures { result ≡ nat_le (get_or self.now place 0) version }
    {
        match self.versions.as_slice().get(place) {
            None => true,
            Some(seen) => *seen <= version,
        }
    }

    /// Sees a version of a thing that there is.
    pub fn see(&mut self, place: usize, version: u64)
        ensures { self.new ≡ with_seen place version self.old }
    {
        if place < self.versions.len() {
            self.versions[place] = self.versions[place].max(version);
        }
    }
}

/// So many zeros.
pub fn zeros(alloc: Global, places: usize) -> Result<Vec<u64>, NoMemory>
    ensures { IfOk result (λ zeros. zeros.items ≡ replicate places 0) }
{
    let zeros = vec![in alloc; 0u64; places]?;
    Ok(zeros)
}
