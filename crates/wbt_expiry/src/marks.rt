//! Marks: a bit for each list, that tells whether the list is empty.
//!
//! The lists of a level have their bits in one word, in order. So the first list of a level that isn't empty, from one on and
//! round to the one before it, is found without a walk: the word is turned until that list's bit is the lowest, and then the
//! lowest bit that is set tells how far the list is.

ghost use Rattle.std.specs.Prelude.{◌≡◌, ◌<◌, ◌^◌, ℕ, cond, MatchOption};
ghost use Rattle.wbt_expiry.specs.Lists.{no_list};
ghost use Rattle.wbt_expiry.specs.Marks.{mark, IsMarked, IsFirstMarked, AreUnmarked, IsClear, IsAhead};

use std::marker::Model;

// Words: one for each level, and one for the late list and the loose one.
const WORDS: usize = 5;

/// A mark for each list.
#[derive(Drop)]
pub struct Marks {
    // The bit of list n is bit `n % 64` of word `n / 64`.
    words: [u64; WORDS],
}

impl Model for Marks {
    ghost use Rattle.std.specs.Prelude.{◌≡◌, List, ℕ, length};

    ghost Value = { List ℕ };

    ghost view = { λ marks. marks.words };

    ghost invariant = { λ marks. length marks.words ≡ 5 };
}

impl Marks {
    /// Marks of which none is set.
    pub fn none() -> Marks
        ensures { (list : ℕ) → list < no_list → mark result list ≡ 0 }
    {
        Marks { words: [0; WORDS] }
    }

    /// Sets the mark of a list, or clears it.
    pub fn put(&mut self, list: u32, is_set: bool)
        requires { list < no_list }
        ensures { IsMarked self.old self.new list (cond is_set 1 0) }
    {
        let word = (list / 64) as usize;
        let bit = 1 << (list % 64);
        if is_set {
            self.words[word] |= bit;
        } else {
            self.words[word] &= !bit;
        }
    }

    /// The first place from a start on whose list in a level is marked.
    pub fn first_from(&self, level: u32, start: u64) -> Option<u64>
        requires level { level < 4 }
        requires start { start < 2 ^ 63 }
        ensures { MatchOption result (AreUnmarked self.now level) (IsFirstMarked self.now level start) }
    {
        match bits_ahead(self.words[level as usize], (start % 64) as u32) {
            None => None,
            Some(bits) => Some(start + u64::from(bits)),
        }
    }
}

// How many bits after one the first stands that is set, round the word.
fn bits_ahead(word: u64, from: u32) -> Option<u32>
    requires { from < 64 }
    ensures { MatchOption result (IsClear word) (IsAhead word from) }
{
    let turned = word.rotate_right(from);
    if turned == 0 {
        return None;
    }
    Some(turned.trailing_zeros())
}
