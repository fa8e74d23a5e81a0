//! The numbers of a line at its place.

ghost use Rattle.std.specs.Prelude.{◌≡◌, ℕ, List, IfSome, IfNone, IfOk};
ghost use Rattle.wbt_law.specs.Rows.{IsRow};

use crate::place::{Place, word_at};
use std::alloc::Global;
use wbt_num::NoMemory;
use wbt_text::{cut, numbers};

/// The numbers of the line, given without its line feed; none where it doesn't stand at this place, or is misspelled.
pub fn row(alloc: Global, place: Place, text: &[u8]) -> Result<Option<Vec<u64>>, NoMemory>
    ensures found { IfOk result (λ read. IfSome read (λ ns. IsRow place text.now ns.items)) }
    ensures none { IfOk result (λ read. IfNone read ((ns : List ℕ) → IsRow place text.now ns → ⊥)) }
{
    match cut(text, b' ') {
        None => Ok(None),
        Some((word, rest)) => {
            if word == word_at(place) {
                numbers(alloc, rest)
            } else {
                Ok(None)
            }
        }
    }
}
