//! The fields of a line: its bytes between spaces.

ghost use Rattle.std.specs.Prelude.{◌≡◌, ℕ, ◌<◌, ◌^◌, ◌∷◌, List, suc, IfSome, IfNone, IfOk};
ghost use Rattle.std.specs.Fmt.{decimal};
ghost use Rattle.wbt_journal_reader.specs.Fields.{IsField, AreFields};
ghost use Rattle.wbt_journal.specs.declared.field.Field.{Field as FieldValue};

use crate::number::number;
use crate::word::word_of;
use std::alloc::Global;
use wbt_journal::Field;
use wbt_num::NoMemory;
use wbt_text::cut;

/// How far below zero a number may be.
const MOST_BELOW: u64 = 1 << 63;

/// The field of this text.
fn field_of(text: &[u8]) -> Option<Field>
    ensures found { IfSome result (λ field. IsField text.now field) }
    ensures none { IfNone result ((field : FieldValue) → IsField text.now field → ⊥) }
{
    if let Some(n) = number(text) {
        return Some(Field::Int(i128::from(n)));
    }
    if let Some(word) = word_of(text) {
        return Some(Field::Name(word));
    }
    match text {
        [b'-', digits @ ..] => below_zero(digits),
        [b'd', digits @ ..] => Some(Field::Domain(name_of(digits)?)),
        [b'c', digits @ ..] => Some(Field::Context(name_of(digits)?)),
        _ => None,
    }
}

// The number that is so far below zero.
fn below_zero(digits: &[u8]) -> Option<Field>
    ensures found { IfSome result (λ field. IsField (45 ∷ digits.now) field) }
    ensures none { IfNone result ((n : ℕ) → n < 2 ^ 63 → digits.now ≡ decimal (suc n) → ⊥) }
{
    match number(digits) {
        None => None,
        Some(n) => {
            if n == 0 {
                return None;
            }
            if n > MOST_BELOW {
                return None;
            }
            Some(Field::Int(-i128::from(n)))
        }
    }
}

// The number of a counter's name.
fn name_of(digits: &[u8]) -> Option<u32>
    ensures found { IfSome result (λ n. (n < 2 ^ 32) × (digits.now ≡ decimal n)) }
    ensures none { IfNone result ((n : ℕ) → n < 2 ^ 32 → digits.now ≡ decimal n → ⊥) }
{
    match number(digits) {
        None => None,
        Some(n) => {
            if n > u64::from(u32::MAX) {
                None
            } else {
                Some(n as u32)
            }
        }
    }
}

/// Fields with one space between two of them. There is one at least.
pub fn fields_of(alloc: Global, text: &[u8]) -> Result<Option<Vec<Field>>, NoMemory>
    ensures found { IfOk result (λ read. IfSome read (λ fields. AreFields text.now fields.items)) }
    ensures none { IfOk result (λ read. IfNone read ((fields : List FieldValue) → AreFields text.now fields → ⊥)) }
{
    let mut found = Vec::new(alloc);
    let mut rest = text;
    'fields: loop {
        match cut(rest, b' ') {
            None => match field_of(rest) {
                None => return Ok(None),
                Some(field) => {
                    found.push(field)?;
                    return Ok(Some(found));
                }
            },
            Some((first, more)) => match field_of(first) {
                None => return Ok(None),
                Some(field) => {
                    found.push(field)?;
                    rest = more;
                }
            },
        }
    }
}
