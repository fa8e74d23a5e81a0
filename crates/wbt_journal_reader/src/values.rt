//! What a field tells, of those that its line may have at its place.

ghost use Rattle.std.specs.Prelude.{◌≡◌};
ghost use Rattle.wbt_journal_reader.specs.RowOf as spec;

use wbt_counter::Counter;
use wbt_journal::{Ending, Field, Word};
use wbt_pause::Kind;

/// The number of a thing, or of a batch's pages.
pub fn small_of(field: Field) -> Option<u32>
    ensures { result ≡ spec.small_of field }
{
    match field {
        Field::Int(n) => {
            if n < 0 || n > u32::MAX as i128 {
                None
            } else {
                Some(n as u32)
            }
        }
        _ => None,
    }
}

/// A number of pages, of ticks, a version.
pub fn big_of(field: Field) -> Option<u64>
    ensures { result ≡ spec.big_of field }
{
    match field {
        Field::Int(n) => {
            if n < 0 || n > u64::MAX as i128 {
                None
            } else {
                Some(n as u64)
            }
        }
        _ => None,
    }
}

/// A number of pages that may be below zero.
pub fn signed_of(field: Field) -> Option<i64>
    ensures { result ≡ spec.signed_of field }
{
    match field {
        Field::Int(n) => {
            if n < i64::MIN as i128 || n > i64::MAX as i128 {
                None
            } else {
                Some(n as i64)
            }
        }
        _ => None,
    }
}

/// A counter.
pub fn counter_of(field: Field) -> Option<Counter>
    ensures { result ≡ spec.counter_of field }
{
    match field {
        Field::Domain(domain) => Some(Counter::Domain(domain)),
        Field::Context(context) => Some(Counter::Context(context)),
        _ => None,
    }
}

/// Whether a page was clean before a write.
pub fn fresh_of(field: Field) -> Option<bool>
    ensures { result ≡ spec.fresh_of field }
{
    match field {
        Field::Name(Word::Fresh) => Some(true),
        Field::Name(Word::Already) => Some(false),
        _ => None,
    }
}

/// What a check decided.
pub fn kind_of(field: Field) -> Option<Kind>
    ensures { result ≡ spec.kind_of field }
{
    match field {
        Field::Name(Word::Free) => Some(Kind::Free),
        Field::Name(Word::Go) => Some(Kind::Go),
        Field::Name(Word::Exempt) => Some(Kind::Exempt),
        Field::Name(Word::Wait) => Some(Kind::Wait),
        _ => None,
    }
}

/// Whether a page that was given back was absorbed.
pub fn absorbed_of(field: Field) -> Option<bool>
    ensures { result ≡ spec.absorbed_of field }
{
    match field {
        Field::Name(Word::Absorbed) => Some(true),
        Field::Name(Word::Dirty) => Some(false),
        _ => None,
    }
}

/// The word of a page that is left: bit 0 is dirty, bit 1 is under writeback.
pub fn bits_of(field: Field) -> Option<u64>
    ensures { result ≡ spec.bits_of field }
{
    match field {
        Field::Name(Word::Dirty) => Some(1),
        Field::Name(Word::Writeback) => Some(2),
        Field::Name(Word::Both) => Some(3),
        _ => None,
    }
}

/// How a run ended.
pub fn ending_of(field: Field) -> Option<Ending>
    ensures { result ≡ spec.ending_of field }
{
    match field {
        Field::Name(Word::Done) => Some(Ending::Done),
        Field::Name(Word::Halted) => Some(Ending::Halted),
        Field::Name(Word::Spent) => Some(Ending::Spent),
        Field::Name(Word::Faulted) => Some(Ending::Faulted),
        _ => None,
    }
}
