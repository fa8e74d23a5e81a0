//! The fields of a line.

ghost use Rattle.std.specs.Prelude.{◌≡◌, ◌<◌, ◌^◌, pos};
ghost use Rattle.wbt_journal.specs.declared.field.Field.TheVariants as field;

use crate::word::Word;

/// A field of a line.
#[derive(Clone, Copy, Debug, PartialEq, Eq)]
pub enum Field {
    /// A word.
    Name(Word),
    /// A number.
    Int(i128),
    /// The name of a domain's counter.
    Domain(u32),
    /// The name of a context's counter.
    Context(u32),
}

/// A number as a field.
pub fn int(n: u64) -> Field
    ensures { result ≡ field.Int (pos n) }
{
    Field::Int(i128::from(n))
}

/// A small number as a field.
pub fn small(n: u32) -> Field
    ensures { result ≡ field.Int (pos n) }
{
    Field::Int(i128::from(n))
}

/// A number that may be below zero as a field.
pub fn signed(n: i64) -> Field
    ensures { result ≡ field.Int n }
{
    Field::Int(i128::from(n))
}

/// A length as a field.
pub fn length_field(n: usize) -> Field
    ensures { result ≡ field.Int (pos n) }
{
    Field::Int(n as i128)
}

/// A sum as a field.
pub fn wide(n: u128) -> Field
    requires { n < 2 ^ 127 }
    ensures { result ≡ field.Int (pos n) }
{
    Field::Int(n as i128)
}
