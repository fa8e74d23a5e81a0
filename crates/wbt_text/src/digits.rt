//! Numbers in a text.

ghost use Rattle.std.specs.Prelude.{◌≡◌, ℕ, ◌≤◌, List, length, IfSome, IfNone, IfOk};
ghost use Rattle.std.specs.Str.Parse.{AllDigits, digits_value};
ghost use Rattle.wbt_text.specs.Numbers.{IsNumber, AreNumbers};

use crate::parts::cut;
use std::alloc::Global;
use wbt_num::NoMemory;

/// The most digits of a number in a text, so that each fits a u64.
pub const MOST_DIGITS: usize = 18;

// What digits say, in base ten.
fn value_of(text: &[u8]) -> Option<u64>
    requires { length text.now ≤ MOST_DIGITS }
    ensures found { IfSome result (λ n. AllDigits 10 text.now × (n ≡ digits_value 10 text.now)) }
    ensures none { IfNone result (AllDigits 10 text.now → ⊥) }
{
    let mut value = 0u64;
    for digit in text {
        if *digit < b'0' || *digit > b'9' {
            return None;
        }
        value = value * 10 + u64::from(*digit - b'0');
    }
    Some(value)
}

// A number of at most 18 digits, without a leading zero.
fn number(text: &[u8]) -> Option<u64>
    ensures found { IfSome result (λ n. IsNumber text.now n) }
    ensures none { IfNone result ((n : ℕ) → IsNumber text.now n → ⊥) }
{
    if text.is_empty() {
        return None;
    }
    if text.len() > MOST_DIGITS {
        return None;
    }
    if text[0] == b'0' && text.len() > 1 {
        return None;
    }
    value_of(text)
}

/// Numbers with one space between two of them. There is one at least.
pub fn numbers(alloc: Global, text: &[u8]) -> Result<Option<Vec<u64>>, NoMemory>
    ensures found { IfOk result (λ read. IfSome read (λ ns. AreNumbers text.now ns.items)) }
    ensures none { IfOk result (λ read. IfNone read ((ns : List ℕ) → AreNumbers text.now ns → ⊥)) }
{
    let mut found = Vec::new(alloc);
    let mut rest = text;
    'fields: loop {
        match cut(rest, b' ') {
            None => match number(rest) {
                None => return Ok(None),
                Some(n) => {
                    found.push(n)?;
                    return Ok(Some(found));
                }
            },
            Some((first, more)) => match number(first) {
                None => return Ok(None),
                Some(n) => {
                    found.push(n)?;
                    rest = more;
                }
            },
        }
    }
}
