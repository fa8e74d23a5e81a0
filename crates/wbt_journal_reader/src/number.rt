//! Numbers in a journal's text.

ghost use Rattle.std.specs.Prelude.{◌≡◌, ℕ, ◌≤◌, length, IfSome, IfNone};
ghost use Rattle.std.specs.Str.Parse.{AllDigits, digits_value};
ghost use Rattle.wbt_journal_reader.specs.Fields.{IsNumber};

/// The most digits of a number in a journal, which is below 2^64.
pub const MOST_DIGITS: usize = 20;

// What digits say, in base ten.
fn value_of(text: &[u8]) -> Option<u128>
    requires { length text.now ≤ MOST_DIGITS }
    ensures found { IfSome result (λ n. AllDigits 10 text.now × (n ≡ digits_value 10 text.now)) }
    ensures none { IfNone result (AllDigits 10 text.now → ⊥) }
{
    let mut value = 0u128;
    for digit in text {
        if *digit < b'0' || *digit > b'9' {
            return None;
        }
        value = value * 10 + u128::from(*digit - b'0');
    }
    Some(value)
}

/// A number below 2^64, without a leading zero.
pub fn number(text: &[u8]) -> Option<u64>
    ensures found { IfSome result (λ n. IsNumber text.now n) }
    ensures none { IfNone result ((n : ℕ) → IsNumber text.now n → ⊥) }
{
    if text.is_empty() {
        return None;
    }
    if text.len() > MOST_DIGITS {
        return None;
    }
    if text[0] == b'0' && text.len() > 1 {
        return None;
    }
    match value_of(text) {
        None => None,
        Some(value) => {
            if value > u64::MAX as u128 {
                None
            } else {
                Some(value as u64)
            }
        }
    }
}
