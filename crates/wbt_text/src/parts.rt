//! The parts of a text before and after a byte.

ghost use Rattle.std.specs.Prelude.{◌≡◌, ◌++◌, ◌∷◌, IfSome, IfNone};
ghost use Rattle.wbt_text.specs.Cut.{Without, HasNoDigit, BeginsWithDigit};

/// The text before the first such byte, and what follows that byte.
pub fn cut(text: &[u8], at: u8) -> Option<(&[u8], &[u8])>
    ensures found { IfSome result (λ parts. (text.now ≡ parts.0.now ++ at ∷ parts.1.now) × Without at parts.0.now) }
    ensures none { IfNone result (Without at text.now) }
{
    for i in 0..text.len() {
        if text[i] == at {
            return Some((&text[..i], &text[i + 1..]));
        }
    }
    None
}

/// The text before its first digit, and what begins there.
pub fn front_of(text: &[u8]) -> (&[u8], &[u8])
    ensures whole { text.now ≡ result.0.now ++ result.1.now }
    ensures front { HasNoDigit result.0.now }
    ensures rest { BeginsWithDigit result.1.now }
{
    for i in 0..text.len() {
        if text[i] >= b'0' && text[i] <= b'9' {
            return text.split_at(i);
        }
    }
    text.split_at(text.len())
}
