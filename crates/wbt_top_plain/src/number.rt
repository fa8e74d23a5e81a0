//! A number among the words.

ghost use Rattle.std.specs.Prelude.{◌≤◌, ℕ, IfSome, IfNone};
ghost use Rattle.wbt_top_plain.specs.Number.{IsNumber};

/// The number of these bounds that the word spells as a trace does: no sign and no zero stand in front.
pub fn number_within(word: &str, least: u64, most: u64) -> Option<u64>
    requires { 1 ≤ least }
    ensures found { IfSome result (λ n. IsNumber least most n word.now) }
    ensures none { IfNone result ((n : ℕ) → ¬ IsNumber least most n word.now) }
{
    let text = word.as_bytes();
    if text.is_empty() {
        return None;
    }
    if text[0] == b'0' {
        return None;
    }
    if text[0] == b'+' {
        return None;
    }
    let Ok(n) = word.parse::<u64>() else {
        return None;
    };
    if n < least {
        return None;
    }
    if n > most {
        return None;
    }
    Some(n)
}
