//! Where an input of `audit` is cut.

ghost use Rattle.std.specs.Prelude.{◌≡◌, ◌↔◌, Some, None, IfSome, IfNone, IsTrue, codes, option_map};
ghost use Rattle.wbt_top_plain.specs.Audit.{HasParts, IsCut, IsUncut};

use wbt_text::cut;

/// The parts of an input.
#[derive(Clone, Copy)]
pub struct Parts<'a> {
    /// The text of its trace: all of it where no line is `journal`.
    pub front: &'a [u8],
    /// What comes after the first line that is `journal`, where one is.
    pub rest: Option<&'a [u8]>,
}

/// The text before its first line that is `journal`, and what comes after that line.
pub fn parts_of(text: &[u8]) -> Parts
    ensures without { IfNone result.rest (IsUncut text.now × (result.front.now ≡ text.now)) }
    ensures with { IfSome result.rest (λ rest. IsCut text.now result.front.now rest.now) }
{
    let mut start = 0;
    'lines: loop {
        match cut(&text[start..], b'\n') {
            None => return Parts {
                front: text,
                rest: None,
            },
            Some((line, rest)) => {
                if is_journal(line) {
                    return Parts {
                        front: &text[..start],
                        rest: Some(rest),
                    };
                }
                start += line.len() + 1;
            }
        }
    }
}

fn is_journal(line: &[u8]) -> bool
    ensures { IsTrue result ↔ (line.now ≡ codes "journal") }
{
    matches!(line, b"journal")
}
