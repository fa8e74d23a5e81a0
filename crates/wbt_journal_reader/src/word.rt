//! The words of a journal's lines, as they are read.

ghost use Rattle.std.specs.Prelude.{◌≡◌, IfSome, IfNone};
ghost use Rattle.wbt_journal.specs.Word.{word_text};
ghost use Rattle.wbt_journal.specs.declared.word.Word.{Word as WordValue};

use wbt_journal::Word;

// Each word, those first of which a long journal has many.
static WORDS: [Word; 51] = [
    Word::Write,
    Word::Fresh,
    Word::Claim,
    Word::Done,
    Word::Fold,
    Word::Read,
    Word::Count,
    Word::Check,
    Word::Free,
    Word::Already,
    Word::Left,
    Word::Dirty,
    Word::Back,
    Word::Absorbed,
    Word::Go,
    Word::Wait,
    Word::Exempt,
    Word::Est,
    Word::Share,
    Word::Batch,
    Word::Limits,
    Word::Notice,
    Word::Age,
    Word::Take,
    Word::Writeback,
    Word::Both,
    Word::Period,
    Word::Fault,
    Word::Cpu,
    Word::Timer,
    Word::Census,
    Word::Totals,
    Word::End,
    Word::Halted,
    Word::Spent,
    Word::Faulted,
    Word::Steps,
    Word::Step,
    Word::Strict,
    Word::Add,
    Word::Clear,
    Word::Complete,
    Word::Peak,
    Word::Unseal,
    Word::Thresh,
    Word::Publish,
    Word::First,
    Word::Middle,
    Word::Mark,
    Word::Unmark,
    Word::Look,
];

/// The word of this text.
pub fn word_of(text: &[u8]) -> Option<Word>
    ensures found { IfSome result (λ word. text.now ≡ word_text word) }
    ensures none { IfNone result ((word : WordValue) → text.now ≡ word_text word → ⊥) }
{
    for i in 0..WORDS.len() {
        if text == WORDS[i].text().as_bytes() {
            return Some(WORDS[i]);
        }
    }
    None
}
