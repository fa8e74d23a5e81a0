//! How the line of a step begins: with its number, who made it, and its kind.

ghost use Rattle.std.specs.Prelude.{◌≡◌, ◌+◌, ◌≤◌, ◌∷◌, ◌++◌, length, drop};
ghost use Rattle.std.specs.Fmt.{decimal};
ghost use Rattle.wbt_journal.specs.Line.{field_text, fields_text};
ghost use Rattle.wbt_journal.specs.Steps as spec;
ghost use Rattle.wbt_journal.specs.Word.{word_text};
ghost use Rattle.wbt_journal.specs.declared.word.Word.TheVariants as word;

use crate::line::put_word;
use crate::number::put_short;
use crate::room::{put_byte, put_bytes};
use crate::step::StepEntry;
use crate::word::Word;
use wbt_grant::StepKind;

/// Bytes in which a word has room with two numbers and a word, each of these after a space.
pub const HEAD: usize = 64;

/// Puts the beginning of a step's line, of so many CPUs and the timer, at the end of the room, and answers where its text begins.
pub fn put_head(cpus: usize, number: u64, step: &StepEntry, room: &mut [u8; HEAD]) -> usize
    ensures within { result ≤ HEAD }
    ensures text { drop result room.new ≡ word_text word.Step ++ fields_text (spec.step_fields cpus number step.now) }
{
    let kind = put_word(kind_word(step.kind), HEAD, room);
    let who = put_who(cpus, step.who, kind, room);
    let first = put_natural(number, who, room);
    put_bytes(Word::Step.text().as_bytes(), first, room)
}

// The word of a kind of step.
fn kind_word(kind: StepKind) -> Word
    ensures { result ≡ spec.kind_word kind }
{
    match kind {
        StepKind::Add => Word::Add,
        StepKind::Fold => Word::Fold,
        StepKind::Clear => Word::Clear,
        StepKind::Count => Word::Count,
        StepKind::Dirty => Word::Dirty,
        StepKind::Claim => Word::Claim,
        StepKind::Complete => Word::Complete,
        StepKind::Peak => Word::Peak,
        StepKind::Unseal => Word::Unseal,
        StepKind::Thresh => Word::Thresh,
        StepKind::Publish => Word::Publish,
        StepKind::First => Word::First,
        StepKind::Middle => Word::Middle,
        StepKind::Limits => Word::Limits,
        StepKind::Mark => Word::Mark,
        StepKind::Unmark => Word::Unmark,
        StepKind::Look => Word::Look,
        StepKind::Back => Word::Back,
    }
}

// Puts a space and who made a step, of so many CPUs and the timer, in front of a place.
fn put_who(cpus: usize, who: u32, end: usize, room: &mut [u8]) -> usize
    requires long { 21 ≤ end }
    requires within { end ≤ length room.old }
    ensures before { result ≤ end }
    ensures place { end ≤ result + 21 }
    ensures text { drop result room.new ≡ 32 ∷ field_text (spec.who_field cpus who) ++ drop end room.old }
{
    if (who as usize) < cpus {
        put_natural(u64::from(who), end, room)
    } else {
        put_word(Word::Timer, end, room)
    }
}

// Puts a space and a number of 64 bits in front of a place.
fn put_natural(number: u64, end: usize, room: &mut [u8]) -> usize
    requires long { 21 ≤ end }
    requires within { end ≤ length room.old }
    ensures before { result ≤ end }
    ensures place { end ≤ result + 21 }
    ensures text { drop result room.new ≡ 32 ∷ decimal number ++ drop end room.old }
{
    let digits = put_short(number, end, room);
    put_byte(b' ', digits, room)
}
