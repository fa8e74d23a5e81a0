//! Reading a text line by line.

ghost use Rattle.std.specs.Prelude.{◌≡◌, ◌<◌, ◌^◌, IfOk};
ghost use Rattle.wbt_text.specs.Reading.{Format, HasAnswer, IsClear};
ghost use Rattle.wbt_text.specs.Verdicts.{IsVerdict};

use crate::parts::cut;
use std::alloc::Global;
use wbt_num::NoMemory;

/// What became of the bytes that came as a line.
#[derive(Clone, Copy, Debug, PartialEq, Eq)]
pub enum Verdict<R> {
    /// They are a line, and it is taken.
    Taken,
    /// They are no line.
    NoLine,
    /// They are a line, and it is refused.
    Refused(R),
}

/// What reads the texts of one format, and holds what the lines so far have said.
pub trait Reader: Drop {
    /// Why a line is refused.
    type Refusal: Drop;

    /// What a text tells.
    type Answer: Drop;

    /// What lines say, as the format sees it.
    ghost State: { Type 0 };

    /// A line, as the format sees it.
    ghost Line: { Type 0 };

    /// How the texts are read.
    ghost format: { Format State Line Self.Refusal Self.Answer };

    /// What the lines so far have said.
    ghost seen: { Self → State };

    /// Takes the bytes as the next line, given without a line feed, or tells why not.
    fn take(&mut self, alloc: Global, line: &[u8]) -> Result<Verdict<Self::Refusal>, NoMemory>
        ensures { IfOk result (λ verdict. IsVerdict format (seen self.old) line.now verdict (seen self.new)) };

    /// The answer where the text is over after so many lines.
    fn ended(self, count: u64) -> Self::Answer
        requires { count < 2 ^ 63 }
        ensures { result ≡ format.ended count (seen self) };

    /// The answer where what comes as the line of this number is no line.
    fn unread(number: u64) -> Self::Answer
        ensures { result ≡ format.unread number };

    /// The answer where the line of this number is refused.
    fn refused(number: u64, why: Self::Refusal) -> Self::Answer
        ensures { result ≡ format.refused number why };
}

fn read<R: Reader>(alloc: Global, mut reader: R, text: &[u8]) -> Result<R::Answer, NoMemory>
    requires { IsClear R.format }
    ensures { IfOk result (λ answer. HasAnswer R.format (R.seen reader) text.now answer) }
{
    let mut rest = text;
    let mut count = 0u64;
    'lines: loop {
        if rest.is_empty() {
            return Ok(reader.ended(count));
        }
        match cut(rest, b'\n') {
            None => return Ok(R::unread(count + 1)),
            Some((first, more)) => match reader.take(alloc, first)? {
                Verdict::NoLine => return Ok(R::unread(count + 1)),
                Verdict::Refused(why) => return Ok(R::refused(count + 1, why)),
                Verdict::Taken => {
                    rest = more;
                    count += 1;
                }
            },
        }
    }
}

/// What the text tells, where reading starts with this reader.
pub fn read_lines<R: Reader>(alloc: Global, reader: R, text: &[u8]) -> Result<R::Answer, NoMemory>
    requires clear { IsClear R.format }
    // What is read is what the text tells.
    ensures told { IfOk result (λ read. HasAnswer R.format (R.seen reader) text.now read) }
    // What the text tells is read, unless memory runs out.
    ensures exact { IfOk result (λ read. (answer : R.Answer) → HasAnswer R.format (R.seen reader) text.now answer → read ≡ answer) }
{
    read(alloc, reader, text)
}
