//! Lines, each of which is put down in a room and goes out in one put.

ghost use Rattle.std.specs.Prelude.{◌≡◌, ◌+◌, ◌*◌, ◌≤◌, ◌∷◌, ◌++◌, length, drop};
ghost use Rattle.std.specs.Fmt.{decimal, signed_decimal};
ghost use Rattle.wbt_journal.specs.Line.{field_text, fields_text, line_text, line};
ghost use Rattle.wbt_journal.specs.Way.{Puts, way};
ghost use Rattle.wbt_journal.specs.Word.{word_text};

use crate::field::Field;
use crate::number::{put_number, put_short};
use crate::out::Out;
use crate::room::{put_byte, put_bytes};
use crate::word::Word;
use wbt_io::Sink;

// Fields of a line.
const MOST_FIELDS: usize = 10;

/// Bytes in which a field has room after a space.
pub const FIELD: usize = 41;

// Bytes in which a line has room: its word of up to nine letters, its fields, and the line feed.
const LINE: usize = 420;

impl Out {
    /// Puts a line of a word and fields.
    pub fn line<K: Sink>(&mut self, sink: &mut K, word: Word, fields: &[Field])
        requires { length fields.now ≤ MOST_FIELDS }
        ensures { Puts (line_text (line word fields.now)) (way (K.held sink.old) (K.faults sink.old) self.old) (way (K.held sink.new) (K.faults sink.new) self.new) }
    {
        let mut room = [0; LINE];
        let first = put_line(word, fields, &mut room);
        self.put(sink, &room[first..]);
    }
}

fn put_line(word: Word, fields: &[Field], room: &mut [u8; LINE]) -> usize
    requires { length fields.now ≤ MOST_FIELDS }
    ensures within { result ≤ LINE }
    ensures text { drop result room.new ≡ line_text (line word fields.now) }
{
    let feed = put_byte(b'\n', LINE, room);
    let first = put_fields(fields, feed, room);
    put_bytes(word.text().as_bytes(), first, room)
}

// Puts fields in front of a place, each after a space, and answers where their text begins.
fn put_fields(fields: &[Field], end: usize, room: &mut [u8]) -> usize
    requires long { length fields.now * FIELD ≤ end }
    requires within { end ≤ length room.old }
    ensures before { result ≤ end }
    ensures place { end ≤ result + length fields.now * FIELD }
    ensures text { drop result room.new ≡ fields_text fields.now ++ drop end room.old }
{
    let mut left = fields.len();
    let mut at = end;
    while left > 0 {
        left -= 1;
        at = put_field(fields[left], at, room);
    }
    at
}

fn put_field(field: Field, end: usize, room: &mut [u8]) -> usize
    requires long { FIELD ≤ end }
    requires within { end ≤ length room.old }
    ensures before { result ≤ end }
    ensures place { end ≤ result + FIELD }
    ensures text { drop result room.new ≡ 32 ∷ field_text field ++ drop end room.old }
{
    match field {
        Field::Name(word) => put_word(word, end, room),
        Field::Int(number) => put_int(number, end, room),
        Field::Domain(domain) => put_name(b'd', domain, end, room),
        Field::Context(context) => put_name(b'c', context, end, room),
    }
}

/// Puts a space and a word in front of a place, and answers where their text begins.
pub fn put_word(word: Word, end: usize, room: &mut [u8]) -> usize
    requires long { 10 ≤ end }
    requires within { end ≤ length room.old }
    ensures before { result ≤ end }
    ensures place { end ≤ result + 10 }
    ensures text { drop result room.new ≡ 32 ∷ word_text word ++ drop end room.old }
{
    let letters = put_bytes(word.text().as_bytes(), end, room);
    put_byte(b' ', letters, room)
}

/// Puts a space and a number in front of a place, and answers where their text begins.
pub fn put_int(number: i128, end: usize, room: &mut [u8]) -> usize
    requires long { FIELD ≤ end }
    requires within { end ≤ length room.old }
    ensures before { result ≤ end }
    ensures place { end ≤ result + FIELD }
    ensures text { drop result room.new ≡ 32 ∷ signed_decimal number ++ drop end room.old }
{
    let digits = put_number(number, end, room);
    put_byte(b' ', digits, room)
}

// Puts a space, a letter and the digits of a name.
fn put_name(letter: u8, name: u32, end: usize, room: &mut [u8]) -> usize
    requires long { FIELD ≤ end }
    requires within { end ≤ length room.old }
    ensures before { result ≤ end }
    ensures place { end ≤ result + FIELD }
    ensures text { drop result room.new ≡ 32 ∷ letter ∷ decimal name ++ drop end room.old }
{
    let digits = put_short(u64::from(name), end, room);
    let first = put_byte(letter, digits, room);
    put_byte(b' ', first, room)
}
