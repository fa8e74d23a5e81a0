//! Lines of a text, word by word.

/// The number that a word of a line spells; 0 where there is no word.
pub fn number(word: Option<&[u8]>) -> u64 {
    let mut value: u64 = 0;
    if let Some(digits) = word {
        for digit in digits {
            value = value
                .saturating_mul(10)
                .saturating_add(digit.saturating_sub(b'0') as u64);
        }
    }
    value
}

/// How many lines of the text begin with the word.
pub fn count_of(text: &[u8], word: &[u8]) -> u64 {
    let mut count: u64 = 0;
    for line in text.split(|byte| *byte == b'\n') {
        let mut words = line.split(|byte| *byte == b' ');
        if words.next() == Some(word) {
            count = count.saturating_add(1);
        }
    }
    count
}

/// The sum of the numbers at this place, of which 0 is the word's, in all lines of the text that begin with the word.
pub fn sum_of(text: &[u8], word: &[u8], place: usize) -> u64 {
    let mut sum: u64 = 0;
    for line in text.split(|byte| *byte == b'\n') {
        sum = sum.saturating_add(number_at(line, word, place));
    }
    sum
}

/// How many of these numbers are above 0.
pub fn positive_of(text: &[u8], word: &[u8], place: usize) -> u64 {
    let mut count: u64 = 0;
    for line in text.split(|byte| *byte == b'\n') {
        if number_at(line, word, place) > 0 {
            count = count.saturating_add(1);
        }
    }
    count
}

// The number at this place of a line that begins with the word; 0 of any other line.
fn number_at(line: &[u8], word: &[u8], place: usize) -> u64 {
    let mut words = line.split(|byte| *byte == b' ');
    if words.next() != Some(word) {
        return 0;
    }
    for _ in 1..place {
        let _passed = words.next();
    }
    number(words.next())
}
