//! The two words that hold the limits of a domain.
//!
//! Each limit is at most `MAX_LIMIT`, which has 32 bits. The sequence word has a sequence in bits 32 to 63 and the hard limit in
//! bits 0 to 31. The thresh word has the threshold in bits 32 to 63 and the background threshold in bits 0 to 31. Who changes
//! them makes the sequence odd before, and even again with the last change.

ghost use Rattle.std.specs.Prelude.{◌≡◌, ℕ, ◌^◌, ◌<◌};
ghost use Rattle.wbt_num.specs.Limits.{IsLawful};
ghost use Rattle.wbt_num.specs.declared.limits.Limits.{Limits as Triple};
ghost use Rattle.wbt_limits.specs.Words.{sequence_word_of, thresh_word_of, sequence_in, limits_in};

use wbt_num::Limits;

/// The thresh word of lawful limits.
pub fn pack_thresh(limits: &Limits) -> u64
    requires { IsLawful limits.now }
    ensures { result ≡ thresh_word_of limits.now }
{
    (limits.thresh << 32) + limits.bg
}

/// The sequence word of a sequence and a hard limit in pages, both below 2^32.
pub fn pack_hard(sequence: u64, hard: u64) -> u64
    requires sequence_in_range { sequence < 2 ^ 32 }
    requires hard_in_range { hard < 2 ^ 32 }
    ensures value { result ≡ sequence_word_of sequence hard }
    ensures tells_sequence { sequence_in result ≡ sequence }
{
    (sequence << 32) + hard
}

/// The sequence in a sequence word.
pub fn sequence_of(word: u64) -> u64
    ensures value { result ≡ sequence_in word }
    ensures in_range { result < 2 ^ 32 }
{
    word >> 32
}

/// The limits in a sequence word and a thresh word. They are those of one domain only where both words stood at one moment,
/// under an even sequence.
pub fn join_limits(sequence_word: u64, thresh_word: u64) -> Limits
    ensures value { result ≡ limits_in sequence_word thresh_word }
    ensures joins { (sequence : ℕ) (limits : Triple) → IsLawful limits → sequence_word ≡ sequence_word_of sequence limits.hard
        → thresh_word ≡ thresh_word_of limits → result ≡ limits }
    ensures lawful { (sequence : ℕ) (limits : Triple) → IsLawful limits → sequence_word ≡ sequence_word_of sequence limits.hard
        → thresh_word ≡ thresh_word_of limits → IsLawful result }
{
    let low = 1 << 32;
    Limits {
        thresh: thresh_word >> 32,
        bg: thresh_word % low,
        hard: sequence_word % low,
    }
}
