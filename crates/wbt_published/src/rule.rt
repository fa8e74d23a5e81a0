//! What a cell keeps, its rule, and what each call on it tells its pass.

use crate::known::Known;
use atomic_table::{Join, Split};
use crossbeam_utils::atomic::seq_cell::Words;
use crossbeam_utils::rule::{Outcome, Protocol};
use wbt_estimate::Estimate;

// An estimate as eight words.
#[derive(Clone, Copy)]
pub struct Stored {
    pub estimate: Estimate,
}

impl Words<8> for Stored {
    ghost use Rattle.wbt_published.specs.Publishing.{words_of};

    ghost words = { λ stored. words_of stored.estimate };

    fn to_words(self) -> [u64; 8] {
        let estimate = self.estimate;
        [
            estimate.version,
            estimate.bw,
            estimate.avg,
            estimate.ratelimit,
            estimate.balanced,
            estimate.written_stamp,
            estimate.dirtied_stamp,
            estimate.at,
        ]
    }

    fn from_words(bits: &[u64; 8]) -> Stored {
        Stored {
            estimate: Estimate {
                version: bits[0],
                bw: bits[1],
                avg: bits[2],
                ratelimit: bits[3],
                balanced: bits[4],
                written_stamp: bits[5],
                dirtied_stamp: bits[6],
                at: bits[7],
            },
        }
    }
}

// Versions rise one by one, by the hand of one pass.
pub struct Rising;

impl Protocol<Stored, Known> for Rising {
    ghost use Rattle.wbt_published.specs.Known.{opening};
    ghost use Rattle.wbt_published.specs.Publishing.{IsPublished};

    ghost holds = { IsPublished };

    ghost first = { opening };
}

// The newest estimate was read.
pub struct Reading;

impl Outcome<Stored, Known> for Reading {
    ghost use Rattle.wbt_published.specs.Publishing.{HasRead};

    ghost then = { HasRead };
}

// The next estimate was published.
pub struct Publishing;

impl Outcome<Stored, Known> for Publishing {
    ghost use Rattle.wbt_published.specs.Publishing.{HasPublished};

    ghost then = { HasPublished };
}

// A publishing pass learned that all its notes are of what was published.
pub struct Learning;

impl Outcome<Stored, Known> for Learning {
    ghost use Rattle.wbt_published.specs.Publishing.{HasLearned};

    ghost then = { HasLearned };
}

// A new pass reads; the right to publish stays.
pub struct Keeping;

impl Split<Known> for Keeping {
    ghost use Rattle.wbt_published.specs.Known.{reader};

    ghost left = { λ known. known };

    ghost right = { reader };
}

// The right to publish goes to a new pass.
pub struct Handing;

impl Split<Known> for Handing {
    ghost use Rattle.wbt_published.specs.Known.{without_right, with_right};

    ghost left = { without_right };

    ghost right = { with_right };
}

// A new pass gets all that the old one knew.
pub struct Whole;

impl Split<Known> for Whole {
    ghost use Rattle.wbt_published.specs.Known.{spent};

    ghost left = { λ _. spent };

    ghost right = { λ known. known };
}

// One pass comes to know what another knew, and gets its right.
pub struct Together;

impl Join<Known> for Together {
    ghost use Rattle.wbt_published.specs.Known.{spent, knows_both};

    ghost both = { knows_both };

    ghost spent = { spent };
}
