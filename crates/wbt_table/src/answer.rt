//! What calls answer.

use wbt_counter::Fold;
use wbt_num::Limits;

/// What a call paid.
#[derive(Clone, Copy, Debug, PartialEq, Eq)]
pub struct Settled {
    /// Whether nothing is owed any more. It is false only where the gate answered false in this call.
    pub all: bool,
    /// The fold of the context's counter, where one was made.
    pub first: Option<Fold>,
    /// That of the global domain's counter.
    pub second: Option<Fold>,
    /// That of the counter of the cgroup's domain.
    pub third: Option<Fold>,
}

/// What became of a page that was written.
#[derive(Clone, Copy, Debug, PartialEq, Eq)]
pub enum Dirtied {
    /// It wasn't dirty, and is now.
    Fresh,
    /// It was dirty already.
    Already,
}

/// What a claim came to.
#[derive(Clone, Copy, Debug, PartialEq, Eq)]
pub enum Claim {
    /// The page is under writeback and no longer dirty, and the CPU holds it.
    Mine,
    /// The page couldn't be claimed: its two bits in the loaded word. Bit 0 is dirty, bit 1 is writeback.
    NotDirty { word: u64 },
    /// The page's word changed between the load, which gave `first`, and the exchange, which found `second`.
    Missed { first: u64, second: u64 },
    /// The gate answered false.
    Stopped,
}

/// What giving a page back came to.
#[derive(Clone, Copy, Debug, PartialEq, Eq)]
pub enum Back {
    /// The page wasn't dirty, and is now. The CPU owes its inode the mark.
    Redirtied,
    /// The page was dirty again already, and stays so: its dirtying before this one is absorbed. The CPU owes an event of -1 to each counter
    /// of the page.
    Absorbed,
    /// The page's word changed between the load, which gave `first`, and the exchange, which found `second`. The CPU holds the page still.
    Missed { first: u64, second: u64 },
    /// The gate answered false.
    Stopped,
}

/// Limits of a domain that were read whole, with their version.
#[derive(Clone, Copy, Debug, PartialEq, Eq)]
pub struct Triple {
    /// 0 for the domain's first limits, and from then on one more with each publication.
    pub version: u64,
    pub limits: Limits,
}

/// What a load of limits came to.
#[derive(Clone, Copy, Debug, PartialEq, Eq)]
pub enum Loaded {
    /// The limits stood whole under one even sequence. The CPU holds them from now on.
    Fresh(Triple),
    /// The sequence word was `first` and then `second`: they differ, or have an odd sequence. The CPU holds what it held.
    Again {
        held: Triple,
        first: u64,
        second: u64,
    },
    /// The gate answered false.
    Stopped,
}

/// What a publication came to.
#[derive(Clone, Copy, Debug, PartialEq, Eq)]
pub enum Put {
    /// The limits stand published.
    Done,
    /// The gate answered false. The words are as the steps before left them, and a further publication goes on from there.
    Stopped,
    /// The domain's sequence is its last one, and nothing changed.
    Last,
}

/// The CPU has made as many page steps as it may.
#[derive(Clone, Copy, Debug, PartialEq, Eq)]
pub struct Spent;
