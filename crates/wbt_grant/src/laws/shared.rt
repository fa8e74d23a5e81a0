//! Pages that share words.

ghost use Rattle.wbt_grant.specs.SharedWords.{SharingIsSetting, NeighboursMakeClaimsMiss, NeighboursMakeGivingBackMiss};

/// Each throttle is one also with thirty-two pages a word, so all its laws hold then.
pub fn sharing_is_setting()
    ensures { SharingIsSetting }
{}

/// A claim misses where a page that shares the word changed since its look, and only the page's own word matters.
pub fn neighbours_make_claims_miss()
    ensures { NeighboursMakeClaimsMiss }
{}

/// So does giving a page back, and then the CPU holds the page still.
pub fn neighbours_make_giving_back_miss()
    ensures { NeighboursMakeGivingBackMiss }
{}
