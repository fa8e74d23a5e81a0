//! Journals whose verdicts are known, and that the definitions of a lawful journal agree. An independent implementation gave most of them;
//! a few were worked out by hand.
//!
//! `tools/judged-values` makes the definitions of a folder of judged journals. Nothing stands on this crate.
#![tactic(auto)]

ghost use Rattle.wbt_judged.specs.Judged.{AreJudged};

/// By computation each journal has its verdict: lawful, or the least point that is broken with the first line at fault.
pub fn judged_alike()
    ensures { AreJudged }
{}
