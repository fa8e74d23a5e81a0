//! How a run ended, from how its workers and its flushers in the drain ended.

ghost use Rattle.std.specs.Prelude.{IsTrue, ◌↔◌};
ghost use Rattle.wbt_run_drain.specs.Ends.{Any, EndingIs, FoundEnd, GoesOn, HasCauseToStop, HaveEnded, IsOut, SomeEnds};
ghost use Rattle.wbt_journal.specs.Each.{Each};

use wbt_io::NoMemory;
use wbt_journal::Ending;
use wbt_run_worker::{CpuSide, End, Post, Stand};

/// How the run ended: faulted where a flusher was, else spent where a CPU was, else halted where one was. Want of memory stands
/// before all. A side that was told to stop has another's cause among these.
pub fn ending_of<D>(sides: &[CpuSide<'_, D>]) -> Result<Ending, NoMemory>
    ensures found { FoundEnd sides.now result }
    ensures ending { HasCauseToStop sides.now → EndingIs sides.now result }
{
    found_end(sides)
}

// By the ends that others stop for, and by halts.
fn found_end<D>(sides: &[CpuSide<'_, D>]) -> Result<Ending, NoMemory>
    ensures { FoundEnd sides.now result }
{
    if some_end(sides, End::Refused) {
        return Err(NoMemory);
    }
    if some_end(sides, End::Faulted) {
        return Ok(Ending::Faulted);
    }
    if some_end(sides, End::Spent) {
        return Ok(Ending::Spent);
    }
    if some_end(sides, End::Halted) {
        return Ok(Ending::Halted);
    }
    Ok(Ending::Done)
}

/// Whether all tasks have ended, and no flusher was halted, faulted or spent.
pub fn all_ended<D>(sides: &[CpuSide<'_, D>]) -> bool
    ensures { IsTrue result ↔ HaveEnded sides.now }
{
    for side in sides {
        if side.end != End::Ended || !all_go_on(&side.posts) {
            return false;
        }
    }
    true
}

fn all_go_on<D>(posts: &[Post<D>]) -> bool
    ensures { IsTrue result ↔ Each GoesOn posts.now }
{
    for post in posts {
        if let Stand::Out { end: _ } = post.stand {
            return false;
        }
    }
    true
}

fn some_end<D>(sides: &[CpuSide<'_, D>], end: End) -> bool
    ensures { IsTrue result ↔ SomeEnds end sides.now }
{
    for side in sides {
        if side.end == end || some_post_ends(&side.posts, end) {
            return true;
        }
    }
    false
}

fn some_post_ends<D>(posts: &[Post<D>], end: End) -> bool
    ensures { IsTrue result ↔ Any (IsOut end) posts.now }
{
    for post in posts {
        if post.stand == (Stand::Out { end }) {
            return true;
        }
    }
    false
}
