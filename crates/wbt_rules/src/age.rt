//! Writeback by age: which devices' inodes are written for their age, and when an inode is due.

ghost use Rattle.std.specs.Prelude.{◌≡◌, ◌+◌, ◌<◌, ◌≤◌, ◌^◌, length, IfSome};
ghost use Rattle.wbt_rules.specs.Age as spec;
ghost use Rattle.wbt_rules.specs.Things.{context_at, context_of as context_value};

use crate::things::context_of;
use wbt_trace::{Context, Trace};

/// After how long an inode is due where its context's line doesn't say it, in hundredths of a second.
pub const DEFAULT_EXPIRE: u32 = 3000;

/// Ticks of a hundredth of a second.
pub const EXPIRE_TICKS: u64 = 10;

/// Numbers that a flusher takes from its device's queue in one turn, to notice them.
pub const MOST_NOTICED: u32 = 64;

/// Whether the device's inodes are written for their age: a context of the device says after how long.
pub fn is_ageing(trace: &Trace, device: u32) -> bool
    ensures { result ≡ spec.is_ageing trace.now device }
{
    ages_in(device, trace.contexts.as_slice())
}

#[tactic(auto, unfolding(crate::specs::Age::ages_in))]
fn ages_in(device: u32, contexts: &[Context]) -> bool
    ensures { result ≡ spec.ages_in device contexts.now }
{
    for context in contexts {
        if context.device == device && context.expire.is_some() {
            return true;
        }
    }
    false
}

/// The moment at which an inode is due that was noticed at one, in ticks.
#[tactic(auto, unfolding(crate::specs::Age::expire_ticks))]
pub fn due_after(trace: &Trace, inode: u32, since: u64) -> u64
    requires inode { inode < length trace.now.inodes }
    requires context { context_value trace.now inode < length trace.now.contexts }
    requires since { since < 2 ^ 62 }
    ensures value { result ≡ spec.due_after trace.now inode since }
    ensures later { since ≤ result }
{
    let context = context_of(trace, inode);
    since + expire_of(&trace.contexts.as_slice()[context as usize])
}

/// After how many ticks an inode of the context is due.
pub fn expire_of(context: &Context) -> u64
    ensures value { result ≡ spec.expire_of context.now }
    ensures below { result < 2 ^ 36 }
{
    EXPIRE_TICKS * u64::from(context.expire.unwrap_or(DEFAULT_EXPIRE))
}
