//! Whose turn may come in the rotation: a CPU without jobs never has anything to do, and is passed over.

ghost use Rattle.std.specs.Prelude.{ℕ, ◌≡◌, ◌<◌, ◌≤◌, ◌^◌, false, [], length, get_or, IfOk};
ghost use Rattle.wbt_replay_order.specs.Definition.Opening.{first_cpu};
ghost use Rattle.wbt_replay_order.specs.Kept.Round.{IsNext, IsRound};
ghost use Rattle.wbt_replay_moves.specs.Definition.State.{no_cpu};

use std::alloc::{AllocError, Global};
use wbt_num::Items;
use wbt_replay_moves::Cpu;
use wbt_trace::Trace;

/// For each place of the rotation, the next one from there on whose CPU has jobs, or else the timer's, which is the last. Which jobs
/// a CPU has never changes. Only the contract speaks of the trace.
pub fn round_of(alloc: Global, trace: &Trace, cpus: &[Cpu]) -> Result<Items<u32>, AllocError>
    requires few { length cpus.now < 2 ^ 31 }
    requires many { length cpus.now ≡ trace.now.cpus }
    requires jobs { (i : ℕ) → i < length cpus.now → (get_or cpus.now i no_cpu).jobs ≡ (first_cpu trace.now i).jobs }
    ensures { IfOk result (λ round. IsRound trace.now round) }
{
    let mut round = Items::new(alloc);
    for place in 0..cpus.len() as u32 + 1 {
        round.push(next_from(trace, cpus, place))?;
    }
    Ok(round)
}

// The next place from one on whose CPU has jobs, or the timer's.
fn next_from(trace: &Trace, cpus: &[Cpu], place: u32) -> u32
    requires few { length cpus.now < 2 ^ 31 }
    requires many { length cpus.now ≡ trace.now.cpus }
    requires jobs { (i : ℕ) → i < length cpus.now → (get_or cpus.now i no_cpu).jobs ≡ (first_cpu trace.now i).jobs }
    requires place { place ≤ length cpus.now }
    ensures { IsNext trace.now place result }
{
    let timer = cpus.len() as u32;
    for next in place..timer {
        if has_jobs(&cpus[next as usize]) {
            return next;
        }
    }
    timer
}

fn has_jobs(cpu: &Cpu) -> bool
    ensures none { result ≡ false → cpu.now.jobs ≡ [] }
{
    !cpu.jobs.as_slice().is_empty()
}
