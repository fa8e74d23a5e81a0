//! What a law text says.

ghost use Rattle.std.specs.Prelude.{◌≡◌};
ghost use Rattle.wbt_law.specs.Draft.{rates_of, start};

use crate::place::Place;
use wbt_estimate::Estimate;
use wbt_num::Limits;
use wbt_pause::{Reads, Task};
use wbt_position::DomainRead;

/// What one decision is made from.
#[derive(Clone, Copy, Debug, PartialEq, Eq)]
pub struct LawInput {
    /// What was read of the machine. A second domain is that of the context's cgroup.
    pub reads: Reads,
    /// The average bandwidth and the rate limit, in pages a second. No decision depends on the other fields, of which a
    /// law text says nothing: the bandwidth is as its average, the balanced rate as the rate limit, and the rest is 0.
    pub estimate: Estimate,
    /// The writer's numbers before the decision.
    pub task: Task,
    /// The moment of the check, in ticks.
    pub now: u64,
}

/// A law text while its lines are read: the place of the next line, and what the lines before it said.
#[derive(Clone, Copy, Debug, PartialEq, Eq)]
pub struct Draft {
    pub place: Place,
    pub law: LawInput,
}

const NO_DOMAIN: DomainRead = DomainRead {
    limits: Limits {
        thresh: 0,
        bg: 0,
        hard: 0,
    },
    dirty: 0,
    wb_thresh: 0,
};

/// Rates of which only the average and the rate limit are known.
pub fn rates(avg: u64, ratelimit: u64) -> Estimate
    ensures { result ≡ rates_of avg ratelimit }
{
    Estimate {
        version: 0,
        bw: avg,
        avg,
        ratelimit,
        balanced: ratelimit,
        written_stamp: 0,
        dirtied_stamp: 0,
        at: 0,
    }
}

/// Before the first line: the least that each line may say.
pub fn blank() -> Draft
    ensures { result ≡ start }
{
    Draft {
        place: Place::Cpus,
        law: LawInput {
            reads: Reads {
                global: NO_DOMAIN,
                cgroup: None,
                wb_dirty: 0,
                cpus: 1,
                cap: 1,
            },
            estimate: rates(1, 1),
            task: Task {
                nr_dirtied: 0,
                nr_dirtied_pause: 0,
                paused_when: 0,
            },
            now: 0,
        },
    }
}
