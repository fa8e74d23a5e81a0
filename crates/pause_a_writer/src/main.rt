//! How long a check pauses a writer that dirtied 32 pages: by available memory and dirty pages, and the disk's pages a second.
#![tactic(auto)]

ghost use Rattle.std.specs.Prelude.{◌^◌, ◌<◌, ◌≤◌};

use wbt_pause::{DomainRead, Limits, Reads, decide, first_estimate};

fn pause(avail: u64, dirty: u64, rate: u64) -> u64
    requires in_range { (dirty < 2 ^ 33) × (1 ≤ rate) × (rate < 2 ^ 44) }
    ensures at_most_200 { result ≤ 200 }
{
    let settings = wbt_num::Settings {
        ratio: 20,
        bg_ratio: 10,
        bytes: 0,
        bg_bytes: 0,
    };
    let wbt_limits::Pair { thresh, bg } = wbt_limits::thresholds(avail, &settings, None);
    let hard = thresh;
    let reads = Reads {
        global: DomainRead {
            limits: Limits { thresh, bg, hard },
            dirty,
            wb_thresh: thresh,
        },
        cgroup: None,
        wb_dirty: dirty,
        cpus: 4,
        cap: 1024,
    };
    let mut estimate = first_estimate(0);
    (estimate.avg, estimate.ratelimit) = (rate, rate);
    let mut writer = wbt_task::first_task();
    writer.nr_dirtied = 32;
    decide(&reads, &estimate, writer, 1000).pause
}

fn main(rt: HostRuntime) -> std::io::Result<()> {
    println!(rt; "a pause of {} ticks", pause(100000, 18000, 2560))
}
