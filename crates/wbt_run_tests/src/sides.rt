//! The sides of a trace of two CPUs, before any turn.

use std::test::Fail;
use wbt_io::ModelRack;
use wbt_journal::Ending;
use wbt_num::Limits;
use wbt_run_drain::ending::{all_ended, ending_of};
use wbt_run_lend::{give_all, make_sides};
use wbt_trace_text::read_trace;

const TWO_CPUS: &[u8] =
    b"cpus 2\navail 0 100000\ndevice 0 25600 0 100\ncontext 0 0 0\ninode 0 0 2\ntask 0 0\nflusher 0 0 1\nflusher 1 0 1\nwrite 0 0 0 2\n";

#[test]
fn each_cpu_has_a_side(rt: HostRuntime) -> Result<(), Fail> {
    let trace = read_trace(rt.alloc(), TWO_CPUS)?;
    let first = Limits {
        thresh: 19995,
        bg: 9985,
        hard: 19995,
    };
    let mut rack = ModelRack::make();
    let sides = make_sides(rt.alloc(), &trace, 1, &first, &mut rack)?;
    let counts = (sides.len(), all_ended(&sides), ending_of(&sides));
    give_all(sides, &mut rack);
    assert_eq!(rt; counts.0, 2);
    assert!(rt; counts.1);
    assert_eq!(rt; counts.2, Ok(Ending::Done));
    assert_eq!(rt; rack.pages, 0);
    Ok(())
}
