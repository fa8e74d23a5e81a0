//! Gates that stop nobody, and each CPU at a number of steps.

use wbt_io::{FreeGate, Gate, HaltGate};

#[test]
fn a_free_gate_stops_nobody(rt: HostRuntime) {
    for steps in [0, 1, u64::MAX] {
        assert!(rt; FreeGate.may_step(0, steps));
    }
}

#[test]
fn a_halt_gate_stops_each_cpu_at_its_number(rt: HostRuntime) {
    let gate = HaltGate { halt: 3 };
    for (steps, may) in [
        (0, true),
        (2, true),
        (3, false),
        (4, false),
        (u64::MAX, false),
    ] {
        assert_eq!(rt; gate.may_step(0, steps), may, "at {steps}");
        assert_eq!(rt; gate.may_step(63, steps), may, "at {steps}");
    }
    assert!(rt; !HaltGate { halt: 0 }.may_step(0, 0));
}
