//! Decisions by a rule, whatever made it.

ghost use Rattle.std.specs.Prelude.{◌^◌, ◌<◌, ◌≤◌};

use wbt_pause::{Decision, Estimate, Kind, Rule, Task, finish};

const SLOW: Rule = Rule {
    free: false,
    poll: 8,
    ratio: 512,
    over: true,
};

// By a rule, of a writer that dirtied 100 pages in a context with so many, on a machine with 4 CPUs.
fn by(rule: Rule, wb_dirty: u64) -> Decision
    requires pages { wb_dirty < 2 ^ 33 }
    requires poll { 1 ≤ rule.poll }
    requires ratio { rule.ratio < 2 ^ 32 }
    ensures { result.pause ≤ 200 }
{
    let estimate = Estimate {
        version: 0,
        bw: 25600,
        avg: 25600,
        ratelimit: 25600,
        balanced: 25600,
        written_stamp: 0,
        dirtied_stamp: 0,
        at: 0,
    };
    let task = Task {
        nr_dirtied: 100,
        nr_dirtied_pause: 100,
        paused_when: 5000,
    };
    finish(&rule, wb_dirty, 4, 1024, &estimate, task, 5000)
}

#[test]
fn is_free_where_the_rule_says_so(rt: HostRuntime) {
    let decision = by(Rule { free: true, ..SLOW }, 1000);
    assert!(rt; decision.kind == Kind::Free);
    assert_eq!(rt;
        (decision.pause, decision.left, decision.exceeded),
        (0, 8, false)
    );
}

#[test]
fn goes_at_half_the_rate(rt: HostRuntime) {
    let decision = by(SLOW, 10000);
    assert!(rt; decision.kind == Kind::Go);
    assert_eq!(rt; (decision.pause, decision.exceeded), (7, true));
}

#[test]
fn rests_without_a_rate(rt: HostRuntime) {
    let none = Rule { ratio: 0, ..SLOW };
    let exempt = by(none, 96);
    assert!(rt; exempt.kind == Kind::Exempt);
    assert_eq!(rt; (exempt.pause, exempt.left), (1, 1));
    let wait = by(none, 97);
    assert!(rt; wait.kind == Kind::Wait);
    assert_eq!(rt; (wait.pause, wait.left), (1, 0));
}
