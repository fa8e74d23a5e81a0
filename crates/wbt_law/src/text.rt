//! The text of a decision.

ghost use Rattle.std.specs.Prelude.{◌≡◌, ◌++◌, string_bytes, OnOk, IfOk, Option, ℕ};
ghost use Rattle.wbt_num.specs.Limits.{IsLawful};
ghost use Rattle.wbt_law.specs.Law.{IsDecidable};
ghost use Rattle.wbt_law.specs.Text as spec;

use crate::input::LawInput;
use std::alloc::{AllocError, Global};
use std::fmt::Write;
use wbt_num::NoMemory;
use wbt_pause::{Decision, Kind, Task, decide};
use wbt_position::{DomainRead, position};

fn word(kind: Kind) -> &'static str
    ensures { result.now ≡ spec.kind_word kind }
{
    match kind {
        Kind::Free => "free",
        Kind::Go => "go",
        Kind::Exempt => "exempt",
        Kind::Wait => "wait",
    }
}

fn ratio(law: &LawInput, domain: &DomainRead) -> u64
    requires lawful { IsLawful domain.now.limits }
    requires decidable { IsDecidable law.now }
    ensures { result ≡ spec.ratio_in law.entry.now domain.now }
{
    position(domain, law.reads.wb_dirty, law.estimate.avg)
}

fn put_ratios(text: &mut String, global: u64, cgroup: Option<u64>) -> Result<(), AllocError>
    ensures { OnOk result (string_bytes text.new ≡ string_bytes text.old ++ spec.ratio_line global cgroup) }
{
    match cgroup {
        None => writeln!(text, "ratio {global}")?,
        Some(cgroup) => writeln!(text, "ratio {global} {cgroup}")?,
    }
    Ok(())
}

fn put_decision(text: &mut String, decision: &Decision) -> Result<(), AllocError>
    ensures { OnOk result (string_bytes text.new ≡ string_bytes text.old ++ spec.decision_line decision.now) }
{
    let kind = word(decision.kind);
    let pause = decision.pause;
    let left = decision.left;
    writeln!(text, "decision {kind} {pause} {left}")?;
    Ok(())
}

fn put_task(text: &mut String, task: Task) -> Result<(), AllocError>
    ensures { OnOk result (string_bytes text.new ≡ string_bytes text.old ++ spec.task_line task) }
{
    let dirtied = task.nr_dirtied;
    let allowance = task.nr_dirtied_pause;
    let when = task.paused_when;
    writeln!(text, "task {dirtied} {allowance} {when}")?;
    Ok(())
}

fn cgroup_ratio(law: &LawInput) -> Option<u64>
    requires { IsDecidable law.now }
    ensures { result ≡ spec.cgroup_ratio law.entry.now }
{
    match law.reads.cgroup {
        None => None,
        Some(cgroup) => Some(ratio(law, &cgroup)),
    }
}

/// The position ratio of each domain, the decision, and the writer's numbers after it, a line each.
pub fn law_text(alloc: Global, law: &LawInput) -> Result<String, NoMemory>
    requires { IsDecidable law.now }
    ensures { IfOk result (λ text. string_bytes text ≡ spec.law_text law.entry.now) }
{
    let mut text = String::new(alloc);
    put_ratios(&mut text, ratio(law, &law.reads.global), cgroup_ratio(law))?;
    let decision = decide(&law.reads, &law.estimate, law.task, law.now);
    put_decision(&mut text, &decision)?;
    put_task(&mut text, decision.task)?;
    Ok(text)
}
