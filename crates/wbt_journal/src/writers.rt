//! The writers of a trace in order of task and then of context, which is the order of their numbers in the throttle.

ghost use Rattle.std.specs.Prelude.{◌≡◌, ◌<◌, ◌≤◌, ◌++◌, ◌∷◌, [], All, length, IfOk, OnOk};
ghost use Rattle.wbt_trace.specs.Lawful.{IsLawful, IsAction, writers_of, writers_after};
ghost use Rattle.wbt_trace.specs.WriterList.{writers_from, writers_of_task};
ghost use Rattle.wbt_num.specs.declared.most.TheConstants.{MOST_CONTEXTS, MOST_TASKS};
ghost use Rattle.wbt_journal.specs.Side.{all_writers};

use std::alloc::Global;
use wbt_num::{Items, NoMemory};
use wbt_rules::context_of;
use wbt_trace::{Action, Trace, Writer, Writers};

/// The writers: each task in order, and of each the contexts whose pages it writes, in order. A writer's place is its number in
/// the throttle.
pub fn writers_in_order(alloc: Global, trace: &Trace) -> Result<Items<Writer>, NoMemory>
    requires { IsLawful trace.now }
    ensures { IfOk result (λ writers. writers ≡ all_writers trace.now) }
{
    let known = known_writers(alloc, trace)?;
    let tasks = trace.tasks.as_slice().len() as u32;
    let contexts = trace.contexts.as_slice().len() as u32;
    let mut writers = Items::new(alloc);
    push_in_order(&mut writers, &known, tasks, contexts)?;
    Ok(writers)
}

// The writers of so many tasks, each task in order.
fn push_in_order(
    writers: &mut Items<Writer>,
    known: &Writers,
    tasks: u32,
    contexts: u32,
) -> Result<(), NoMemory>
    requires tasks { tasks ≤ MOST_TASKS }
    requires contexts { contexts ≤ MOST_CONTEXTS }
    ensures { OnOk result (writers.new ≡ writers.old ++ writers_from 0 tasks contexts known.now) }
{
    for task in 0..tasks {
        push_of_task(writers, known, task, contexts)?;
    }
    Ok(())
}

// The writers of one task, in order of context.
fn push_of_task(
    writers: &mut Items<Writer>,
    known: &Writers,
    task: u32,
    contexts: u32,
) -> Result<(), NoMemory>
    requires task { task < MOST_TASKS }
    requires contexts { contexts ≤ MOST_CONTEXTS }
    ensures { OnOk result (writers.new ≡ writers.old ++ writers_of_task task 0 contexts known.now) }
{
    for context in 0..contexts {
        if known.contains(task, context) {
            writers.push(Writer { task, context })?;
        }
    }
    Ok(())
}

// The writers of all actions, in the order in which they come.
fn known_writers(alloc: Global, trace: &Trace) -> Result<Writers, NoMemory>
    requires { IsLawful trace.now }
    ensures { IfOk result (λ known. known ≡ writers_of trace.now.inodes trace.now.actions) }
{
    let mut known = Writers::new(alloc)?;
    for action in trace.actions.as_slice() {
        add_of_action(&mut known, trace, action)?;
    }
    Ok(known)
}

fn add_of_action(known: &mut Writers, trace: &Trace, action: &Action) -> Result<(), NoMemory>
    requires tasks { length trace.now.tasks ≤ MOST_TASKS }
    requires contexts { length trace.now.contexts ≤ MOST_CONTEXTS }
    requires inodes { All (λ inode. inode.context < length trace.now.contexts) trace.now.inodes }
    requires action { IsAction (length trace.now.tasks) trace.now.inodes action.now }
    ensures { OnOk result (known.new ≡ writers_after known.old trace.now.inodes (action.now ∷ [])) }
{
    match *action {
        Action::Rest { .. } => Ok(()),
        Action::Write { task, inode, .. } => {
            let context = context_of(trace, inode);
            if known.contains(task, context) {
                return Ok(());
            }
            known.add(task, context)?;
            Ok(())
        }
    }
}
