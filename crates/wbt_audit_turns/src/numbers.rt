//! The numbers of a trace's writers.

ghost use Rattle.std.specs.Prelude.{ℕ, ◌≡◌, ◌+◌, ◌*◌, ◌<◌, ◌^◌, [], get_or, length, IfOk};
ghost use Rattle.wbt_journal.specs.Side.{number_from, numbers_from};
ghost use Rattle.wbt_num.specs.declared.most.TheConstants.{MOST_CONTEXTS, MOST_TASKS};
ghost use Rattle.wbt_trace.specs.Lawful.{IsLawful};
ghost use Rattle.wbt_audit_turns.specs.Naming.{AreInRange};
ghost use Rattle.wbt_audit_turns.specs.Sides.{AreNumbersOf};

use std::alloc::Global;
use wbt_journal::writers_in_order;
use wbt_num::{Items, MOST_CONTEXTS, MOST_TASKS, NoMemory};
use wbt_trace::{Trace, Writer};

/// The numbers of the writers, which are counted in order of task and then of context.
#[derive(Drop)]
pub struct Numbers {
    /// How many writers there are.
    pub count: u32,
    /// The number of a task's writer of a context, at the most contexts times the task's number and the context's; that of no writer
    /// where there is none.
    pub table: Vec<u32>,
    /// The numbers of each task's writers, in order.
    pub of_tasks: Vec<Items<u32>>,
}

/// The numbers of a trace's writers.
pub fn numbers_of(alloc: Global, trace: &Trace) -> Result<Numbers, NoMemory>
    requires lawful { IsLawful trace.now }
    ensures { IfOk result (λ numbers. AreNumbersOf trace.now numbers) }
{
    let writers = writers_in_order(alloc, trace)?;
    let names = writers.as_slice();
    Ok(Numbers {
        count: names.len() as u32,
        table: table_of(alloc, names)?,
        of_tasks: numbers_of_tasks(alloc, trace.tasks.as_slice().len(), names)?,
    })
}

// The last writer is put first, so that of two that were equal the first would be found.
fn table_of(alloc: Global, names: &[Writer]) -> Result<Vec<u32>, NoMemory>
    requires few { length names.now < 2 ^ 32 }
    requires range { AreInRange names.now }
    ensures long { IfOk result (λ table. length table.items ≡ MOST_TASKS * MOST_CONTEXTS) }
    ensures each { IfOk result (λ table. (task context : ℕ) → task < MOST_TASKS → context < MOST_CONTEXTS → get_or table.items (MOST_CONTEXTS * task + context) 0 ≡ number_from task context 0 names.now) }
{
    let mut table = no_numbers(alloc, MOST_TASKS * MOST_CONTEXTS, names.len() as u32)?;
    let mut number = names.len();
    while number > 0 {
        number -= 1;
        let Writer { task, context } = names[number];
        table[MOST_CONTEXTS * task as usize + context as usize] = number as u32;
    }
    Ok(table)
}

// The number of no writer, so many times.
fn no_numbers(alloc: Global, count: usize, none: u32) -> Result<Vec<u32>, NoMemory>
    ensures long { IfOk result (λ table. length table.items ≡ count) }
    ensures each { IfOk result (λ table. (place : ℕ) → place < count → get_or table.items place 0 ≡ none) }
{
    let mut table = Vec::with_capacity(alloc, count)?;
    for _place in 0..count {
        table.push(none)?;
    }
    Ok(table)
}

fn numbers_of_tasks(
    alloc: Global,
    tasks: usize,
    names: &[Writer],
) -> Result<Vec<Items<u32>>, NoMemory>
    requires few { length names.now < 2 ^ 32 }
    requires tasks { tasks < 2 ^ 32 }
    ensures long { IfOk result (λ of_tasks. length of_tasks.items ≡ tasks) }
    ensures each { IfOk result (λ of_tasks. (task : ℕ) → task < tasks → get_or of_tasks.items task [] ≡ numbers_from task 0 names.now) }
{
    let mut of_tasks = Vec::new(alloc);
    for task in 0..tasks {
        of_tasks.push(numbers_of_task(alloc, task as u32, names)?)?;
    }
    Ok(of_tasks)
}

fn numbers_of_task(alloc: Global, task: u32, names: &[Writer]) -> Result<Items<u32>, NoMemory>
    requires few { length names.now < 2 ^ 32 }
    ensures { IfOk result (λ numbers. numbers ≡ numbers_from task 0 names.now) }
{
    let mut numbers = Items::new(alloc);
    for number in 0..names.len() {
        if names[number].task == task {
            numbers.push(number as u32)?;
        }
    }
    Ok(numbers)
}
