//! Lines that say what happens: what tasks do, and the order that is forced on a replay.

ghost use Rattle.std.specs.Prelude.{◌≡◌, ◌<◌};
ghost use Rattle.wbt_trace_text.specs.Accept as spec;
ghost use Rattle.wbt_trace_text.specs.Seen.{Gives, GivesWriters, seen};

use crate::accept::{are_above, refused};
use crate::builder::Builder;
use crate::fault::{AcceptError, Refusal};
use crate::line::Line;
use wbt_num::{MOST_ACTIONS, MOST_CONTEXTS, MOST_ORDER_LINES, MOST_TASKS, MOST_WRITERS};
use wbt_trace::{Action, MOST_COUNT, Order};

// Whether a number is not from 1 to the most ticks or steps.
fn is_no_count(n: u64) -> bool
    ensures { result ≡ spec.is_no_count n }
{
    n == 0 || n > MOST_COUNT
}

impl Builder {
    // Makes the pair a writer, where a trace may have one more.
    fn add_writer(&mut self, task: u32, context: u32) -> Result<(), AcceptError>
        requires task { task < MOST_TASKS }
        requires context { context < MOST_CONTEXTS }
        ensures { GivesWriters task context (seen self.old) (seen self.new) result }
    {
        if self.writers.contains(task, context) {
            return Ok(());
        }
        if self.writers.len() >= MOST_WRITERS {
            return refused(Refusal::Limit);
        }
        match self.writers.add(task, context) {
            Ok(()) => Ok(()),
            Err(_) => Err(AcceptError::NoMemory),
        }
    }

    pub fn write(&mut self, task: u64, inode: u64, from: u64, pages: u64) -> Result<(), AcceptError>
        ensures { Gives result (seen self.new) (spec.accept (Line.Write task inode from pages) (seen self.old)) }
    {
        if task >= self.tasks.len() as u64 || inode >= self.inodes.len() as u64 {
            return refused(Refusal::UnknownName);
        }
        let written = self.inodes[inode as usize];
        if pages == 0 || are_above(from, pages, written.pages as u64) {
            return refused(Refusal::OutOfRange);
        }
        if self.actions.len() >= MOST_ACTIONS {
            return refused(Refusal::Limit);
        }
        self.add_writer(task as u32, written.context)?;
        self.actions.push(Action::Write {
            task: task as u32,
            inode: inode as u32,
            from: from as u32,
            pages: pages as u32,
        })?;
        Ok(())
    }

    pub fn rest(&mut self, task: u64, ticks: u64) -> Result<(), AcceptError>
        ensures { Gives result (seen self.new) (spec.accept (Line.Rest task ticks) (seen self.old)) }
    {
        if task >= self.tasks.len() as u64 {
            return refused(Refusal::UnknownName);
        }
        if is_no_count(ticks) {
            return refused(Refusal::OutOfRange);
        }
        if self.actions.len() >= MOST_ACTIONS {
            return refused(Refusal::Limit);
        }
        self.actions.push(Action::Rest {
            task: task as u32,
            ticks,
        })?;
        Ok(())
    }

    pub fn order(&mut self, cpu: u64, steps: u64) -> Result<(), AcceptError>
        ensures { Gives result (seen self.new) (spec.accept (Line.Order cpu steps) (seen self.old)) }
    {
        let Some(cpus) = self.cpus else {
            return refused(Refusal::UnknownName);
        };
        if cpu >= cpus as u64 || is_no_count(steps) {
            return refused(Refusal::OutOfRange);
        }
        if self.order.len() >= MOST_ORDER_LINES {
            return refused(Refusal::Limit);
        }
        self.order.push(Order::Steps {
            cpu: cpu as u32,
            steps,
        })?;
        Ok(())
    }

    pub fn order_timer(&mut self, steps: u64) -> Result<(), AcceptError>
        ensures { Gives result (seen self.new) (spec.accept (Line.OrderTimer steps) (seen self.old)) }
    {
        if is_no_count(steps) {
            return refused(Refusal::OutOfRange);
        }
        if self.order.len() >= MOST_ORDER_LINES {
            return refused(Refusal::Limit);
        }
        self.order.push(Order::Timer { steps })?;
        Ok(())
    }

    pub fn tick(&mut self, ticks: u64) -> Result<(), AcceptError>
        ensures { Gives result (seen self.new) (spec.accept (Line.Tick ticks) (seen self.old)) }
    {
        if is_no_count(ticks) {
            return refused(Refusal::OutOfRange);
        }
        if self.order.len() >= MOST_ORDER_LINES {
            return refused(Refusal::Limit);
        }
        self.order.push(Order::Tick { ticks })?;
        Ok(())
    }
}
