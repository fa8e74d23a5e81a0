//! Writing a trace.

ghost use Rattle.std.specs.Prelude.{◌≡◌, ◌<◌, ◌+◌, ◌^◌, ◌++◌, ◌∷◌, [], ℕ, length, string_bytes, OnOk, IfOk};
ghost use Rattle.wbt_trace.specs.Lawful.{IsLawful};
ghost use Rattle.wbt_trace_text.specs.Reading.{IsAnswer};
ghost use Rattle.wbt_trace_text.specs.RoundTrip.{WrittenIsRead};
ghost use Rattle.wbt_trace_text.specs.Writing as spec;
ghost use Rattle.wbt_trace_text.specs.declared.line.Line.{Line as LineValue};

use crate::line::Line;
use std::alloc::{AllocError, Global};
use std::fmt::Write;
use wbt_num::NoMemory;
use wbt_trace::{
    Action, Avail, Cgroup, Context, Device, FlusherLine, Inode, Order, TaskLine, Trace,
};

/// The text of a lawful trace tells that trace, so it is read again as it was.
pub fn written_is_read()
    ensures { WrittenIsRead }
{}

// A thing that a line declares.
trait Listed {
    /// The line of the thing, by the thing's number.
    ghost line: { ℕ → Self → LineValue };

    fn line(&self, number: u64) -> Line
        ensures { result ≡ line number self.now };
}

impl Listed for Avail {
    ghost line = { spec.avail_line };

    fn line(&self, _number: u64) -> Line {
        Line::Avail {
            from: self.from,
            pages: self.pages,
        }
    }
}

impl Listed for Device {
    ghost line = { spec.device_line };

    fn line(&self, number: u64) -> Line {
        Line::Device {
            device: number,
            rate: self.rate,
            min: self.min as u64,
            max: self.max as u64,
        }
    }
}

impl Listed for Cgroup {
    ghost line = { spec.cgroup_line };

    fn line(&self, number: u64) -> Line {
        Line::Cgroup {
            cgroup: number,
            filepages: self.filepages,
            headroom: self.headroom,
        }
    }
}

impl Listed for Context {
    ghost line = { spec.context_line };

    fn line(&self, number: u64) -> Line {
        Line::Context {
            context: number,
            device: self.device as u64,
            domain: self.domain as u64,
        }
    }
}

impl Listed for Inode {
    ghost line = { spec.inode_line };

    fn line(&self, number: u64) -> Line {
        Line::Inode {
            inode: number,
            context: self.context as u64,
            pages: self.pages as u64,
        }
    }
}

impl Listed for TaskLine {
    ghost line = { spec.task_line };

    fn line(&self, number: u64) -> Line {
        Line::Task {
            task: number,
            cpu: self.cpu as u64,
        }
    }
}

impl Listed for FlusherLine {
    ghost line = { spec.flusher_line };

    fn line(&self, number: u64) -> Line {
        Line::Flusher {
            flusher: number,
            device: self.device as u64,
            cpu: self.cpu as u64,
        }
    }
}

impl Listed for Action {
    ghost line = { spec.action_line };

    fn line(&self, _number: u64) -> Line {
        match self {
            Action::Write {
                task,
                inode,
                from,
                pages,
            } => Line::Write {
                task: *task as u64,
                inode: *inode as u64,
                from: *from as u64,
                pages: *pages as u64,
            },
            Action::Rest { task, ticks } => Line::Rest {
                task: *task as u64,
                ticks: *ticks,
            },
        }
    }
}

impl Listed for Order {
    ghost line = { spec.order_line };

    fn line(&self, _number: u64) -> Line {
        match self {
            Order::Steps { cpu, steps } => Line::Order {
                cpu: *cpu as u64,
                steps: *steps,
            },
            Order::Timer { steps } => Line::OrderTimer { steps: *steps },
            Order::Tick { ticks } => Line::Tick { ticks: *ticks },
        }
    }
}

// Writes one line.
fn put_line(text: &mut String, line: &Line) -> Result<(), AllocError>
    ensures { OnOk result (string_bytes text.new ≡ string_bytes text.old ++ spec.lines_text (line.now ∷ [])) }
{
    writeln!(text, "{line}")?;
    Ok(())
}

// Writes the lines of things that are numbered from `first` on.
fn put_things<T: Listed>(text: &mut String, first: u64, things: &[T]) -> Result<(), AllocError>
    requires { first + length things.now < 2 ^ 64 }
    ensures { OnOk result (string_bytes text.new ≡ string_bytes text.old ++ spec.lines_text (spec.numbered T.line first things.now)) }
{
    let mut number = first;
    for thing in things {
        put_line(text, &thing.line(number))?;
        number += 1;
    }
    Ok(())
}

// Writes the line that says that the device is strict, where it is.
fn put_strict(text: &mut String, number: u64, device: &Device) -> Result<(), AllocError>
    ensures { OnOk result (string_bytes text.new ≡ string_bytes text.old ++ spec.lines_text (spec.strict_line number device.now)) }
{
    if device.strict {
        put_line(text, &Line::Strict { device: number })
    } else {
        Ok(())
    }
}

// Writes which devices are strict.
#[tactic(auto, using(crate::proofs::Texts::lines_text_append))]
fn put_stricts(text: &mut String, devices: &[Device]) -> Result<(), AllocError>
    requires { length devices.now < 2 ^ 64 }
    ensures { OnOk result (string_bytes text.new ≡ string_bytes text.old ++ spec.lines_text (spec.strict_lines 0 devices.now)) }
{
    let mut number = 0;
    for device in devices {
        put_strict(text, number, device)?;
        number += 1;
    }
    Ok(())
}

// Writes the line of the device's chunk, where it has one.
fn put_chunk(text: &mut String, number: u64, device: &Device) -> Result<(), AllocError>
    ensures { OnOk result (string_bytes text.new ≡ string_bytes text.old ++ spec.lines_text (spec.chunk_line number device.now.chunk)) }
{
    match device.chunk {
        None => Ok(()),
        Some(pages) => put_line(
            text,
            &Line::Chunk {
                device: number,
                pages: pages as u64,
            },
        ),
    }
}

// Writes the chunks of devices.
#[tactic(auto, using(crate::proofs::Texts::lines_text_append))]
fn put_chunks(text: &mut String, devices: &[Device]) -> Result<(), AllocError>
    requires { length devices.now < 2 ^ 64 }
    ensures { OnOk result (string_bytes text.new ≡ string_bytes text.old ++ spec.lines_text (spec.chunk_lines 0 devices.now)) }
{
    let mut number = 0;
    for device in devices {
        put_chunk(text, number, device)?;
        number += 1;
    }
    Ok(())
}

// Writes the line that says that scans for the device go round, where they do.
fn put_cyclic(text: &mut String, number: u64, device: &Device) -> Result<(), AllocError>
    ensures { OnOk result (string_bytes text.new ≡ string_bytes text.old ++ spec.lines_text (spec.cyclic_line number device.now)) }
{
    if device.cyclic {
        put_line(text, &Line::Cyclic { device: number })
    } else {
        Ok(())
    }
}

// Writes for which devices scans go round.
#[tactic(auto, using(crate::proofs::Texts::lines_text_append))]
fn put_cyclics(text: &mut String, devices: &[Device]) -> Result<(), AllocError>
    requires { length devices.now < 2 ^ 64 }
    ensures { OnOk result (string_bytes text.new ≡ string_bytes text.old ++ spec.lines_text (spec.cyclic_lines 0 devices.now)) }
{
    let mut number = 0;
    for device in devices {
        put_cyclic(text, number, device)?;
        number += 1;
    }
    Ok(())
}

// Writes the line of the task's pace, where it has one.
fn put_pace(text: &mut String, number: u64, task: &TaskLine) -> Result<(), AllocError>
    ensures { OnOk result (string_bytes text.new ≡ string_bytes text.old ++ spec.lines_text (spec.pace_line number task.now.pace)) }
{
    match task.pace {
        None => Ok(()),
        Some(pace) => put_line(
            text,
            &Line::Pace {
                task: number,
                pages: pace.pages as u64,
                ticks: pace.ticks,
            },
        ),
    }
}

// Writes the paces of tasks.
#[tactic(auto, using(crate::proofs::Texts::lines_text_append))]
fn put_paces(text: &mut String, tasks: &[TaskLine]) -> Result<(), AllocError>
    requires { length tasks.now < 2 ^ 64 }
    ensures { OnOk result (string_bytes text.new ≡ string_bytes text.old ++ spec.lines_text (spec.pace_lines 0 tasks.now)) }
{
    let mut number = 0;
    for task in tasks {
        put_pace(text, number, task)?;
        number += 1;
    }
    Ok(())
}

// Writes the line of when the context's inodes are due, where it says it.
fn put_expire(text: &mut String, number: u64, context: &Context) -> Result<(), AllocError>
    ensures { OnOk result (string_bytes text.new ≡ string_bytes text.old ++ spec.lines_text (spec.expire_line number context.now.expire)) }
{
    match context.expire {
        None => Ok(()),
        Some(centi) => put_line(
            text,
            &Line::Expire {
                context: number,
                centi: centi as u64,
            },
        ),
    }
}

// Writes after how long the inodes of contexts are due.
#[tactic(auto, using(crate::proofs::Texts::lines_text_append))]
fn put_expires(text: &mut String, contexts: &[Context]) -> Result<(), AllocError>
    requires { length contexts.now < 2 ^ 64 }
    ensures { OnOk result (string_bytes text.new ≡ string_bytes text.old ++ spec.lines_text (spec.expire_lines 0 contexts.now)) }
{
    let mut number = 0;
    for context in contexts {
        put_expire(text, number, context)?;
        number += 1;
    }
    Ok(())
}

// Writes the line of the context's first estimate, where it says it.
fn put_estimate(text: &mut String, number: u64, context: &Context) -> Result<(), AllocError>
    ensures { OnOk result (string_bytes text.new ≡ string_bytes text.old ++ spec.lines_text (spec.estimate_line number context.now.estimate)) }
{
    match context.estimate {
        None => Ok(()),
        Some(first) => put_line(
            text,
            &Line::Estimate {
                context: number,
                bandwidth: first.bandwidth,
                average: first.average,
                ratelimit: first.ratelimit,
            },
        ),
    }
}

// Writes the first estimates of contexts.
#[tactic(auto, using(crate::proofs::Texts::lines_text_append))]
fn put_estimates(text: &mut String, contexts: &[Context]) -> Result<(), AllocError>
    requires { length contexts.now < 2 ^ 64 }
    ensures { OnOk result (string_bytes text.new ≡ string_bytes text.old ++ spec.lines_text (spec.estimate_lines 0 contexts.now)) }
{
    let mut number = 0;
    for context in contexts {
        put_estimate(text, number, context)?;
        number += 1;
    }
    Ok(())
}

// Writes the lines that each trace has once.
fn put_settings(text: &mut String, trace: &Trace) -> Result<(), AllocError>
    ensures { OnOk result (string_bytes text.new ≡ string_bytes text.old ++ spec.lines_text (spec.setting_lines trace.now)) }
{
    let settings = trace.settings;
    put_line(
        text,
        &Line::Cpus {
            cpus: trace.cpus as u64,
        },
    )?;
    put_line(
        text,
        &Line::Cap {
            pages: trace.cap as u64,
        },
    )?;
    put_line(
        text,
        &Line::DirtyRatio {
            percent: settings.ratio as u64,
        },
    )?;
    put_line(
        text,
        &Line::BackgroundRatio {
            percent: settings.bg_ratio as u64,
        },
    )?;
    put_line(
        text,
        &Line::DirtyBytes {
            bytes: settings.bytes,
        },
    )?;
    put_line(
        text,
        &Line::BackgroundBytes {
            bytes: settings.bg_bytes,
        },
    )?;
    Ok(())
}

fn put_halt(text: &mut String, halt: Option<u64>) -> Result<(), AllocError>
    ensures { OnOk result (string_bytes text.new ≡ string_bytes text.old ++ spec.lines_text (spec.halt_lines halt)) }
{
    match halt {
        None => Ok(()),
        Some(steps) => put_line(text, &Line::Halt { steps }),
    }
}

fn text_of(alloc: Global, trace: &Trace) -> Result<String, AllocError>
    requires { IsLawful trace.now }
    ensures { IfOk result (λ text. string_bytes text ≡ spec.trace_text trace.now) }
{
    let mut text = String::new(alloc);
    put_settings(&mut text, trace)?;
    put_things(&mut text, 0, trace.avail.as_slice())?;
    put_things(&mut text, 0, trace.devices.as_slice())?;
    put_stricts(&mut text, trace.devices.as_slice())?;
    put_chunks(&mut text, trace.devices.as_slice())?;
    put_cyclics(&mut text, trace.devices.as_slice())?;
    put_things(&mut text, 1, trace.cgroups.as_slice())?;
    put_things(&mut text, 0, trace.contexts.as_slice())?;
    put_expires(&mut text, trace.contexts.as_slice())?;
    put_estimates(&mut text, trace.contexts.as_slice())?;
    put_things(&mut text, 0, trace.inodes.as_slice())?;
    put_things(&mut text, 0, trace.tasks.as_slice())?;
    put_paces(&mut text, trace.tasks.as_slice())?;
    put_things(&mut text, 0, trace.flushers.as_slice())?;
    put_things(&mut text, 0, trace.actions.as_slice())?;
    put_things(&mut text, 0, trace.order.as_slice())?;
    put_halt(&mut text, trace.halt)?;
    Ok(text)
}

/// The text of a trace: each line that stands once, also where it says the default, and then each thing in order; which devices are
/// strict is said after all of them, then their chunks, and then which are cyclic; after all contexts, after how long their inodes are
/// due, and then what their first estimates are; and after all tasks, the paces of those that have one.
pub fn write_trace(alloc: Global, trace: &Trace) -> Result<Vec<u8>, NoMemory>
    requires { IsLawful trace.now }
    ensures text { IfOk result (λ text. text.items ≡ spec.trace_text trace.now) }
    // Reading what is written gives the trace.
    ensures again { IfOk result (λ text. IsAnswer text.items (Ok trace.now)) }
{
    match text_of(alloc, trace) {
        Ok(text) => Ok(text.into_bytes()),
        Err(_) => Err(NoMemory),
    }
}
