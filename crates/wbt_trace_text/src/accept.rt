//! Taking a line after the lines before it.

ghost use Rattle.std.specs.Prelude.{◌≡◌, ◌+◌, nat_lt, IfOk};
ghost use Rattle.wbt_trace_text.specs.Accept as spec;
ghost use Rattle.wbt_trace_text.specs.Lines.{IsOfContext, IsOfDevice, SaysWhatHappens};
ghost use Rattle.wbt_trace_text.specs.Seen.{Gives, seen};
ghost use Rattle.wbt_trace.specs.Sofar.{start};
ghost use Rattle.wbt_trace_text.specs.declared.fault.AcceptError.TheVariants.{Refused};

use crate::builder::Builder;
use crate::fault::{AcceptError, Refusal};
use crate::line::Line;
use std::alloc::{AllocError, Global};
use wbt_trace::Writers;

/// A line is refused.
pub fn refused(refusal: Refusal) -> Result<(), AcceptError>
    ensures { result ≡ Err (Refused refusal) }
{
    Err(AcceptError::Refused(refusal))
}

/// Whether two numbers together are above so many.
pub fn are_above(a: u64, b: u64, most: u64) -> bool
    ensures { result ≡ nat_lt most (a + b) }
{
    a > most || b > most - a
}

impl Builder {
    /// Before the first line.
    pub fn new(alloc: Global) -> Result<Builder, AllocError>
        ensures { IfOk result (λ builder. seen builder ≡ start) }
    {
        Ok(Builder {
            cpus: None,
            cap: None,
            ratio: None,
            bg_ratio: None,
            bytes: None,
            bg_bytes: None,
            avail: Vec::new(alloc),
            devices: Vec::new(alloc),
            cgroups: Vec::new(alloc),
            contexts: Vec::new(alloc),
            inodes: Vec::new(alloc),
            tasks: Vec::new(alloc),
            flushers: Vec::new(alloc),
            actions: Vec::new(alloc),
            writers: Writers::new(alloc)?,
            order: Vec::new(alloc),
            halt: None,
            last_from: None,
            least: 0,
            pages: 0,
        })
    }

    /// Takes the next line, or names the lowest fault that it has.
    pub fn accept(&mut self, line: &Line) -> Result<(), AcceptError>
        ensures { Gives result (seen self.new) (spec.accept line.now (seen self.old)) }
    {
        match line {
            Line::Cpus { cpus } => self.cpus(*cpus),
            Line::Cap { pages } => self.cap(*pages),
            Line::DirtyRatio { percent } => self.dirty_ratio(*percent),
            Line::BackgroundRatio { percent } => self.background_ratio(*percent),
            Line::DirtyBytes { bytes } => self.dirty_bytes(*bytes),
            Line::BackgroundBytes { bytes } => self.background_bytes(*bytes),
            Line::Avail { from, pages } => self.avail(*from, *pages),
            Line::Device { .. } | Line::Strict { .. } | Line::Chunk { .. } | Line::Cyclic { .. } =>
                { self.accept_of_device(line) }
            Line::Cgroup {
                cgroup,
                filepages,
                headroom,
            } => self.cgroup(*cgroup, *filepages, *headroom),
            Line::Context { .. } | Line::Expire { .. } | Line::Estimate { .. } => {
                self.accept_of_context(line)
            }
            Line::Inode {
                inode,
                context,
                pages,
            } => self.inode(*inode, *context, *pages),
            Line::Task { task, cpu } => self.task(*task, *cpu),
            Line::Pace { task, pages, ticks } => self.pace(*task, *pages, *ticks),
            Line::Flusher {
                flusher,
                device,
                cpu,
            } => self.flusher(*flusher, *device, *cpu),
            Line::Write { .. }
            | Line::Rest { .. }
            | Line::Order { .. }
            | Line::OrderTimer { .. }
            | Line::Tick { .. } => self.accept_happening(line),
            Line::Halt { steps } => self.halt(*steps),
        }
    }

    fn accept_of_device(&mut self, line: &Line) -> Result<(), AcceptError>
        requires device { IsOfDevice line.now }
        ensures { Gives result (seen self.new) (spec.accept line.now (seen self.old)) }
    {
        match line {
            Line::Device {
                device,
                rate,
                min,
                max,
            } => self.device(*device, *rate, *min, *max),
            Line::Strict { device } => self.strict(*device),
            Line::Chunk { device, pages } => self.chunk(*device, *pages),
            Line::Cyclic { device } => self.cyclic(*device),
            _ => unreachable!(),
        }
    }

    fn accept_of_context(&mut self, line: &Line) -> Result<(), AcceptError>
        requires context { IsOfContext line.now }
        ensures { Gives result (seen self.new) (spec.accept line.now (seen self.old)) }
    {
        match line {
            Line::Context {
                context,
                device,
                domain,
            } => self.context(*context, *device, *domain),
            Line::Expire { context, centi } => self.expire(*context, *centi),
            Line::Estimate {
                context,
                bandwidth,
                average,
                ratelimit,
            } => self.estimate(*context, *bandwidth, *average, *ratelimit),
            _ => unreachable!(),
        }
    }

    fn accept_happening(&mut self, line: &Line) -> Result<(), AcceptError>
        requires happens { SaysWhatHappens line.now }
        ensures { Gives result (seen self.new) (spec.accept line.now (seen self.old)) }
    {
        match line {
            Line::Write {
                task,
                inode,
                from,
                pages,
            } => self.write(*task, *inode, *from, *pages),
            Line::Rest { task, ticks } => self.rest(*task, *ticks),
            Line::Order { cpu, steps } => self.order(*cpu, *steps),
            Line::OrderTimer { steps } => self.order_timer(*steps),
            Line::Tick { ticks } => self.tick(*ticks),
            _ => unreachable!(),
        }
    }
}
