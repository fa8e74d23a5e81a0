//! Lines that declare things: available pages, devices, which of them are strict, which have a chunk and which are cyclic, cgroups,
//! contexts, after how long their inodes are due and what their first estimates are, inodes, tasks, their paces, and flushers.

ghost use Rattle.std.specs.Prelude.{◌≡◌};
ghost use Rattle.wbt_trace_text.specs.Accept as spec;
ghost use Rattle.wbt_trace_text.specs.Seen.{Gives, seen};

use crate::accept::{are_above, refused};
use crate::builder::Builder;
use crate::fault::{AcceptError, Refusal};
use crate::line::Line;
use wbt_num::{
    MOST_AVAIL_LINES, MOST_CGROUPS, MOST_CONTEXTS, MOST_DEVICES, MOST_FLUSHERS, MOST_INODES,
    MOST_PAGES, MOST_TASKS,
};
use wbt_trace::{
    Avail, Cgroup, Context, Device, FirstEstimate, FlusherLine, Inode, MOST_AVAIL_PAGES,
    MOST_COUNT, MOST_DEVICE_RATE, MOST_EXPIRE, MOST_FIRST_RATE, MOST_PERCENT, Pace, TaskLine,
};

// Whether the tick of a line of available pages is not above the one before, or not 0 on the first.
fn is_too_early(tick: u64, last: Option<u64>) -> bool
    ensures { result ≡ spec.is_too_early tick last }
{
    match last {
        None => tick > 0,
        Some(last) => tick <= last,
    }
}

// Whether a number is no rate that a first estimate may say.
fn is_no_rate(rate: u64) -> bool
    ensures { result ≡ spec.is_no_rate rate }
{
    rate == 0 || rate > MOST_FIRST_RATE
}

impl Builder {
    #[tactic(auto, using(crate::proofs::Avails::last_from_push))]
    pub fn avail(&mut self, from: u64, pages: u64) -> Result<(), AcceptError>
        ensures { Gives result (seen self.new) (spec.accept (Line.Avail from pages) (seen self.old)) }
    {
        if is_too_early(from, self.last_from) || from > MOST_COUNT || pages > MOST_AVAIL_PAGES {
            return refused(Refusal::OutOfRange);
        }
        if self.avail.len() >= MOST_AVAIL_LINES {
            return refused(Refusal::Limit);
        }
        self.avail.push(Avail { from, pages })?;
        self.last_from = Some(from);
        Ok(())
    }

    pub fn device(&mut self, device: u64, rate: u64, min: u64, max: u64) -> Result<(), AcceptError>
        ensures { Gives result (seen self.new) (spec.accept (Line.Device device rate min max) (seen self.old)) }
    {
        let count = self.devices.len() as u64;
        if device < count {
            return refused(Refusal::Twice);
        }
        if device > count
            || rate == 0
            || rate > MOST_DEVICE_RATE
            || min > max
            || max > MOST_PERCENT
            || are_above(self.least, min, MOST_PERCENT)
        {
            return refused(Refusal::OutOfRange);
        }
        if count >= MOST_DEVICES as u64 {
            return refused(Refusal::Limit);
        }
        self.devices.push(Device {
            rate,
            min: min as u32,
            max: max as u32,
            strict: false,
            chunk: None,
            cyclic: false,
        })?;
        self.least += min;
        Ok(())
    }

    #[tactic(auto, using(crate::proofs::Devices::same_shares, crate::proofs::Devices::same_length))]
    pub fn strict(&mut self, device: u64) -> Result<(), AcceptError>
        ensures { Gives result (seen self.new) (spec.accept (Line.Strict device) (seen self.old)) }
    {
        if device >= self.devices.len() as u64 {
            return refused(Refusal::UnknownName);
        }
        if self.devices[device as usize].strict {
            return refused(Refusal::Twice);
        }
        self.devices[device as usize].strict = true;
        Ok(())
    }

    #[tactic(auto, using(crate::proofs::Devices::chunk_shares, crate::proofs::Devices::chunk_length))]
    pub fn chunk(&mut self, device: u64, pages: u64) -> Result<(), AcceptError>
        ensures { Gives result (seen self.new) (spec.accept (Line.Chunk device pages) (seen self.old)) }
    {
        if device >= self.devices.len() as u64 {
            return refused(Refusal::UnknownName);
        }
        if self.devices[device as usize].chunk.is_some() {
            return refused(Refusal::Twice);
        }
        if pages == 0 || pages > MOST_PAGES as u64 {
            return refused(Refusal::OutOfRange);
        }
        self.devices[device as usize].chunk = Some(pages as u32);
        Ok(())
    }

    #[tactic(auto, using(crate::proofs::Devices::cyclic_shares, crate::proofs::Devices::cyclic_length))]
    pub fn cyclic(&mut self, device: u64) -> Result<(), AcceptError>
        ensures { Gives result (seen self.new) (spec.accept (Line.Cyclic device) (seen self.old)) }
    {
        if device >= self.devices.len() as u64 {
            return refused(Refusal::UnknownName);
        }
        if self.devices[device as usize].cyclic {
            return refused(Refusal::Twice);
        }
        self.devices[device as usize].cyclic = true;
        Ok(())
    }

    pub fn cgroup(&mut self, cgroup: u64, filepages: u64, headroom: u64) -> Result<(), AcceptError>
        ensures { Gives result (seen self.new) (spec.accept (Line.Cgroup cgroup filepages headroom) (seen self.old)) }
    {
        let count = self.cgroups.len() as u64;
        if cgroup <= count {
            return refused(Refusal::Twice);
        }
        if cgroup > count + 1 || filepages > MOST_AVAIL_PAGES || headroom > MOST_AVAIL_PAGES {
            return refused(Refusal::OutOfRange);
        }
        if count >= MOST_CGROUPS as u64 {
            return refused(Refusal::Limit);
        }
        self.cgroups.push(Cgroup {
            filepages,
            headroom,
        })?;
        Ok(())
    }

    pub fn context(&mut self, context: u64, device: u64, domain: u64) -> Result<(), AcceptError>
        ensures { Gives result (seen self.new) (spec.accept (Line.Context context device domain) (seen self.old)) }
    {
        let count = self.contexts.len() as u64;
        if device >= self.devices.len() as u64 || domain > self.cgroups.len() as u64 {
            return refused(Refusal::UnknownName);
        }
        if context < count {
            return refused(Refusal::Twice);
        }
        if context > count {
            return refused(Refusal::OutOfRange);
        }
        if count >= MOST_CONTEXTS as u64 {
            return refused(Refusal::Limit);
        }
        self.contexts.push(Context {
            device: device as u32,
            domain: domain as u32,
            expire: None,
            estimate: None,
        })?;
        Ok(())
    }

    #[tactic(auto, using(crate::proofs::Contexts::same_length))]
    pub fn expire(&mut self, context: u64, centi: u64) -> Result<(), AcceptError>
        ensures { Gives result (seen self.new) (spec.accept (Line.Expire context centi) (seen self.old)) }
    {
        if context >= self.contexts.len() as u64 {
            return refused(Refusal::UnknownName);
        }
        if self.contexts[context as usize].expire.is_some() {
            return refused(Refusal::Twice);
        }
        if centi == 0 || centi > MOST_EXPIRE {
            return refused(Refusal::OutOfRange);
        }
        self.contexts[context as usize].expire = Some(centi as u32);
        Ok(())
    }

    #[tactic(auto, using(crate::proofs::Contexts::estimate_length))]
    pub fn estimate(
        &mut self,
        context: u64,
        bandwidth: u64,
        average: u64,
        ratelimit: u64,
    ) -> Result<(), AcceptError>
        ensures { Gives result (seen self.new) (spec.accept (Line.Estimate context bandwidth average ratelimit) (seen self.old)) }
    {
        if context >= self.contexts.len() as u64 {
            return refused(Refusal::UnknownName);
        }
        if self.contexts[context as usize].estimate.is_some() {
            return refused(Refusal::Twice);
        }
        if is_no_rate(bandwidth) || is_no_rate(average) || is_no_rate(ratelimit) {
            return refused(Refusal::OutOfRange);
        }
        self.contexts[context as usize].estimate = Some(FirstEstimate {
            bandwidth,
            average,
            ratelimit,
        });
        Ok(())
    }

    pub fn inode(&mut self, inode: u64, context: u64, pages: u64) -> Result<(), AcceptError>
        ensures { Gives result (seen self.new) (spec.accept (Line.Inode inode context pages) (seen self.old)) }
    {
        let count = self.inodes.len() as u64;
        if context >= self.contexts.len() as u64 {
            return refused(Refusal::UnknownName);
        }
        if inode < count {
            return refused(Refusal::Twice);
        }
        if inode > count || pages == 0 || pages > MOST_PAGES as u64 {
            return refused(Refusal::OutOfRange);
        }
        if count >= MOST_INODES as u64 || are_above(self.pages, pages, MOST_PAGES as u64) {
            return refused(Refusal::Limit);
        }
        self.inodes.push(Inode {
            context: context as u32,
            first: self.pages as u32,
            pages: pages as u32,
        })?;
        self.pages += pages;
        Ok(())
    }

    pub fn task(&mut self, task: u64, cpu: u64) -> Result<(), AcceptError>
        ensures { Gives result (seen self.new) (spec.accept (Line.Task task cpu) (seen self.old)) }
    {
        let count = self.tasks.len() as u64;
        let Some(cpus) = self.cpus else {
            return refused(Refusal::UnknownName);
        };
        if task < count {
            return refused(Refusal::Twice);
        }
        if task > count || cpu >= cpus as u64 {
            return refused(Refusal::OutOfRange);
        }
        if count >= MOST_TASKS as u64 {
            return refused(Refusal::Limit);
        }
        self.tasks.push(TaskLine {
            cpu: cpu as u32,
            pace: None,
        })?;
        Ok(())
    }

    #[tactic(auto, using(crate::proofs::Tasks::pace_length))]
    pub fn pace(&mut self, task: u64, pages: u64, ticks: u64) -> Result<(), AcceptError>
        ensures { Gives result (seen self.new) (spec.accept (Line.Pace task pages ticks) (seen self.old)) }
    {
        if task >= self.tasks.len() as u64 {
            return refused(Refusal::UnknownName);
        }
        if self.tasks[task as usize].pace.is_some() {
            return refused(Refusal::Twice);
        }
        if pages == 0 || pages > MOST_PAGES as u64 || ticks == 0 || ticks > MOST_COUNT {
            return refused(Refusal::OutOfRange);
        }
        self.tasks[task as usize].pace = Some(Pace {
            pages: pages as u32,
            ticks,
        });
        Ok(())
    }

    pub fn flusher(&mut self, flusher: u64, device: u64, cpu: u64) -> Result<(), AcceptError>
        ensures { Gives result (seen self.new) (spec.accept (Line.Flusher flusher device cpu) (seen self.old)) }
    {
        let count = self.flushers.len() as u64;
        let Some(cpus) = self.cpus else {
            return refused(Refusal::UnknownName);
        };
        if device >= self.devices.len() as u64 {
            return refused(Refusal::UnknownName);
        }
        if flusher < count {
            return refused(Refusal::Twice);
        }
        if flusher > count || cpu >= cpus as u64 {
            return refused(Refusal::OutOfRange);
        }
        if count >= MOST_FLUSHERS as u64 {
            return refused(Refusal::Limit);
        }
        self.flushers.push(FlusherLine {
            device: device as u32,
            cpu: cpu as u32,
        })?;
        Ok(())
    }
}
