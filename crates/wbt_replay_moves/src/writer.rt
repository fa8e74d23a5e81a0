//! A turn of a task: a check where one is due, else a rest, or a write of its next page.

ghost use Rattle.std.specs.Prelude.{◌≡◌, ◌+◌, ◌<◌, ◌≤◌, ◌^◌, length, OnOk, Some, fold, sum_by};
ghost use Rattle.wbt_replay_moves.specs.Definition.Writer as spec;
ghost use Rattle.wbt_num.specs.Front.{first};
ghost use Rattle.wbt_task.specs.History.{wrote_page, wrote_writer};
ghost use Rattle.wbt_replay_moves.specs.Definition.Check as checks;
ghost use Rattle.wbt_replay_moves.specs.Definition.Cpu.{then_do};
ghost use Rattle.wbt_rules.specs.Things.{context_of as context_value};
ghost use Rattle.wbt_replay_moves.specs.Definition.State.{cpu_of, task_of, with_task};
ghost use Rattle.wbt_replay_moves.specs.Kept.Fit.{HasInode, WriteFits, PauseFits, RestFits, CountFits, DirtyFits, EndFits, TaskBegins, TaskEnds};
ghost use Rattle.wbt_replay_moves.specs.Seen.{seen};

use crate::machine::Machine;
use crate::state::{ReplayTask, ReplayWork, Whose};
use crate::todo::{Silent, Step, Todo};
use std::alloc::AllocError;
use wbt_counter::Counter;
use wbt_grant::StepKind;
use wbt_journal::Entry;
use wbt_num::Queue;
use wbt_rules::{context_of, device_of, group_of, pause_of, since_after};
use wbt_task::{CpuLocal, Due, Writer, end_task, page_done};
use wbt_trace::Trace;

impl Machine {
    /// Begins the task's next turn.
    pub fn begin_task(&mut self, trace: &Trace, cpu: u32, task: u32) -> Result<(), AllocError>
        requires cpu { cpu < length (seen self.old).cpus }
        requires fits { TaskBegins trace.now task (seen self.old) }
        ensures { OnOk result (seen self.new ≡ spec.begin_task trace.now cpu task (seen self.old)) }
    {
        let contexts = self.contexts.len() as u32;
        match self.tasks[task as usize].last_due(contexts) {
            Due::Check => {
                let context = self.tasks[task as usize].context;
                self.begin_check(trace, cpu, context)
            }
            Due::No => self.begin_work(cpu, task),
        }
    }

    fn begin_check(&mut self, trace: &Trace, cpu: u32, context: u32) -> Result<(), AllocError>
        requires cpu { cpu < length (seen self.old).cpus }
        requires context { context < length trace.now.contexts }
        ensures { OnOk result (seen self.new ≡ spec.begin_check trace.now cpu context (seen self.old)) }
    {
        let group = group_of(trace, context);
        if group == 0 {
            self.begin_global_check(cpu, context)
        } else {
            self.begin_cgroup_check(cpu, context, group)
        }
    }

    // Begins a check of a context that is in no cgroup: it loads the limits and the count of the global domain.
    fn begin_global_check(&mut self, cpu: u32, context: u32) -> Result<(), AllocError>
        requires cpu { cpu < length (seen self.old).cpus }
        ensures { OnOk result (seen self.new ≡ then_do cpu (spec.check_items context 0) (seen self.old)) }
    {
        self.then_do(
            cpu,
            &[
                Todo::Step(Step::First { domain: 0 }),
                Todo::Step(Step::Middle { domain: 0 }),
                Todo::Step(Step::Limits { domain: 0 }),
                Todo::Step(Step::Count {
                    counter: Counter::Domain(0),
                }),
                Todo::Step(Step::Count {
                    counter: Counter::Context(context),
                }),
                Todo::Silent(Silent::Decide),
                Todo::Silent(Silent::End),
            ],
        )
    }

    // Begins a check of a context that is in a cgroup: it loads those of the cgroup too.
    fn begin_cgroup_check(&mut self, cpu: u32, context: u32, group: u32) -> Result<(), AllocError>
        requires cpu { cpu < length (seen self.old).cpus }
        requires cgroup { 1 ≤ group }
        ensures { OnOk result (seen self.new ≡ then_do cpu (spec.check_items context group) (seen self.old)) }
    {
        self.then_do(
            cpu,
            &[
                Todo::Step(Step::First { domain: 0 }),
                Todo::Step(Step::Middle { domain: 0 }),
                Todo::Step(Step::Limits { domain: 0 }),
                Todo::Step(Step::Count {
                    counter: Counter::Domain(0),
                }),
                Todo::Step(Step::First { domain: group }),
                Todo::Step(Step::Middle { domain: group }),
                Todo::Step(Step::Limits { domain: group }),
                Todo::Step(Step::Count {
                    counter: Counter::Domain(group),
                }),
                Todo::Step(Step::Count {
                    counter: Counter::Context(context),
                }),
                Todo::Silent(Silent::Decide),
                Todo::Silent(Silent::End),
            ],
        )
    }

    fn begin_work(&mut self, cpu: u32, task: u32) -> Result<(), AllocError>
        requires cpu { cpu < length (seen self.old).cpus }
        requires task { task < length (seen self.old).tasks }
        requires rest { RestFits (seen self.old).now (spec.pause_in (task_of task (seen self.old))) (task_of task (seen self.old)).works }
        ensures { OnOk result (seen self.new ≡ spec.begin_work cpu task (task_of task (seen self.old)).works (seen self.old)) }
    {
        match self.tasks[task as usize].works.front() {
            None => self.then_do(cpu, &[Todo::Silent(Silent::End)]),
            Some(ReplayWork::Rest { ticks }) => self.begin_rest(cpu, task, ticks),
            Some(ReplayWork::Write { .. }) => self.begin_page(cpu, task),
        }
    }

    // The task, which has a page next, writes it, or rests right before it.
    fn begin_page(&mut self, cpu: u32, task: u32) -> Result<(), AllocError>
        requires cpu { cpu < length (seen self.old).cpus }
        requires task { task < length (seen self.old).tasks }
        requires pause { PauseFits (seen self.old).now (spec.pause_in (task_of task (seen self.old))) }
        ensures { OnOk result (seen self.new ≡ spec.begin_page cpu task (spec.pause_in (task_of task (seen self.old))) (seen self.old)) }
    {
        let at = &self.tasks[task as usize];
        match pause_of(at.pace, at.since) {
            None => self.then_do(cpu, &[Todo::Step(Step::Dirty), Todo::Silent(Silent::End)]),
            Some(ticks) => self.begin_pause(cpu, task, ticks),
        }
    }

    // The task rests from now on, before its next page.
    fn begin_pause(&mut self, cpu: u32, task: u32, ticks: u64) -> Result<(), AllocError>
        requires cpu { cpu < length (seen self.old).cpus }
        requires task { task < length (seen self.old).tasks }
        requires fits { (seen self.old).now + ticks < 2 ^ 64 }
        ensures { OnOk result (seen self.new ≡ spec.begin_pause cpu task ticks (seen self.old)) }
    {
        let until = self.clock + ticks;
        let at = &mut self.tasks[task as usize];
        at.since = 0;
        at.rest = until;
        self.then_do(cpu, &[Todo::Silent(Silent::End)])
    }

    // The task, which has a rest next, rests from now on.
    fn begin_rest(&mut self, cpu: u32, task: u32, ticks: u64) -> Result<(), AllocError>
        requires cpu { cpu < length (seen self.old).cpus }
        requires task { task < length (seen self.old).tasks }
        requires first { first (task_of task (seen self.old)).works ≡ Some (ReplayWork.Rest ticks) }
        requires fits { (seen self.old).now + ticks < 2 ^ 64 }
        ensures { OnOk result (seen self.new ≡ spec.begin_work cpu task (task_of task (seen self.old)).works (seen self.old)) }
    {
        let until = self.clock + ticks;
        let at = &mut self.tasks[task as usize];
        let _rest = at.works.pop_front();
        at.rest = until;
        self.then_do(cpu, &[Todo::Silent(Silent::End)])
    }

    /// The step `dirty`: the task writes its next page.
    pub fn dirty(&mut self, trace: &Trace, cpu: u32) -> Result<(), AllocError>
        requires cpu { cpu < length (seen self.old).cpus }
        requires next { DirtyFits trace.now cpu (seen self.old) (cpu_of cpu (seen self.old)).turn.whose }
        ensures { OnOk result (seen self.new ≡ spec.dirty trace.now cpu (seen self.old)) }
    {
        match self.whose(cpu) {
            Whose::Task { task } => self.dirty_next(trace, cpu, task),
            Whose::Flusher { .. } => Ok(()),
        }
    }

    fn dirty_next(&mut self, trace: &Trace, cpu: u32, task: u32) -> Result<(), AllocError>
        requires cpu { cpu < length (seen self.old).cpus }
        requires task { task < length (seen self.old).tasks }
        requires next { WriteFits trace.now (seen self.old).pages (task_of task (seen self.old)) (cpu_of cpu (seen self.old)) (task_of task (seen self.old)).works }
        ensures { OnOk result (seen self.new ≡ spec.dirty_next trace.now cpu task (task_of task (seen self.old)).works (seen self.old)) }
    {
        match self.tasks[task as usize].works.front() {
            Some(ReplayWork::Write { inode, page, pages }) => {
                self.pass_page(task, inode, page, pages)?;
                self.dirty_page(trace, cpu, task, inode, page)
            }
            Some(ReplayWork::Rest { .. }) | None => Ok(()),
        }
    }

    // Takes the first page off the task's first write.
    fn pass_page(&mut self, task: u32, inode: u32, page: u32, pages: u32) -> Result<(), AllocError>
        requires task { task < length (seen self.old).tasks }
        requires first { first (task_of task (seen self.old)).works ≡ Some (ReplayWork.Write inode page pages) }
        requires some { 1 ≤ pages }
        requires next { page + 1 < 2 ^ 32 }
        requires since { (task_of task (seen self.old)).since + 1 < 2 ^ 32 }
        ensures { OnOk result (seen self.new ≡ with_task task (spec.passed_page inode page pages (spec.after_first (task_of task (seen self.old)).works) (task_of task (seen self.old))) (seen self.old)) }
    {
        self.tasks[task as usize].pass_page(inode, page, pages)
    }

    fn dirty_page(
        &mut self,
        trace: &Trace,
        cpu: u32,
        task: u32,
        inode: u32,
        page: u32,
    ) -> Result<(), AllocError>
        requires cpu { cpu < length (seen self.old).cpus }
        requires task { task < length (seen self.old).tasks }
        requires page { page < (seen self.old).pages }
        requires inode { inode < length trace.now.inodes }
        requires context { context_value trace.now inode < length trace.now.contexts }
        requires counts { CountFits (context_value trace.now inode) (task_of task (seen self.old)) (cpu_of cpu (seen self.old)) }
        ensures { OnOk result (seen self.new ≡ spec.dirty_page trace.now cpu task inode page (seen self.old)) }
    {
        if !self.pages.is_dirty(page) {
            return self.dirty_fresh(trace, cpu, task, inode, page);
        }
        self.log(
            cpu,
            Entry::Write {
                task,
                page,
                fresh: false,
            },
        )?;
        self.plain_step(cpu, StepKind::Dirty)
    }

    fn dirty_fresh(
        &mut self,
        trace: &Trace,
        cpu: u32,
        task: u32,
        inode: u32,
        page: u32,
    ) -> Result<(), AllocError>
        requires cpu { cpu < length (seen self.old).cpus }
        requires task { task < length (seen self.old).tasks }
        requires page { page < (seen self.old).pages }
        requires inode { inode < length trace.now.inodes }
        requires context { context_value trace.now inode < length trace.now.contexts }
        requires counts { CountFits (context_value trace.now inode) (task_of task (seen self.old)) (cpu_of cpu (seen self.old)) }
        ensures { OnOk result (seen self.new ≡ spec.dirty_fresh trace.now cpu task inode page (seen self.old)) }
    {
        let context = context_of(trace, inode);
        let group = group_of(trace, context);
        self.set_dirty(page);
        self.count_page(cpu, task, context);
        self.log(
            cpu,
            Entry::Write {
                task,
                page,
                fresh: true,
            },
        )?;
        self.owe(cpu, 1, context, group, Todo::Step(Step::Mark { inode }))?;
        self.step(cpu, StepKind::Dirty, context, 1)
    }

    // A fresh page counts among those of the writer and of its CPU.
    fn count_page(&mut self, cpu: u32, task: u32, context: u32)
        requires cpu { cpu < length (seen self.old).cpus }
        requires task { task < length (seen self.old).tasks }
        requires counts { CountFits context (task_of task (seen self.old)) (cpu_of cpu (seen self.old)) }
        ensures { seen self.new ≡ spec.count_page cpu task context (seen self.old) }
    {
        let ratelimit_pages = self.ratelimit_pages;
        let mut local = self.cpus[cpu as usize].local;
        self.tasks[task as usize].count_page(context, &mut local, ratelimit_pages);
        self.cpus[cpu as usize].local = local;
    }

    /// The step `mark`: marks the inode, which goes into its device's queue where the mark was clear.
    pub fn mark(&mut self, trace: &Trace, cpu: u32, inode: u32) -> Result<(), AllocError>
        requires inode { HasInode trace.now inode (length (seen self.old).marks) (length (seen self.old).queues) }
        ensures { OnOk result (seen self.new ≡ spec.mark trace.now cpu inode (seen self.old)) }
    {
        self.set_mark(trace, inode)?;
        self.plain_step(cpu, StepKind::Mark)
    }

    fn set_mark(&mut self, trace: &Trace, inode: u32) -> Result<(), AllocError>
        requires inode { HasInode trace.now inode (length (seen self.old).marks) (length (seen self.old).queues) }
        ensures { OnOk result (seen self.new ≡ spec.marked trace.now inode (seen self.old)) }
    {
        if self.marks[inode as usize] {
            return Ok(());
        }
        self.marks[inode as usize] = true;
        self.put_inode(device_of(trace, inode), inode)
    }

    /// Silent: the task of the turn ends, where it has nothing left to do and no check is due.
    pub fn end(&mut self, cpu: u32)
        requires cpu { cpu < length (seen self.old).cpus }
        requires fits { EndFits cpu (seen self.old) (cpu_of cpu (seen self.old)).turn.whose }
        ensures { seen self.new ≡ spec.end cpu (seen self.old) }
    {
        match self.whose(cpu) {
            Whose::Task { task } => {
                let contexts = self.contexts.len() as u32;
                if self.tasks[task as usize].has_nothing(contexts) {
                    self.end_now(cpu, task);
                }
            }
            Whose::Flusher { .. } => {}
        }
    }

    fn end_now(&mut self, cpu: u32, task: u32)
        requires cpu { cpu < length (seen self.old).cpus }
        requires fits { TaskEnds cpu task (seen self.old) }
        ensures { seen self.new ≡ spec.end_now cpu task (seen self.old) }
    {
        let contexts = self.contexts.len() as u32;
        let mut local = self.cpus[cpu as usize].local;
        let at = &mut self.tasks[task as usize];
        at.leak(&mut local, contexts);
        at.ended = true;
        self.cpus[cpu as usize].local = local;
        self.running -= 1;
    }
}

impl ReplayTask {
    // What is due of the writer of the task's last page. A trace that has no context has no writers.
    #[tactic(auto, using(crate::proofs::Writing::none_due))]
    fn last_due(&self, contexts: u32) -> Due
        requires { contexts ≡ length self.now.writers }
        ensures value { result ≡ (checks.writer_of self.now).due }
        ensures there { result ≡ Due.Check → self.now.context < length self.now.writers }
    {
        if self.context < contexts {
            self.writers.get(self.context).due
        } else {
            Due::No
        }
    }

    fn has_nothing(&self, contexts: u32) -> bool
        requires { contexts ≡ length self.now.writers }
        ensures { result ≡ spec.has_nothing self.now.works (checks.writer_of self.now).due }
    {
        self.works.is_empty() && self.last_due(contexts) == Due::No
    }

    // Takes the first page off the task's first write.
    fn pass_page(&mut self, inode: u32, page: u32, pages: u32) -> Result<(), AllocError>
        requires first { first self.old.works ≡ Some (ReplayWork.Write inode page pages) }
        requires some { 1 ≤ pages }
        requires next { page + 1 < 2 ^ 32 }
        requires since { self.old.since + 1 < 2 ^ 32 }
        ensures { OnOk result (self.new ≡ spec.passed_page inode page pages (spec.after_first self.old.works) self.old) }
    {
        self.since = since_after(self.pace, self.since);
        let _first = self.works.pop_front();
        if pages == 1 {
            return Ok(());
        }
        self.works.push_front(ReplayWork::Write {
            inode,
            page: page + 1,
            pages: pages - 1,
        })
    }

    // Counts a fresh page of the context.
    fn count_page(&mut self, context: u32, local: &mut CpuLocal, ratelimit_pages: u64)
        requires there { context < length self.old.writers }
        requires dirtied { (checks.writer_in context self.old).task.nr_dirtied < 2 ^ 52 }
        requires since { local.old.since_check < 2 ^ 52 }
        ensures task { self.new ≡ spec.counted_page ratelimit_pages context local.old self.old }
        ensures local { local.new ≡ spec.counted_local ratelimit_pages context local.old self.old }
    {
        let mut writer = self.writers.get(context);
        let left = writer.left.saturating_sub(1);
        let due = page_done(
            local,
            &mut writer.task,
            left,
            writer.exceeded,
            ratelimit_pages,
        );
        self.context = context;
        self.writers.put(
            context,
            Writer {
                task: writer.task,
                left,
                exceeded: writer.exceeded,
                due,
            },
        );
    }

    // The pages of its writers become the CPU's leaks.
    fn leak(&self, local: &mut CpuLocal, contexts: u32)
        requires contexts { contexts ≡ length self.now.writers }
        requires leaks { local.old.leaks + sum_by (λ w. w.task.nr_dirtied) self.now.writers < 2 ^ 52 }
        ensures { local.new ≡ fold spec.leaked local.old self.now.writers }
    {
        for context in 0..contexts {
            end_task(local, &self.writers.get(context).task);
        }
    }
}
