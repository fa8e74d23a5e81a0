//! Things of a trace that an entry names.

ghost use Rattle.std.specs.Prelude.{ℕ, ◌≡◌, ◌++◌, replicate, slice_get, IfOk, OnOk};
ghost use Rattle.wbt_journal.specs.Checks.{has_page as is_there};
ghost use Rattle.wbt_journal.specs.Flights.{is_own_flusher as is_flusher_on};
ghost use Rattle.wbt_journal.specs.Machine.{context_domain, pages, page_context};
ghost use Rattle.wbt_journal.specs.Side.{is_own_task as is_task_on};
ghost use Rattle.wbt_trace.specs.Lawful.{IsLawful};

use std::alloc::Global;
use std::marker::Model;
use wbt_num::NoMemory;
use wbt_trace::Trace;

/// Whether the trace has the task, on this CPU.
pub fn is_own_task(trace: &Trace, cpu: usize, task: u32) -> bool
    ensures { result ≡ is_task_on trace.now cpu task }
{
    match trace.tasks.as_slice().get(task as usize) {
        None => false,
        Some(line) => line.cpu as usize == cpu,
    }
}

/// Whether the trace has the flusher, on this CPU.
pub fn is_own_flusher(trace: &Trace, cpu: usize, flusher: u32) -> bool
    ensures { result ≡ is_flusher_on trace.now cpu flusher }
{
    match trace.flushers.as_slice().get(flusher as usize) {
        None => false,
        Some(line) => line.cpu as usize == cpu,
    }
}

/// The context's cgroup; 0 where it has none, or where the trace doesn't have the context.
pub fn domain_of(trace: &Trace, context: u32) -> u32
    ensures { result ≡ context_domain trace.now context }
{
    match trace.contexts.as_slice().get(context as usize) {
        None => 0,
        Some(context) => context.domain,
    }
}

/// How many pages all inodes have together.
pub fn pages_of(trace: &Trace) -> u32
    requires { IsLawful trace.now }
    ensures { result ≡ pages trace.now }
{
    match trace.inodes.as_slice().last() {
        None => 0,
        Some(inode) => inode.first + inode.pages,
    }
}

/// Whether the trace has the page.
pub fn has_page(trace: &Trace, page: u32) -> bool
    requires { IsLawful trace.now }
    ensures { result ≡ is_there (page_context trace.now page) }
{
    page < pages_of(trace)
}

/// The context of each page, as a look-up.
#[derive(Drop)]
pub struct PageContexts {
    by_page: Vec<u32>,
}

impl Model for PageContexts {
    ghost use Rattle.std.specs.Prelude.{ℕ, List};

    ghost Value = { List ℕ };

    ghost view = { λ contexts. contexts.by_page.items };
}

impl PageContexts {
    /// Those of a trace. It takes four bytes a page.
    pub fn of(alloc: Global, trace: &Trace) -> Result<PageContexts, NoMemory>
        requires { IsLawful trace.now }
        ensures { IfOk result (λ contexts. (page : ℕ) → slice_get contexts page ≡ page_context trace.now page) }
    {
        let mut by_page = Vec::with_capacity(alloc, pages_of(trace) as usize)?;
        for inode in trace.inodes.as_slice() {
            push_all(&mut by_page, inode.pages, inode.context)?;
        }
        Ok(PageContexts { by_page })
    }

    /// The context of the page; none where the trace doesn't have it.
    pub fn get(&self, page: u32) -> Option<u32>
        ensures { result ≡ slice_get self.now page }
    {
        self.by_page.as_slice().get(page as usize).copied()
    }
}

// So many pages more of a context.
fn push_all(by_page: &mut Vec<u32>, pages: u32, context: u32) -> Result<(), NoMemory>
    ensures { OnOk result (by_page.new.items ≡ by_page.old.items ++ replicate pages context) }
{
    for _page in 0..pages {
        by_page.push(context)?;
    }
    Ok(())
}
