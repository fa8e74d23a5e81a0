//! The estimates of a journal by context and version.

ghost use Rattle.std.specs.Prelude.{◌≡◌, ◌<◌, [], ◌∷◌, ◌++◌, length, get_or, slice_get, IfOk, ℕ};
ghost use Rattle.wbt_journal.specs.Checks.{nth_estimate};
ghost use Rattle.wbt_journal.specs.Items.{all_told};
ghost use Rattle.wbt_audit_turns.specs.Sides.{AreNamed, estimates_in};
ghost use Rattle.wbt_audit_walk.specs.Walks.{item_of};
ghost use Rattle.wbt_rules.specs.First.{first_estimate as first_value};

use std::alloc::Global;
use wbt_audit_walk::act::Act;
use wbt_audit_walk::walk::{Step, Walk};
use wbt_estimate::Estimate;
use wbt_journal::Journal;
use wbt_num::{Items, NoMemory};
use wbt_rules::first_estimate;
use wbt_trace::Trace;

/// The estimates of each context, in order, behind the first of the opening.
#[derive(Drop)]
pub struct Named {
    /// The moment, in ticks, of the first estimates.
    pub opened: u64,
    /// Those that were published, by context.
    pub of_contexts: Vec<Items<Estimate>>,
}

impl Named {
    /// Those of a journal, for so many contexts, of a machine that was opened at a moment, in ticks.
    pub fn make(
        alloc: Global,
        journal: &Journal,
        contexts: usize,
        opened: u64,
    ) -> Result<Named, NoMemory>
        ensures { IfOk result (λ named. AreNamed opened contexts (all_told journal.now) named) }
    {
        let mut of_contexts = new_lists(alloc, contexts)?;
        let mut walk = Walk::start(journal)?;
        while let Some(step) = walk.next()? {
            put(&mut of_contexts, &step)?;
        }
        Ok(Named {
            opened,
            of_contexts,
        })
    }

    /// The estimate of a context's version; none where the journal doesn't have it.
    pub fn estimate(&self, trace: &Trace, context: u32, version: u64) -> Option<Estimate>
        requires context { context < length trace.now.contexts }
        requires list { context < length self.now.of_contexts.items }
        ensures { result ≡ nth_estimate version (first_value trace.now context self.now.opened ∷ get_or self.now.of_contexts.items context []) }
    {
        if version == 0 {
            return Some(first_estimate(trace, context, self.opened));
        }
        let estimates = self.of_contexts[context as usize].as_slice();
        estimate_at(estimates, (version - 1) as usize)
    }
}

fn estimate_at(estimates: &[Estimate], place: usize) -> Option<Estimate>
    ensures { result ≡ slice_get estimates.now place }
{
    if place < estimates.len() {
        Some(estimates[place])
    } else {
        None
    }
}

fn new_lists(alloc: Global, contexts: usize) -> Result<Vec<Items<Estimate>>, NoMemory>
    ensures long { IfOk result (λ lists. length lists.items ≡ contexts) }
    ensures empty { IfOk result (λ lists. (context : ℕ) → context < contexts → get_or lists.items context [] ≡ []) }
{
    let mut lists = Vec::new(alloc);
    for _context in 0..contexts {
        lists.push(Items::new(alloc))?;
    }
    Ok(lists)
}

// Puts the estimate that the step tells behind those of its context.
fn put(lists: &mut [Items<Estimate>], step: &Step) -> Result<(), NoMemory>
    ensures long { IfOk result (λ _done. length lists.new ≡ length lists.old) }
    ensures each { IfOk result (λ _done. (context : ℕ) → context < length lists.old → get_or lists.new context [] ≡ get_or lists.old context [] ++ estimates_in context (item_of step.now)) }
{
    if let Some(Act::Est(est)) = step.act {
        let context = est.context as usize;
        if context < lists.len() {
            lists[context].push(est.estimate)?;
        }
    }
    Ok(())
}
