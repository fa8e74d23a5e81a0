//! The writers of a trace: the distinct pairs of a task and a context of which it writes pages.

ghost use Rattle.std.specs.Prelude.{◌≡◌, ◌<◌, IfOk, OnOk, OnErr, [], length, false};

use std::alloc::{AllocError, Global};
use std::marker::Model;
use wbt_num::{MOST_CONTEXTS, MOST_TASKS};

/// A task, and a context of which it writes pages.
#[derive(Clone, Copy)]
pub struct Writer {
    pub task: u32,
    pub context: u32,
}

/// The writers in the order in which they came. Whether a pair is one is a look-up.
#[derive(Drop)]
pub struct Writers {
    pairs: Vec<Writer>,
    /// Whether a pair is a writer, at the most contexts times the task's number and the context's.
    marks: Vec<bool>,
}

impl Model for Writers {
    ghost use Rattle.std.specs.Prelude.{ℕ, List, ◌≡◌, ◌<◌, ◌+◌, ◌*◌, false, length, slice_index_or};
    ghost use Rattle.wbt_num.specs.declared.most.TheConstants.{MOST_CONTEXTS, MOST_TASKS};
    ghost use Rattle.wbt_trace.specs.WriterList.{is_writer};
    ghost use Rattle.wbt_trace.specs.declared.writers.Writer.{Writer as WriterValue};

    ghost Value = { List WriterValue };

    ghost view = { λ w. w.pairs.items };

    ghost invariant = { λ w. (length w.marks.items ≡ MOST_TASKS * MOST_CONTEXTS) × ((task context : ℕ) → task < MOST_TASKS → context < MOST_CONTEXTS → slice_index_or w.marks.items (MOST_CONTEXTS * task + context) false ≡ is_writer task context w.pairs.items) };
}

impl Writers {
    ghost use Rattle.wbt_trace.specs.WriterList.{is_writer, with_writer};

    /// No writer.
    pub fn new(alloc: Global) -> Result<Writers, AllocError>
        ensures { IfOk result (λ writers. writers ≡ []) }
    {
        let mut marks = Vec::with_capacity(alloc, MOST_TASKS * MOST_CONTEXTS)?;
        for _place in 0..MOST_TASKS * MOST_CONTEXTS {
            marks.push(false)?;
        }
        Ok(Writers {
            pairs: Vec::new(alloc),
            marks,
        })
    }

    /// How many writers there are.
    pub fn len(&self) -> usize
        ensures { result ≡ length self.now }
    {
        self.pairs.len()
    }

    /// Whether the pair is a writer.
    pub fn contains(&self, task: u32, context: u32) -> bool
        requires task { task < MOST_TASKS }
        requires context { context < MOST_CONTEXTS }
        ensures { result ≡ is_writer task context self.now }
    {
        self.marks[task as usize * MOST_CONTEXTS + context as usize]
    }

    /// Adds a writer that is new.
    pub fn add(&mut self, task: u32, context: u32) -> Result<(), AllocError>
        requires task { task < MOST_TASKS }
        requires context { context < MOST_CONTEXTS }
        requires new { is_writer task context self.old ≡ false }
        ensures ok { OnOk result (self.new ≡ with_writer task context self.old) }
        ensures err { OnErr result (self.new ≡ self.old) }
    {
        self.pairs.push(Writer { task, context })?;
        self.marks[task as usize * MOST_CONTEXTS + context as usize] = true;
        Ok(())
    }
}
