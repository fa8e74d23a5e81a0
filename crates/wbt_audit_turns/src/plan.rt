//! The pages that one task writes, in order.

ghost use Rattle.std.specs.Prelude.{◌≡◌, ◌+◌, ◌≤◌, ◌++◌, [], OnOk};
ghost use Rattle.wbt_journal.specs.Machine.{numbers};
ghost use Rattle.wbt_num.specs.declared.most.TheConstants.{MOST_PAGES};
ghost use Rattle.wbt_audit_turns.specs.Planned.{is_next, left_after};

use std::alloc::Global;
use std::marker::Model;
use wbt_num::{MOST_PAGES, NoMemory};

/// The pages of one action: so many from the first one on.
#[derive(Clone, Copy)]
struct Span {
    first: u32,
    pages: u32,
}

/// The pages that a task writes, in order, and which of them it has still to write.
#[derive(Drop)]
pub struct Plan {
    spans: Vec<Span>,
    // It is at this one, of whose pages it wrote so many.
    span: usize,
    written: u32,
}

impl Model for Plan {
    ghost use Rattle.std.specs.Prelude.{drop};
    ghost use Rattle.wbt_audit_turns.specs.Planned.{TaskPages as Pages, pages_of_spans, IsPlan};

    ghost Value = { Pages };

    ghost view = { λ p. record { all = pages_of_spans p.spans.items; left = drop p.written (pages_of_spans (drop p.span p.spans.items)) } };

    ghost invariant = { λ p. IsPlan p.spans.items p.span p.written };
}

impl Plan {
    /// The plan of a task that writes nothing.
    pub fn new(alloc: Global) -> Plan
        ensures { result ≡ record { all = []; left = [] } }
    {
        Plan {
            spans: Vec::new(alloc),
            span: 0,
            written: 0,
        }
    }

    /// Behind all others the task writes so many pages from the first one on, and has these still to write.
    pub fn push(&mut self, first: u32, pages: u32) -> Result<(), NoMemory>
        requires some { 1 ≤ pages }
        requires there { first + pages ≤ MOST_PAGES }
        ensures { OnOk result (self.new ≡ record { all = self.old.all ++ numbers first pages; left = self.old.left ++ numbers first pages }) }
    {
        self.spans.push(Span { first, pages })?;
        Ok(())
    }

    /// It has all to write again.
    pub fn begin(&mut self)
        ensures { self.new ≡ record { all = self.old.all; left = self.old.all } }
    {
        self.span = 0;
        self.written = 0;
    }

    /// The task writes a page. Answers whether that is its next one; if it isn't, nothing is written.
    pub fn write(&mut self, page: u32) -> bool
        ensures next { result ≡ is_next page self.old.left }
        ensures left { self.new ≡ record { all = self.old.all; left = left_after result self.old.left } }
    {
        match self.spans.as_slice().get(self.span) {
            None => false,
            Some(span) => {
                let Span { first, pages } = *span;
                if first + self.written != page {
                    return false;
                }
                if self.written + 1 == pages {
                    self.span += 1;
                    self.written = 0;
                    return true;
                }
                self.written += 1;
                true
            }
        }
    }
}
