//! Where a trace's counters stand in a row: the domains' first, then the contexts'.

ghost use Rattle.std.specs.Prelude.{◌≡◌, ◌+◌, ◌*◌, length};
ghost use Rattle.wbt_rules.specs.Things.{domains};
ghost use Rattle.wbt_trace.specs.Lawful.{IsLawful};
ghost use Rattle.wbt_audit_walk.specs.Places as spec;

use wbt_counter::Counter;
use wbt_rules::domains_of;
use wbt_trace::Trace;

/// How many domains and contexts a trace has.
#[derive(Clone, Copy, Debug)]
pub struct Places {
    pub domains: u32,
    pub contexts: u32,
}

impl Places {
    pub fn of(trace: &Trace) -> Places
        requires { IsLawful trace.now }
        ensures domains { result.domains ≡ domains trace.now }
        ensures contexts { result.contexts ≡ length trace.now.contexts }
    {
        Places {
            domains: domains_of(trace),
            contexts: trace.contexts.as_slice().len() as u32,
        }
    }

    /// How many counters there are.
    pub fn counters(self) -> usize
        ensures { result ≡ self.domains + self.contexts }
    {
        self.domains as usize + self.contexts as usize
    }

    /// How many pairs of a domain and a context there are.
    pub fn pairs(self) -> usize
        ensures { result ≡ self.domains * self.contexts }
    {
        self.domains as usize * self.contexts as usize
    }

    /// The place of a counter; none where the trace doesn't have it.
    pub fn counter(self, counter: Counter) -> Option<usize>
        ensures { result ≡ spec.counter_place self.domains self.contexts counter }
    {
        match counter {
            Counter::Domain(domain) => self.domain(domain),
            Counter::Context(context) => {
                let place = self.context(context)?;
                Some(self.domains as usize + place)
            }
        }
    }

    /// The place of a domain among the domains.
    pub fn domain(self, domain: u32) -> Option<usize>
        ensures { result ≡ spec.below self.domains domain }
    {
        if domain < self.domains {
            Some(domain as usize)
        } else {
            None
        }
    }

    /// The place of a context among the contexts.
    pub fn context(self, context: u32) -> Option<usize>
        ensures { result ≡ spec.below self.contexts context }
    {
        if context < self.contexts {
            Some(context as usize)
        } else {
            None
        }
    }

    /// The place of a context in a domain among all pairs of them.
    pub fn pair(self, domain: u32, context: u32) -> Option<usize>
        ensures { result ≡ spec.pair_place self.domains self.contexts domain context }
    {
        let row = self.domain(domain)?;
        let place = self.context(context)?;
        Some(row * self.contexts as usize + place)
    }
}
