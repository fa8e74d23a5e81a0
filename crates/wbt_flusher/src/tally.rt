//! What a flusher keeps for a context.

ghost use Rattle.std.specs.Prelude.{◌≡◌};
ghost use Rattle.wbt_flusher.specs.Sights.{tally_in, with_tally};

use wbt_flex::Fraction;

/// In a domain: the fraction that was read last, and how many completed pages are still to be added.
#[derive(Clone, Copy)]
pub struct Tally {
    pub held: Fraction,
    pub owed: u64,
}

/// In all domains of the context.
#[derive(Clone, Copy)]
pub struct Tallies {
    /// How many completed pages are still to be counted into what the context wrote.
    pub written: u64,
    /// In the global domain.
    pub global: Tally,
    /// In the domain of its cgroup.
    pub group: Tally,
}

impl Tallies {
    /// That of a domain: the global one, 0, or the context's own.
    pub fn tally(self, domain: u32) -> Tally
        ensures { result ≡ tally_in domain self }
    {
        if domain == 0 { self.global } else { self.group }
    }

    /// With another one of a domain.
    pub fn with(self, domain: u32, tally: Tally) -> Tallies
        ensures { result ≡ with_tally domain tally self }
    {
        if domain == 0 {
            return Tallies {
                global: tally,
                ..self
            };
        }
        Tallies {
            group: tally,
            ..self
        }
    }
}
