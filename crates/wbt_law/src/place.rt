//! The places of a law text's lines, and the word that the line at each begins with.

ghost use Rattle.std.specs.Prelude.{◌≡◌};
ghost use Rattle.wbt_law.specs.Rows as spec;

/// The place of a line, in the order of the lines.
#[derive(Clone, Copy, Debug, PartialEq, Eq)]
pub enum Place {
    /// How many CPUs there are.
    Cpus,
    /// The most pages that are left to a writer.
    Cap,
    /// The moment.
    Now,
    /// The writer's numbers.
    Task,
    /// The average bandwidth and the rate limit.
    Estimate,
    /// The context's dirty pages.
    Context,
    /// The global domain.
    Global,
    /// The cgroup's domain, or the end.
    Cgroup,
    /// The end.
    Over,
}

/// The place after this one.
pub fn next(place: Place) -> Place
    ensures { result ≡ spec.next place }
{
    match place {
        Place::Cpus => Place::Cap,
        Place::Cap => Place::Now,
        Place::Now => Place::Task,
        Place::Task => Place::Estimate,
        Place::Estimate => Place::Context,
        Place::Context => Place::Global,
        Place::Global => Place::Cgroup,
        Place::Cgroup => Place::Over,
        Place::Over => Place::Over,
    }
}

/// Whether a text may end here.
pub fn may_end(place: Place) -> bool
    ensures { result ≡ spec.may_end place }
{
    match place {
        Place::Cgroup => true,
        Place::Over => true,
        _ => false,
    }
}

/// What the line at the place begins with, up to its first space.
pub fn word_at(place: Place) -> &'static [u8]
    ensures { result.now ≡ spec.word_at place }
{
    match place {
        Place::Cpus => b"cpus",
        Place::Cap => b"cap",
        Place::Now => b"now",
        Place::Task => b"task",
        Place::Estimate => b"estimate",
        Place::Context => b"context",
        Place::Global => b"domain",
        Place::Cgroup => b"domain",
        Place::Over => b"domain",
    }
}
