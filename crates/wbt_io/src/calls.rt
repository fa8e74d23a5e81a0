//! The calls of an object in memory: how many were made, which of them are to fail, and the faults counted.

ghost use Rattle.std.specs.Prelude.{◌≡◌, ◌+◌, ◌≤◌, ◌↔◌, IsTrue, Contains};
ghost use Rattle.wbt_io.specs.Faults.{one_more};

/// Calls, numbered from 1. Both counts stay at the last value of a u64, and no call after that one fails.
#[derive(Drop)]
pub(crate) struct Calls {
    /// The numbers of the calls that are to fail.
    pub(crate) fails: Vec<u64>,
    /// Calls made.
    pub(crate) made: u64,
    /// Faults counted.
    pub(crate) faults: u64,
}

impl Calls {
    pub(crate) fn make(fails: Vec<u64>) -> Calls
        ensures fails { result.fails.items ≡ fails.items }
        ensures made { result.made ≡ 0 }
        ensures faults { result.faults ≡ 0 }
    {
        Calls {
            fails,
            made: 0,
            faults: 0,
        }
    }

    /// Counts a call, and says whether it is to fail.
    pub(crate) fn begin(&mut self) -> bool
        ensures listed { IsTrue result ↔ Contains self.old.fails.items (self.old.made + 1) }
        ensures made { self.new.made ≡ one_more self.old.made }
        ensures faults { self.new.faults ≡ self.old.faults }
        ensures fails { self.new.fails.items ≡ self.old.fails.items }
    {
        let listed = is_listed(self.fails.as_slice(), self.made);
        self.made = self.made.saturating_add(1);
        listed
    }

    /// Counts a fault.
    pub(crate) fn count_fault(&mut self)
        ensures faults { self.new.faults ≡ one_more self.old.faults }
        ensures later { self.old.faults ≤ self.new.faults }
        ensures made { self.new.made ≡ self.old.made }
        ensures fails { self.new.fails.items ≡ self.old.fails.items }
    {
        self.faults = self.faults.saturating_add(1);
    }
}

// Whether the call after so many is among those that are to fail.
fn is_listed(fails: &[u64], made: u64) -> bool
    ensures { IsTrue result ↔ Contains fails.now (made + 1) }
{
    match made.checked_add(1) {
        Some(number) => fails.contains(&number),
        None => false,
    }
}
