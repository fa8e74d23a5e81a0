//! How far the scan of an inode has come, in the ordered run and on threads.

ghost use Rattle.std.specs.Prelude.{◌≡◌, ◌+◌, ◌<◌, ◌≤◌, ◌^◌, ℕ};
ghost use Rattle.wbt_rules.specs.Places as spec;

/// How far a flusher's scan of an inode has come.
#[derive(Clone, Copy, Debug, PartialEq, Eq)]
pub struct Scan {
    /// The inode whose pages it claims.
    pub inode: u32,
    /// The inode's first page, and how many pages it has.
    pub first: u32,
    pub pages: u32,
    /// The place within the inode at which it began, below its pages.
    pub start: u32,
    /// How many pages it has passed.
    pub passed: u32,
    /// As many pages as it claims at most, after which the scan closes.
    pub quota: u64,
    /// Whether it has noted that the inode must be marked again.
    pub noted: bool,
}

impl Scan {
    /// The page that it comes to next.
    pub fn page(&self) -> u32
        requires start { self.now.start < self.now.pages }
        requires passed { self.now.passed < self.now.pages }
        requires fits { self.now.first + self.now.pages ≤ 2 ^ 32 }
        ensures value { result ≡ spec.page_of self.now }
        ensures inside { (self.now.first ≤ result) × (result < self.now.first + self.now.pages) }
    {
        page_at(self.first, self.pages, self.start, self.passed)
    }

    /// The place of its inode to which it has come.
    pub fn place(&self) -> u32
        requires start { self.now.start < self.now.pages }
        requires passed { self.now.passed ≤ self.now.pages }
        ensures value { result ≡ spec.place_after self.now.pages self.now.start self.now.passed }
        ensures below { result < self.now.pages }
    {
        place_after(self.pages, self.start, self.passed)
    }
}

/// The page at which a scan of an inode looks next, that began at a place of the inode and has passed so many pages.
#[tactic(auto, unfolding(crate::specs::Places::page_at), using(crate::proofs::Places::place_below, crate::proofs::Places::once))]
pub fn page_at(first: u32, pages: u32, start: u32, passed: u32) -> u32
    requires start { start < pages }
    requires passed { passed < pages }
    requires fits { first + pages ≤ 2 ^ 32 }
    ensures value { result ≡ spec.page_at first pages start passed }
    ensures inside { (first ≤ result) × (result < first + pages) }
    ensures straight { start ≡ 0 → result ≡ first + passed }
    ensures once { (other : ℕ) → other < pages → spec.page_at first pages start other ≡ result → other ≡ passed }
{
    first + place_after(pages, start, passed)
}

/// The place of an inode to which a scan has come, that began at one and has passed so many pages.
#[tactic(auto, using(crate::proofs::Places::place_below))]
pub fn place_after(pages: u32, start: u32, passed: u32) -> u32
    requires start { start < pages }
    requires passed { passed ≤ pages }
    ensures value { result ≡ spec.place_after pages start passed }
    ensures below { result < pages }
{
    ((u64::from(start) + u64::from(passed)) % u64::from(pages)) as u32
}
