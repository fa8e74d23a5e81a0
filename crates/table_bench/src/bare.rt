//! The atomic operations that the calls are made of, without a rule.

use caller_of_throttle::machine::{CONTEXT_BATCH, DOMAIN_BATCH};
use caller_of_throttle::worker::Part;
use std::alloc::{AllocError, Global};
use std::sync::atomic::AtomicU64;
use std::sync::atomic::Ordering::SeqCst;

// The words of a part, at most two, and seven spare ones: so no line of a cache, which has eight words, has words of two parts, as in a
// throttle.
type Row = [AtomicU64; 9];

const LIMITS: usize = 0;

const SHARED: usize = 1;

const OWN: usize = 2;

/// The words of four CPUs, one context and one domain.
#[derive(Drop)]
pub struct Bare {
    pages: Vec<AtomicU64>,
    // The two words of the limits; the shared words of the context and of the domain; and each CPU's own words of both.
    rows: [Row; 6],
}

impl Bare {
    pub fn make(alloc: Global, pages: u32) -> Result<Bare, AllocError> {
        let mut words = Vec::new(alloc);
        for _word in 0..pages.div_ceil(32) {
            words.push(AtomicU64::new(0))?;
        }
        Ok(Bare {
            pages: words,
            rows: [row(), row(), row(), row(), row(), row()],
        })
    }

    /// What dirtying and paying for each page of a part does to the words. How many were fresh.
    pub fn dirty_part(&self, part: Part) -> u32 {
        let mut fresh = 0u32;
        for i in 0..part.pages {
            let page = part.first.wrapping_add(i);
            let mask = 1u64 << (2 * (page % 32));
            let Some(word) = self.pages.get((page / 32) as usize) else {
                return fresh;
            };
            if word.fetch_or(mask, SeqCst) & mask == 0 {
                fresh = fresh.wrapping_add(1);
                self.count(part.cpu, 1);
            }
        }
        fresh
    }

    /// What claiming, completing and paying for each page of a part does. How many were claimed.
    pub fn clean_part(&self, part: Part) -> u32 {
        let mut claimed = 0u32;
        for i in 0..part.pages {
            let page = part.first.wrapping_add(i);
            let mask = 3u64 << (2 * (page % 32));
            let Some(word) = self.pages.get((page / 32) as usize) else {
                return claimed;
            };
            let found = word.load(SeqCst);
            if word
                .compare_exchange(found, found ^ mask, SeqCst, SeqCst)
                .is_ok()
            {
                claimed = claimed.wrapping_add(1);
                let _ = word.fetch_and(!mask, SeqCst);
                self.count(part.cpu, u64::MAX);
            }
        }
        claimed
    }

    /// The three loads of the limits, so many times.
    pub fn load_limits_part(&self, times: u32) -> u64 {
        let mut all = 0;
        for _time in 0..times {
            all ^= self.limits();
        }
        all
    }

    /// The five loads of so many checks.
    pub fn load_part(&self, checks: u32) -> u64 {
        let shared = &self.rows[SHARED];
        let (domain, context) = (&shared[1], &shared[0]);
        let mut all = 0;
        for _check in 0..checks {
            all ^= self.limits() ^ domain.load(SeqCst) ^ context.load(SeqCst);
        }
        all
    }

    // One word, the other, and the first again.
    fn limits(&self) -> u64 {
        let limits = &self.rows[LIMITS];
        let (sequence, thresh) = (&limits[0], &limits[1]);
        sequence.load(SeqCst) ^ thresh.load(SeqCst) ^ sequence.load(SeqCst)
    }

    // An event of the context and of the domain.
    fn count(&self, cpu: u32, event: u64) {
        let own = &self.rows[OWN + (cpu % 4) as usize];
        let shared = &self.rows[SHARED];
        add(&own[0], &shared[0], event, CONTEXT_BATCH);
        add(&own[1], &shared[1], event, DOMAIN_BATCH);
    }
}

fn row() -> Row {
    [
        AtomicU64::new(0),
        AtomicU64::new(0),
        AtomicU64::new(0),
        AtomicU64::new(0),
        AtomicU64::new(0),
        AtomicU64::new(0),
        AtomicU64::new(0),
        AtomicU64::new(0),
        AtomicU64::new(0),
    ]
}

// Adds to the own word, and folds where the batch is reached.
fn add(own: &AtomicU64, shared: &AtomicU64, event: u64, batch: u64) {
    let local = own.fetch_add(event, SeqCst).wrapping_add(event);
    if local == batch || local == batch.wrapping_neg() {
        let _ = shared.fetch_add(local.wrapping_add(1 << 24), SeqCst);
        let _ = own.fetch_sub(local, SeqCst);
    }
}
