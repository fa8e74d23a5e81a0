//! Texts of journals, and what they tell.

use wbt_journal::{
    CheckEntry, Count, Counter, Decision, DomainLine, Ending, Entry, EstEntry, Estimate, Fold,
    Fraction, Kind, Left, Limits, StepKind, StrictLine, Task, TimerEntry,
};

// What a journal is made of beside the parts of its CPUs.
#[derive(Clone, Copy)]
pub(super) struct Told<'a> {
    pub(super) timer: &'a [TimerEntry],
    pub(super) steps: &'a [StepRow],
    pub(super) bases: &'a [u64],
    pub(super) homes: &'a [u32],
    pub(super) left: &'a [Left],
    pub(super) strict: &'a [StrictLine],
    pub(super) ending: Ending,
}

// A step: who made it, its kind, its context, by how much it changes the dirty pages, its domain, and the peak that it raises.
pub(super) type StepRow = (u32, StepKind, u32, i8, u16, u32);

// The text of a run of two pages on one CPU, and what it tells.
pub(super) static TWO_PAGES: &[u8] =
    b"timer\nlimits 0 1 19995 9985 19995\ncpu 0\nwrite 0 0 fresh\nwrite 0 1 fresh\nclaim 0 0\nclaim 0 1\nbatch 0 2 1 2\ndone 0 0\ndone 0 1\nshare 0 0 2\nsteps\nstep 1 0 dirty 1 21067\nstep 2 0 add 1 21067\nstep 3 0 add 1 21067\nstep 4 0 mark 1 21067\nstep 5 0 first 1 21067\nstep 6 0 middle 1 21067\nstep 7 0 limits 1 21067\nstep 8 0 count 1 21067\nstep 9 0 dirty 2 21067\nstep 10 0 add 2 21067\nstep 11 0 add 2 21067\nstep 12 0 mark 2 21067\nstep 13 0 unmark 2 21067\nstep 14 0 look 2 21067\nstep 15 0 claim 2 21067\nstep 16 0 look 2 21067\nstep 17 0 claim 2 21067\nstep 18 0 complete 1 21067\nstep 19 0 add 1 21067\nstep 20 0 add 1 21067\nstep 21 0 complete 0 21067\nstep 22 0 add 0 21067\nstep 23 0 add 0 21067\ncensus 0 0\ntotals 2 2\nend done\n";

pub(super) static TWO_PAGES_ENTRIES: [Entry; 8] = [
    Entry::Write {
        task: 0,
        page: 0,
        fresh: true,
    },
    Entry::Write {
        task: 0,
        page: 1,
        fresh: true,
    },
    Entry::Claimed {
        flusher: 0,
        page: 0,
    },
    Entry::Claimed {
        flusher: 0,
        page: 1,
    },
    Entry::Batch {
        flusher: 0,
        pages: 2,
        now: 1,
        until: 2,
    },
    Entry::Done {
        flusher: 0,
        page: 0,
    },
    Entry::Done {
        flusher: 0,
        page: 1,
    },
    Entry::Share {
        domain: 0,
        context: 0,
        n: 2,
    },
];

static TWO_PAGES_STEPS: [StepRow; 23] = [
    (0, StepKind::Dirty, 0, 1, 0, 0),
    (0, StepKind::Add, 0, 0, 0, 0),
    (0, StepKind::Add, 0, 0, 0, 0),
    (0, StepKind::Mark, 0, 0, 0, 0),
    (0, StepKind::First, 0, 0, 0, 0),
    (0, StepKind::Middle, 0, 0, 0, 0),
    (0, StepKind::Limits, 0, 0, 0, 0),
    (0, StepKind::Count, 0, 0, 0, 0),
    (0, StepKind::Dirty, 0, 1, 0, 0),
    (0, StepKind::Add, 0, 0, 0, 0),
    (0, StepKind::Add, 0, 0, 0, 0),
    (0, StepKind::Mark, 0, 0, 0, 0),
    (0, StepKind::Unmark, 0, 0, 0, 0),
    (0, StepKind::Look, 0, 0, 0, 0),
    (0, StepKind::Claim, 0, 0, 0, 0),
    (0, StepKind::Look, 0, 0, 0, 0),
    (0, StepKind::Claim, 0, 0, 0, 0),
    (0, StepKind::Complete, 0, -1, 0, 0),
    (0, StepKind::Add, 0, 0, 0, 0),
    (0, StepKind::Add, 0, 0, 0, 0),
    (0, StepKind::Complete, 0, -1, 0, 0),
    (0, StepKind::Add, 0, 0, 0, 0),
    (0, StepKind::Add, 0, 0, 0, 0),
];

static TWO_PAGES_TIMER: [TimerEntry; 1] = [TimerEntry::Limits {
    domain: 0,
    now: 1,
    limits: Limits {
        thresh: 19995,
        bg: 9985,
        hard: 19995,
    },
}];

pub(super) fn two_pages_told() -> Told<'static> {
    Told {
        timer: &TWO_PAGES_TIMER,
        steps: &TWO_PAGES_STEPS,
        bases: &[1072],
        homes: &[0],
        left: &[],
        strict: &[],
        ending: Ending::Done,
    }
}

// A text with every kind of line of a run of threads.
pub(super) static EVERY_LINE: &[u8] =
    b"timer\nlimits 0 1 100 50 100\nlimits 1 1 40 20 40\nperiod 1 2\ncpu 0\nwrite 0 7 already\nread 0 3 100 50 100 2 -3 1 5 6\nread 1 0 40 20 41 0 0 0 0 1\ncount 3 4 64\ncheck 0 3 9 2 exempt 10 1 0 32 19\nfold c3 4 -8\nest 3 2 1 2 3 4 5 6 209\nfold d0 1 32\ncpu 1\nclaim 2 9\nfault 2 1\nback 2 9 dirty\nback 2 8 absorbed\nnotice 2 5 17\nage 2 5 30017 30020\ntake 2 6\nleft 7 dirty\nleft 8 both\nleft 9 writeback\ncensus 2 2\ntotals 0 0\nend faulted\n";

pub(super) static EVERY_TIMER: [TimerEntry; 3] = [
    TimerEntry::Limits {
        domain: 0,
        now: 1,
        limits: Limits {
            thresh: 100,
            bg: 50,
            hard: 100,
        },
    },
    TimerEntry::Limits {
        domain: 1,
        now: 1,
        limits: Limits {
            thresh: 40,
            bg: 20,
            hard: 40,
        },
    },
    TimerEntry::Period { domain: 1, k: 2 },
];

pub(super) static EVERY_CHECK: CheckEntry = CheckEntry {
    task: 0,
    context: 3,
    now: 9,
    global: DomainLine {
        domain: 0,
        triple: 3,
        limits: Limits {
            thresh: 100,
            bg: 50,
            hard: 100,
        },
        count: Count {
            version: 2,
            value: -3,
        },
        share: Fraction {
            period: 1,
            num: 5,
            den: 6,
        },
    },
    cgroup: Some(DomainLine {
        domain: 1,
        triple: 0,
        limits: Limits {
            thresh: 40,
            bg: 20,
            hard: 41,
        },
        count: Count {
            version: 0,
            value: 0,
        },
        share: Fraction {
            period: 0,
            num: 0,
            den: 1,
        },
    }),
    count: Count {
        version: 4,
        value: 64,
    },
    estimate: 2,
    decision: Decision {
        kind: Kind::Exempt,
        pause: 10,
        left: 1,
        task: Task {
            nr_dirtied: 0,
            nr_dirtied_pause: 32,
            paused_when: 19,
        },
        exceeded: true,
    },
};

pub(super) static EVERY_ESTIMATE: EstEntry = EstEntry {
    context: 3,
    estimate: Estimate {
        version: 2,
        bw: 1,
        avg: 2,
        ratelimit: 3,
        balanced: 4,
        written_stamp: 5,
        dirtied_stamp: 6,
        at: 209,
    },
};

// What the first CPU did, and the second.
pub(super) static FIRST_ENTRIES: [Entry; 5] = [
    Entry::Write {
        task: 0,
        page: 7,
        fresh: false,
    },
    Entry::Check(0),
    Entry::Folded(Fold {
        counter: Counter::Context(3),
        version: 4,
        delta: -8,
    }),
    Entry::Est(0),
    Entry::Folded(Fold {
        counter: Counter::Domain(0),
        version: 1,
        delta: 32,
    }),
];

pub(super) static SECOND_ENTRIES: [Entry; 7] = [
    Entry::Claimed {
        flusher: 2,
        page: 9,
    },
    Entry::Fault {
        flusher: 2,
        pages: 1,
    },
    Entry::Back {
        flusher: 2,
        page: 9,
        absorbed: false,
    },
    Entry::Back {
        flusher: 2,
        page: 8,
        absorbed: true,
    },
    Entry::Noticed {
        flusher: 2,
        inode: 5,
        since: 17,
    },
    Entry::Aged {
        flusher: 2,
        inode: 5,
        due: 30017,
        now: 30020,
    },
    Entry::Taken {
        flusher: 2,
        inode: 6,
    },
];

pub(super) static EVERY_LEFT: [Left; 3] = [
    Left { page: 7, word: 1 },
    Left { page: 8, word: 3 },
    Left { page: 9, word: 2 },
];

// The lines of steps of two domains: the second context is in the cgroup's, a peak is raised in each, and a page of each is cleaned:
// one is completed, and one was dirtied again and is given back.
pub(super) static TWO_DOMAINS: &[u8] =
    b"timer\nlimits 0 1 10 5 10\nlimits 1 1 4 2 4\ncpu 0\nsteps\nstep 1 0 dirty 1 110 0 24\nstep 2 0 dirty 2 110 1 24\nstep 3 timer peak 2 112 1 24\nstep 4 timer peak 2 112 1 24\nstep 5 timer peak 2 112 1 29\nstep 6 timer unseal 2 112 1 29\nstep 7 timer thresh 2 112 1 29\nstep 8 timer publish 2 112 1 29\nstep 9 0 complete 1 112 1 29\nstep 10 0 back 0 112 0 29\ncensus 0 0\ntotals 0 0\nend halted\n";

static TWO_DOMAINS_TIMER: [TimerEntry; 2] = [
    TimerEntry::Limits {
        domain: 0,
        now: 1,
        limits: Limits {
            thresh: 10,
            bg: 5,
            hard: 10,
        },
    },
    TimerEntry::Limits {
        domain: 1,
        now: 1,
        limits: Limits {
            thresh: 4,
            bg: 2,
            hard: 4,
        },
    },
];

static TWO_DOMAINS_STEPS: [StepRow; 10] = [
    (0, StepKind::Dirty, 0, 1, 0, 0),
    (0, StepKind::Dirty, 1, 1, 0, 0),
    (1, StepKind::Peak, 0, 0, 0, 12),
    (1, StepKind::Peak, 0, 0, 0, 11),
    (1, StepKind::Peak, 0, 0, 1, 9),
    (1, StepKind::Unseal, 0, 0, 0, 0),
    (1, StepKind::Thresh, 0, 0, 0, 0),
    (1, StepKind::Publish, 0, 0, 0, 0),
    (0, StepKind::Complete, 0, -1, 0, 0),
    (0, StepKind::Back, 1, -1, 0, 0),
];

pub(super) fn two_domains_told() -> Told<'static> {
    Told {
        timer: &TWO_DOMAINS_TIMER,
        steps: &TWO_DOMAINS_STEPS,
        bases: &[100, 20],
        homes: &[0, 1],
        left: &[],
        strict: &[],
        ending: Ending::Halted,
    }
}

static STRICT_LEFT: [Left; 1] = [Left { page: 7, word: 1 }];

static STRICT_LINES: [StrictLine; 2] = [
    StrictLine {
        context: 0,
        most: 2,
        bound: 1040,
    },
    StrictLine {
        context: 3,
        most: 0,
        bound: u64::MAX,
    },
];

// What a run with two contexts of strict devices tells at its end.
pub(super) fn strict_told() -> Told<'static> {
    Told {
        timer: &[],
        steps: &[],
        bases: &[],
        homes: &[],
        left: &STRICT_LEFT,
        strict: &STRICT_LINES,
        ending: Ending::Spent,
    }
}
