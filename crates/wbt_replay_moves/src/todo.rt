//! What a turn still has to do: steps, and silent moves between them.

use wbt_counter::Counter;

/// A step that a CPU has to make. What it is about, its turn and its flusher's phase say.
#[derive(Clone, Copy)]
pub enum Step {
    /// Set the dirty bit of the task's next page.
    Dirty,
    /// Add an event, 1 or -1, to the CPU's own number of a counter.
    Add { counter: Counter, change: i64 },
    /// Fold the CPU's own number, which has reached the batch, into the shared count.
    Fold { counter: Counter },
    /// Clear the CPU's own number, which was folded.
    Clear { counter: Counter },
    /// Mark an inode, and put it into its device's queue where the mark was clear.
    Mark { inode: u32 },
    /// Load the sequence word of a domain.
    First { domain: u32 },
    /// Load the thresh word of a domain.
    Middle { domain: u32 },
    /// Load the sequence word of a domain again, and find whether its limits were read whole.
    Limits { domain: u32 },
    /// Load the shared count of a counter.
    Count { counter: Counter },
    /// Clear the mark of the inode that was taken.
    Unmark,
    /// Load the word of the scan's next page.
    Look,
    /// Move the scan's next page from dirty to writeback, where its word is still this one.
    Claim { word: u64 },
    /// End the writeback of the batch's next page.
    Complete,
}

/// What a CPU does without a step.
#[derive(Clone, Copy)]
pub enum Silent {
    /// The check of the task is decided.
    Decide,
    /// The task ends, where it has nothing left to do.
    End,
    /// The estimate of a context is updated.
    Estimate { context: u32 },
    /// A context of a strict device, whose count was loaded, is weighed by its own part of the background thresholds.
    Weigh { context: u32 },
    /// The flusher takes an inode, where a domain or a context that was weighed is over background, and else rests. Before that, one
    /// of an ageing device notices inodes, and takes the first that waits where it is due.
    Test,
    /// The scan closes, where it is over.
    Close,
    /// The batch goes to the disk.
    HandOver,
    /// The flight ends, where no page is left of the batch.
    Land,
}

/// What a CPU's turn still has to do.
#[derive(Clone, Copy)]
pub enum Todo {
    /// A step.
    Step(Step),
    /// A silent move.
    Silent(Silent),
}

/// A step that the timer has to make.
#[derive(Clone, Copy)]
pub enum TimerStep {
    /// Load the shared count of a domain, and find its limits.
    Count { domain: u32 },
    /// Raise the domain's peak to the hard limit that was found.
    Peak { domain: u32 },
    /// Make the domain's sequence odd.
    Unseal { domain: u32 },
    /// Write the domain's thresh word by the limits that were found.
    Thresh { domain: u32 },
    /// Publish the limits that were found, under the next even sequence.
    Publish { domain: u32 },
}

/// What the timer does without a step.
#[derive(Clone, Copy)]
pub enum TimerSilent {
    /// Begin new periods of a domain's proportions, where it is time.
    Period { domain: u32 },
    /// Rest until the next turn.
    Rest,
}

/// What the timer's turn still has to do.
#[derive(Clone, Copy)]
pub enum TimerTodo {
    /// A step.
    Step(TimerStep),
    /// A silent move.
    Silent(TimerSilent),
}
