//! Worked runs: the text of the journal of a trace, in full. Each is a theorem, which the function's contract carries.

ghost use Rattle.wbt_replay_worked.specs.WorkedAgain.{DirtyAgainRun};
ghost use Rattle.wbt_replay_worked.specs.WorkedAges.{AgedPageRun, WaitingInodeRun};
ghost use Rattle.wbt_replay_worked.specs.WorkedChecks.{CheckedRun};
ghost use Rattle.wbt_replay_worked.specs.WorkedChunks.{ChunkedRun, CyclicRun};
ghost use Rattle.wbt_replay_worked.specs.WorkedOrders.{LastRestRun, HaltedRun, BeforeClearRun, SameReadingRun, MissedClaimRun};
ghost use Rattle.wbt_replay_worked.specs.Worked.{EmptyRun, TwoPagesRun, EightPagesRun, TwoCpusRun};
ghost use Rattle.wbt_replay_worked.specs.WorkedDisks.{TwoDisksRun};
ghost use Rattle.wbt_replay_worked.specs.WorkedPaces.{PacedRun};
ghost use Rattle.wbt_replay_worked.specs.WorkedStrict.{StrictPagesRun, StrictWeighedRun};
ghost use Rattle.wbt_replay_worked.specs.WorkedTimer.{RestingRun, EstimatedRun, CutTurnRun, UnsealedRun, OvertakenRun};
ghost use Rattle.wbt_replay_worked.specs.WorkedOpening.{NoActionRun, OddLimitsRun};
ghost use Rattle.wbt_replay_worked.specs.WorkedEstimates.{SampleMomentRun, AtSetpointRun, GivenEstimateRun};

/// The run of a trace that writes nothing: the flusher finds no inode in its queue, and the run ends without a step.
pub fn empty_run()
    ensures { EmptyRun }
{}

/// The run of a trace whose task has nothing to do but a rest of 10^9 ticks: the task ends at once.
pub fn last_rest_run()
    ensures { LastRestRun }
{}

/// The run of a trace that writes two pages: they are written in steps 1 to 12, with the flusher's test of the limits in
/// steps 5 to 8, claimed in steps 13 to 17, and completed in steps 18 to 23.
pub fn two_pages_run()
    ensures { TwoPagesRun }
{}

/// The run of that trace where the CPU stops when it has made three steps: page 0 is dirty and counted, and its inode isn't marked.
pub fn halted_run()
    ensures { HaltedRun }
{}

/// The run of a trace that writes eight pages: they are written in steps 1 to 38, with the flusher's test of the limits in
/// steps 5 to 8 and a fold of the CPU's own number of the context's counter, at 8, in steps 35 and 36; claimed in steps 39
/// to 55; and completed in steps 56 to 81, with a fold at -8 in steps 79 and 80.
pub fn eight_pages_run()
    ensures { EightPagesRun }
{}

/// The run of a trace with two CPUs, each of which writes a page: by the order lines CPU 0 makes steps 1 and 2 of its write,
/// CPU 1 begins its own in step 3, CPU 0 makes step 4 of its write, and by rotation ends it in step 5; CPU 1 ends its own in
/// steps 6 to 8, claims both pages in steps 9 to 13, and completes them in steps 14 to 19.
pub fn two_cpus_run()
    ensures { TwoCpusRun }
{}

/// The run of a trace with three CPUs, of which two write 32 pages each: CPU 0 is stopped after step 132, the fold of the domain's
/// counter, before it clears its own number, and in steps 267 to 271 CPU 1 makes the loads of its check, which finds 64 pages.
pub fn before_clear_run()
    ensures { BeforeClearRun }
{}

/// The run of a trace in which no page is allowed and each task has one page: two writers read 0 in steps 9 to 18, before either
/// writes again, and both are let through, so that four pages are dirty.
pub fn same_reading_run()
    ensures { SameReadingRun }
{}

/// The run of a trace with two flushers of one disk, which needs a thousand ticks for 128 pages: page 0 is written again after 500,
/// and the other flusher claims it when its first writeback is completed. All 129 writes come to the disk.
pub fn dirty_again_run()
    ensures { DirtyAgainRun }
{}

/// The run of a trace with two cgroups: a writer is let through freely, pauses, waits and is exempt; pages of a task that ended are
/// counted in; the clock moves between two steps of the timer's turn; periods begin; in the drain a flusher notes a mark and keeps its
/// rest; and a CPU stops where a page is completed and not counted yet.
pub fn checked_run()
    ensures { CheckedRun }
{}

/// The run of a trace with three CPUs and two disks, of which the second takes 143 ticks for a page: five pages are written a
/// second time, three inodes wait in one queue, the flights on the slow disk end at 287 and 430, when the fast one has long
/// finished, and each share names its own context.
pub fn two_disks_run()
    ensures { TwoDisksRun }
{}

/// The run of a trace whose task rests for 300 ticks while half of the memory goes away at tick 150: the timer's turn at 201
/// finds half of the thresholds in steps 14 to 18, the flusher updates the estimate, and the page is written in steps 19 to 22.
pub fn resting_run()
    ensures { RestingRun }
{}

/// The run of a trace with two disks, where the clock moves between two steps of the timer's turn: limits of tick 251 are
/// published at tick 351, in steps 11 to 13, those after tick 300 are found at 451 and 651, estimates of both disks are updated three
/// times, and the slow disk's page is completed last, at 994.
pub fn estimated_run()
    ensures { EstimatedRun }
{}

/// The run of a trace with one task and nothing for it to do: the task has ended at the opening, so that the timer takes no turn, not by
/// its order line either.
pub fn no_action_run()
    ensures { NoActionRun }
{}

/// The run of a trace whose limits are six pages and a byte: a threshold in bytes is rounded up to 7 pages, the background threshold,
/// which would be as much, is half of it rounded down, and two cgroups have their parts of both.
pub fn odd_limits_run()
    ensures { OddLimitsRun }
{}

/// The run of a trace in which the timer has made two steps of its turn when the last task ends: what it was to publish is never
/// published.
pub fn cut_turn_run()
    ensures { CutTurnRun }
{}

/// The run of a trace in which a CPU loads limits, for an estimate and for a check, when the timer has made their sequence odd in step 7
/// and has published nothing yet: in steps 10 and 15 it goes on with the limits of the opening, and in step 26 it finds the new ones.
pub fn unsealed_run()
    ensures { UnsealedRun }
{}

/// The run of a trace in which limits are published within a load, in steps 13 to 15, and loaded within a publication, in steps 33 to
/// 35, when the timer has stored their thresholds and not their hard limit: both checks tell the version that the CPU held.
pub fn overtaken_run()
    ensures { OvertakenRun }
{}

/// The run of a trace in which the clock moves from 201 to 208 in the middle of a flusher's turn, after step 4: the sample is of 201.
pub fn sample_moment_run()
    ensures { SampleMomentRun }
{}

/// The run of a trace whose domain is at its setpoint, 0, whenever an estimate is updated: the rate limit doesn't rise there, and falls at
/// the second update, from 25600 to 22478.
pub fn at_setpoint_run()
    ensures { AtSetpointRun }
{}

/// The run of a trace with two flushers, whose pages share a word: flusher 1 looks at page 0 in step 14, flusher 0 claims page 1 in
/// step 17, and so the exchange of flusher 1 in step 18 is missed; it looks again and claims page 0 in step 20.
pub fn missed_claim_run()
    ensures { MissedClaimRun }
{}

/// The run of the trace that writes two pages, on a strict disk: the flusher loads the context's count besides, in step 9, and the last
/// line but one tells that the context had 2 pages at most and may have 1040.
pub fn strict_pages_run()
    ensures { StrictPagesRun }
{}

/// The run of a trace with a strict disk, whose task rests after eight pages: the domain is far below its background threshold, but the
/// context has no part of that yet, so that the flusher finds its 8 pages in step 44, at tick 101, and writes them while the task rests.
pub fn strict_weighed_run()
    ensures { StrictWeighedRun }
{}

/// The run of a trace with an ageing disk, whose inodes are due 100 ticks after they were noticed: far below every threshold, the flusher
/// writes the first page for its inode's age at tick 101, while its task rests.
pub fn aged_page_run()
    ensures { AgedPageRun }
{}

/// The run of a trace with an ageing disk in which an inode still waits, and isn't due, when the last task ends: the flusher takes it from
/// its list in the drain.
pub fn waiting_inode_run()
    ensures { WaitingInodeRun }
{}

/// The run of the trace that writes two pages, on a disk whose scans end with one page: the first scan marks the inode again in step 16, as
/// it hasn't come to its end, and the second looks at both pages and takes the other one. Each page has a flight of its own.
pub fn chunked_run()
    ensures { ChunkedRun }
{}

/// The run of that trace where each scan begins at the place to which the one before it came: the second scan looks at page 1 alone, has one
/// page then and marks the inode again in step 23, as it hasn't passed page 0, and a third one finds both pages clean.
pub fn cyclic_run()
    ensures { CyclicRun }
{}

/// The run of the trace whose task rests for 300 ticks, with a context that begins with 100 pages a second, 100 on average, and a rate limit
/// of 50: the update at tick 201 goes on from these.
pub fn given_estimate_run()
    ensures { GivenEstimateRun }
{}

/// The run of a trace whose task rests for 50 ticks after each two of its seven pages: the pages go to the disk in one flight at tick 154,
/// after three such rests and one of 3 ticks that the trace has between the fifth page and the sixth.
pub fn paced_run()
    ensures { PacedRun }
{}
