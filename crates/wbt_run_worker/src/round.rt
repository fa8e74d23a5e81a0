//! A round of a CPU: the first job that is ready, from the one after that of the last turn, takes a turn.

ghost use Rattle.std.specs.Prelude.{◌≡◌, ◌<◌, length, min};
ghost use Rattle.wbt_run_worker.specs.Answers.{Goes, JobAnswers, RoundAnswers, WaitsOn, job_by};
ghost use Rattle.wbt_run_worker.specs.Side.{IsSide};
ghost use Rattle.wbt_run_worker.specs.Team.{team_of};
ghost use Rattle.wbt_run_worker.specs.Rotation.{flusher_or_writers, next_job, taker};
ghost use Rattle.wbt_run_worker.specs.Rounds.{JobTakes, JobWaits, Rotates};
ghost use Rattle.wbt_run_worker.specs.Went.{StandsStay};

use crate::side::{CpuSide, End, Job};
use std::sync::Wait;
use wbt_io::{Clock, Disk, Gate};
use wbt_kit::{Hands, Seats, Turn};

/// What came of a round.
#[derive(Clone, Copy)]
pub enum Round {
    /// A job took a turn.
    Stepped,
    /// No job is ready, the soonest in so many ticks; the writers have ended where nobody writes.
    Idle { ticks: u64, writes: bool },
    /// The side ends so.
    Ends { end: End },
}

/// What came of a job's turn.
#[derive(Clone, Copy)]
pub enum JobOutcome {
    /// It was made.
    Stepped,
    /// The job is ready in so many ticks.
    Resting { ticks: u64 },
    /// The job is over.
    Over,
    /// The side ends so.
    Ends { end: End },
}

/// The most ticks that a worker rests at once.
pub const MOST_REST: u64 = 10;

/// What a turn's answer is to its worker.
pub fn job_of(turn: Turn) -> JobOutcome
    requires waits { WaitsOn turn }
    ensures { result ≡ job_by turn }
{
    match turn {
        Turn::Stepped => JobOutcome::Stepped,
        Turn::Resting { now, until } => JobOutcome::Resting { ticks: until - now },
        Turn::Done => JobOutcome::Over,
        Turn::Halted => JobOutcome::Ends { end: End::Halted },
        Turn::Faulted => JobOutcome::Ends { end: End::Faulted },
        Turn::Spent => JobOutcome::Ends { end: End::Spent },
        Turn::NoMemory => JobOutcome::Ends { end: End::Refused },
    }
}

// The sooner of two.
fn sooner(one: u64, other: u64) -> u64
    ensures { result ≡ min one other }
{
    one.min(other)
}

impl<'t, D: Disk> CpuSide<'t, D> {
    /// The first job that is ready takes a turn, from the one after that of the last turn, round the list of jobs.
    pub fn round<R: Wait, C: Clock, G: Gate>(
        &mut self,
        hands: &Hands<R, C, G>,
        seats: &mut Seats,
    ) -> Round
        requires side { IsSide self.old.writers.trace self.old.writers.cpu hands.now.kit.now (team_of D.written D.faults self.old) seats.old }
        ensures goes { Goes (C.told hands.now.clock.now) self.old.writers.trace self.old.writers.cpu hands.now.kit.now (team_of D.written D.faults self.old) (team_of D.written D.faults self.new) seats.old seats.new }
        ensures stands { StandsStay self.old.posts.items self.new.posts.items }
        ensures answers { RoundAnswers (G.said hands.now.gate.now) self.old.writers.trace self.old.writers.cpu hands.now.kit.now result (team_of D.written D.faults self.old) (team_of D.written D.faults self.new) seats.old seats.new }

        // Who went, what each job before it said, and with whom the next round begins.
        ensures rotates { Rotates (C.told hands.now.clock.now) (G.said hands.now.gate.now) hands.now.kit.now result self.old.next self.new.next (team_of D.written D.faults self.old) (team_of D.written D.faults self.new) seats.old seats.new }
    {
        let mut next = self.next;
        let mut ticks = MOST_REST;
        let mut writes = true;
        for _job in 0..=self.posts.len() {
            let job = next;
            next = self.after(job);
            match self.turn(hands, seats, job) {
                JobOutcome::Stepped => {
                    self.next = next;
                    return Round::Stepped;
                }
                JobOutcome::Resting { ticks: rest } => ticks = sooner(ticks, rest),
                JobOutcome::Over => writes = false,
                JobOutcome::Ends { end } => return Round::Ends { end },
            }
        }
        Round::Idle { ticks, writes }
    }

    // The job after one in the rotation: the writers, and then the flushers by number.
    fn after(&self, job: Job) -> Job
        ensures { result ≡ next_job (length self.now.posts.items) job }
    {
        match job {
            Job::Writers => self.flusher_or_writers(0),
            Job::Flusher(place) if place < self.posts.len() => self.flusher_or_writers(place + 1),
            Job::Flusher(_) => Job::Writers,
        }
    }

    // Who takes the turn of a job.
    fn taker(&self, job: Job) -> Job
        ensures taker { result ≡ taker (length self.now.posts.items) job }
        ensures there { (place : _) → result ≡ Job.Flusher place → place < length self.now.posts.items }
    {
        match job {
            Job::Writers => Job::Writers,
            Job::Flusher(place) => self.flusher_or_writers(place),
        }
    }

    // The flusher of this place, where there is one.
    fn flusher_or_writers(&self, place: usize) -> Job
        ensures is { result ≡ flusher_or_writers (length self.now.posts.items) place }
        ensures there { (at : _) → result ≡ Job.Flusher at → at < length self.now.posts.items }
    {
        if place < self.posts.len() {
            Job::Flusher(place)
        } else {
            Job::Writers
        }
    }

    // The turn of a job: the writers', or that of a flusher.
    fn turn<R: Wait, C: Clock, G: Gate>(
        &mut self,
        hands: &Hands<R, C, G>,
        seats: &mut Seats,
        job: Job,
    ) -> JobOutcome
        requires side { IsSide self.old.writers.trace self.old.writers.cpu hands.now.kit.now (team_of D.written D.faults self.old) seats.old }
        ensures goes { Goes (C.told hands.now.clock.now) self.old.writers.trace self.old.writers.cpu hands.now.kit.now (team_of D.written D.faults self.old) (team_of D.written D.faults self.new) seats.old seats.new }
        ensures stands { StandsStay self.old.posts.items self.new.posts.items }
        ensures answers { JobAnswers (G.said hands.now.gate.now) self.old.writers.trace self.old.writers.cpu hands.now.kit.now result (team_of D.written D.faults self.old) (team_of D.written D.faults self.new) seats.old seats.new }
        ensures next { self.new.next ≡ self.old.next }
        ensures takes { JobTakes (C.told hands.now.clock.now) (G.said hands.now.gate.now) hands.now.kit.now job result (team_of D.written D.faults self.old) (team_of D.written D.faults self.new) seats.old seats.new }
        ensures waits { JobWaits (C.told hands.now.clock.now) job result (team_of D.written D.faults self.old) (team_of D.written D.faults self.new) seats.old seats.new }
    {
        match self.taker(job) {
            Job::Writers => job_of(self.writers.turn(hands, seats, &mut self.log)),
            Job::Flusher(place) => self.turn_flusher(hands, seats, place),
        }
    }

    // The turn of the flusher of this place, counted from 0.
    fn turn_flusher<R: Wait, C: Clock, G: Gate>(
        &mut self,
        hands: &Hands<R, C, G>,
        seats: &mut Seats,
        at: usize,
    ) -> JobOutcome
        requires side { IsSide self.old.writers.trace self.old.writers.cpu hands.now.kit.now (team_of D.written D.faults self.old) seats.old }
        requires there { at < length self.old.posts.items }
        ensures goes { Goes (C.told hands.now.clock.now) self.old.writers.trace self.old.writers.cpu hands.now.kit.now (team_of D.written D.faults self.old) (team_of D.written D.faults self.new) seats.old seats.new }
        ensures stands { StandsStay self.old.posts.items self.new.posts.items }
        ensures answers { JobAnswers (G.said hands.now.gate.now) self.old.writers.trace self.old.writers.cpu hands.now.kit.now result (team_of D.written D.faults self.old) (team_of D.written D.faults self.new) seats.old seats.new }
        ensures next { self.new.next ≡ self.old.next }
        ensures takes { JobTakes (C.told hands.now.clock.now) (G.said hands.now.gate.now) hands.now.kit.now (Job.Flusher at) result (team_of D.written D.faults self.old) (team_of D.written D.faults self.new) seats.old seats.new }
        ensures waits { JobWaits (C.told hands.now.clock.now) (Job.Flusher at) result (team_of D.written D.faults self.old) (team_of D.written D.faults self.new) seats.old seats.new }
    {
        let post = &mut self.posts[at];
        job_of(post.flusher.turn(hands, seats, false, &mut self.log))
    }
}
