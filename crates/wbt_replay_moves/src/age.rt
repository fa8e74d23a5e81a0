//! Writeback by age: an idle flusher of an ageing device notices the inodes of its queue, and takes those that are due.

ghost use Rattle.std.specs.Prelude.{◌≡◌, ◌+◌, ◌<◌, ◌≤◌, ◌^◌, [], ◌∷◌, length, not, IfNone, IfSome, IsSome, OnOk};
ghost use Rattle.std.specs.Bool.{OnTrue, OnFalse};
ghost use Rattle.wbt_expiry.specs.Kept.{reach, NoneDue};
ghost use Rattle.wbt_expiry.specs.Waiting.{has_inode, with_pair};
ghost use Rattle.wbt_rules.specs.Things as things;
ghost use Rattle.wbt_replay_moves.specs.Definition.Idle as spec;
ghost use Rattle.wbt_replay_moves.specs.Definition.State.{flusher_of, queue_of, waiting_of};
ghost use Rattle.wbt_replay_moves.specs.Kept.Fit.{HasFlusher, NoticeFits, NoticesFit, QueueFits};
ghost use Rattle.wbt_replay_moves.specs.Seen.{seen};

use crate::machine::Machine;
use std::alloc::AllocError;
use wbt_expiry::Due;
use wbt_journal::Entry;
use wbt_rules::{FLUSHER_REST, MOST_NOTICED, due_after, flusher_device};
use wbt_trace::Trace;

impl Machine {
    /// What an idle flusher of an ageing device does after its tests, which found whether a domain, or a context that was weighed, is
    /// over background.
    pub fn age(
        &mut self,
        trace: &Trace,
        cpu: u32,
        flusher: u32,
        now: u64,
        over: bool,
    ) -> Result<(), AllocError>
        requires cpu { cpu < length (seen self.old).cpus }
        requires flusher { HasFlusher trace.now flusher (length (seen self.old).flushers) (length (seen self.old).queues) }
        requires wheel { IsSome (flusher_of flusher (seen self.old)).wheel }
        requires queue { QueueFits trace.now (queue_of (things.flusher_device trace.now flusher) (seen self.old)) (flusher_of flusher (seen self.old)).wheel }
        requires moment { now < 2 ^ 62 }
        ensures { OnOk result (seen self.new ≡ spec.age trace.now cpu flusher now over (seen self.old)) }
    {
        self.tell(flusher, now);
        self.notice_all(trace, cpu, flusher, now)?;
        self.take_aged(cpu, flusher, now, over)
    }

    fn tell(&mut self, flusher: u32, now: u64)
        requires flusher { flusher < length (seen self.old).flushers }
        requires wheel { IsSome (flusher_of flusher (seen self.old)).wheel }
        requires moment { now < 2 ^ 62 }
        ensures { seen self.new ≡ spec.tell flusher now (seen self.old) }
    {
        match &mut self.flushers[flusher as usize].wheel {
            None => {}
            Some(wheel) => wheel.move_to(now),
        }
    }

    // ---- notices

    fn notice_all(
        &mut self,
        trace: &Trace,
        cpu: u32,
        flusher: u32,
        since: u64,
    ) -> Result<(), AllocError>
        requires cpu { cpu < length (seen self.old).cpus }
        requires fits { NoticesFit trace.now flusher since (seen self.old) }
        ensures { OnOk result (seen self.new ≡ spec.notice_all trace.now cpu flusher since MOST_NOTICED (seen self.old)) }
    {
        for _ in 0..MOST_NOTICED {
            self.notice_next(trace, cpu, flusher, since)?;
        }
        Ok(())
    }

    // The next number of the device's queue, where there is one.
    fn notice_next(
        &mut self,
        trace: &Trace,
        cpu: u32,
        flusher: u32,
        since: u64,
    ) -> Result<(), AllocError>
        requires cpu { cpu < length (seen self.old).cpus }
        requires fits { NoticesFit trace.now flusher since (seen self.old) }
        ensures { OnOk result (seen self.new ≡ spec.notice_next trace.now cpu flusher since (seen self.old)) }
    {
        let device = flusher_device(trace, flusher);
        match self.queues[device as usize].pop_front() {
            None => Ok(()),
            Some(inode) => self.notice(trace, cpu, flusher, inode, since),
        }
    }

    fn notice(
        &mut self,
        trace: &Trace,
        cpu: u32,
        flusher: u32,
        inode: u32,
        since: u64,
    ) -> Result<(), AllocError>
        requires cpu { cpu < length (seen self.old).cpus }
        requires flusher { flusher < length (seen self.old).flushers }
        requires wheel { IsSome (flusher_of flusher (seen self.old)).wheel }
        requires inode { NoticeFits trace.now (waiting_of flusher (seen self.old)).inodes inode }
        requires told { since ≤ (waiting_of flusher (seen self.old)).told }
        requires early { since < 2 ^ 62 }
        ensures { OnOk result (seen self.new ≡ spec.notice trace.now cpu flusher inode since (seen self.old)) }
    {
        let due = due_after(trace, inode, since);
        if self.put(flusher, inode, due) {
            return self.log(
                cpu,
                Entry::Noticed {
                    flusher,
                    inode,
                    since,
                },
            );
        }
        Ok(())
    }

    // The inode waits from now on. It answers false where it waits already.
    fn put(&mut self, flusher: u32, inode: u32, due: u64) -> bool
        requires flusher { flusher < length (seen self.old).flushers }
        requires wheel { IsSome (flusher_of flusher (seen self.old)).wheel }
        requires inode { inode < (waiting_of flusher (seen self.old)).inodes }
        requires due { due ≤ (waiting_of flusher (seen self.old)).told + reach }
        ensures accepted { result ≡ not (has_inode inode (waiting_of flusher (seen self.old)).pairs) }
        ensures put { OnTrue result (seen self.new ≡ spec.with_pairs flusher (with_pair (record { due = due; inode = inode }) (waiting_of flusher (seen self.old)).pairs) (seen self.old)) }
        ensures refused { OnFalse result (seen self.new ≡ seen self.old) }
    {
        match &mut self.flushers[flusher as usize].wheel {
            None => false,
            Some(wheel) => wheel.put(inode, due),
        }
    }

    // ---- takes

    // The first pair that waits is taken where it is due. Else the first is taken where something is over background, if any waits.
    fn take_aged(&mut self, cpu: u32, flusher: u32, now: u64, over: bool) -> Result<(), AllocError>
        requires cpu { cpu < length (seen self.old).cpus }
        requires flusher { flusher < length (seen self.old).flushers }
        requires wheel { IsSome (flusher_of flusher (seen self.old)).wheel }
        requires told { now ≤ (waiting_of flusher (seen self.old)).told }
        requires moment { now < 2 ^ 62 }
        ensures { OnOk result (seen self.new ≡ spec.age_so cpu flusher now over (seen self.old)) }
    {
        match self.pop_due(flusher, now) {
            Some(pair) => self.take_due(cpu, flusher, now, pair),
            None if over => self.first_or_rest(cpu, flusher, now + FLUSHER_REST),
            None => {
                self.rest_until(flusher, now + FLUSHER_REST);
                Ok(())
            }
        }
    }

    fn first_or_rest(&mut self, cpu: u32, flusher: u32, until: u64) -> Result<(), AllocError>
        requires cpu { cpu < length (seen self.old).cpus }
        requires flusher { flusher < length (seen self.old).flushers }
        ensures { OnOk result (seen self.new ≡ spec.first_or_rest cpu flusher until (waiting_of flusher (seen self.old)).pairs (seen self.old)) }
    {
        match self.pop_first(flusher) {
            None => {
                self.rest_until(flusher, until);
                Ok(())
            }
            Some(pair) => self.take_first(cpu, flusher, pair),
        }
    }

    /// In the drain: the first pair that waits is taken, and one of the queue where none waits.
    pub fn take_last(&mut self, trace: &Trace, cpu: u32, flusher: u32) -> Result<(), AllocError>
        requires cpu { cpu < length (seen self.old).cpus }
        requires flusher { HasFlusher trace.now flusher (length (seen self.old).flushers) (length (seen self.old).queues) }
        requires working { 1 ≤ (seen self.old).working }
        ensures { OnOk result (seen self.new ≡ spec.take_last trace.now cpu flusher (waiting_of flusher (seen self.old)).pairs (seen self.old)) }
    {
        match self.pop_first(flusher) {
            None => self.take_or_finish(trace, cpu, flusher),
            Some(pair) => self.take_first(cpu, flusher, pair),
        }
    }

    fn take_due(&mut self, cpu: u32, flusher: u32, now: u64, pair: Due) -> Result<(), AllocError>
        requires cpu { cpu < length (seen self.old).cpus }
        requires flusher { flusher < length (seen self.old).flushers }
        ensures { OnOk result (seen self.new ≡ spec.due_taken cpu flusher now pair (seen self.old)) }
    {
        self.log(
            cpu,
            Entry::Aged {
                flusher,
                inode: pair.inode,
                due: pair.due,
                now,
            },
        )?;
        self.take(cpu, flusher, pair.inode)
    }

    fn take_first(&mut self, cpu: u32, flusher: u32, pair: Due) -> Result<(), AllocError>
        requires cpu { cpu < length (seen self.old).cpus }
        requires flusher { flusher < length (seen self.old).flushers }
        ensures { OnOk result (seen self.new ≡ spec.first_taken cpu flusher pair (seen self.old)) }
    {
        self.log(
            cpu,
            Entry::Taken {
                flusher,
                inode: pair.inode,
            },
        )?;
        self.take(cpu, flusher, pair.inode)
    }

    // The first pair no longer waits, where it is due by now.
    fn pop_due(&mut self, flusher: u32, now: u64) -> Option<Due>
        requires flusher { flusher < length (seen self.old).flushers }
        requires told { now ≤ (waiting_of flusher (seen self.old)).told }
        requires moment { now < 2 ^ 62 }
        ensures none { IfNone result (NoneDue now (waiting_of flusher (seen self.old)).pairs × (seen self.new ≡ seen self.old)) }
        ensures due { IfSome result (λ pair. (pair.due ≤ now) × ((waiting_of flusher (seen self.old)).pairs ≡ pair ∷ (waiting_of flusher (seen self.new)).pairs)) }
        ensures rest { IfSome result (λ pair. seen self.new ≡ spec.with_pairs flusher (waiting_of flusher (seen self.new)).pairs (seen self.old)) }
    {
        match &mut self.flushers[flusher as usize].wheel {
            None => None,
            Some(wheel) => wheel.next(now),
        }
    }

    // The first pair no longer waits, where one does.
    fn pop_first(&mut self, flusher: u32) -> Option<Due>
        requires flusher { flusher < length (seen self.old).flushers }
        ensures none { IfNone result (((waiting_of flusher (seen self.old)).pairs ≡ []) × (seen self.new ≡ seen self.old)) }
        ensures first { IfSome result (λ pair. (waiting_of flusher (seen self.old)).pairs ≡ pair ∷ (waiting_of flusher (seen self.new)).pairs) }
        ensures rest { IfSome result (λ pair. seen self.new ≡ spec.with_pairs flusher (waiting_of flusher (seen self.new)).pairs (seen self.old)) }
    {
        match &mut self.flushers[flusher as usize].wheel {
            None => None,
            Some(wheel) => wheel.first(),
        }
    }
}
