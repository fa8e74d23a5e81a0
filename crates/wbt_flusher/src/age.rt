//! An idle flusher of an ageing device: it notices inodes of its device's queue, and scans each when it is due.
//!
//! An inode that it noticed waits in its wheel. A turn takes one at most: the first that waits, where that is due by the turn's
//! moment; or, where something is over background, the first whenever it is due.

ghost use Rattle.std.specs.Prelude.{◌≡◌, ◌&&◌, ◌⊎◌, ◌+◌, ◌<◌, ◌≤◌, ◌^◌, not, true, false, [], ◌∷◌, IsTrue, IsFalse, Contains, IfNone, IfSome, MatchOption, is_some, length, Option};
ghost use Rattle.wbt_expiry.specs.Kept.{NoneDue, TakesFirst, reach};
ghost use Rattle.wbt_expiry.specs.Waiting.{AreInOrder, has_inode, with_pair};
ghost use Rattle.wbt_kit.specs.declared.kit.Kit.{Kit};
ghost use Rattle.wbt_kit.specs.declared.kit.Seats.{Seats};
ghost use Rattle.wbt_kit.specs.declared.turn.Turn.TheVariants.{Halted, Spent, Stepped};
ghost use Rattle.wbt_rules.specs.declared.age.TheConstants.{MOST_NOTICED};
ghost use Rattle.wbt_rules.specs.declared.moments.TheConstants.{MOST_FAULTS};
ghost use Rattle.wbt_turns.specs.Words.{MayTake};
ghost use Rattle.wbt_run_steps.specs.Gate.{AskedBeforeEach};
ghost use Rattle.wbt_run_steps.specs.Kinds.{Steps};
ghost use Rattle.wbt_run_steps.specs.Inodes.{OnlyQueue};
ghost use Rattle.wbt_run_steps.specs.Queues.{OnlyDevice};
ghost use Rattle.wbt_flusher.specs.Ageing.{DecidesByAge, NoticesAll, NoticesNumber, TakesAny, TakesByAge, TakesDue};
ghost use Rattle.wbt_flusher.specs.Ages.{WasTold, pairs_of, told_at, with_list};
ghost use Rattle.wbt_flusher.specs.Answers.{Ends, Goes, GoesAt, IsReady};
ghost use Rattle.wbt_flusher.specs.Begins.{BeginsScan};
ghost use Rattle.wbt_flusher.specs.Cut.{LosesByAge};
ghost use Rattle.wbt_flusher.specs.Did.{Fits};
ghost use Rattle.wbt_flusher.specs.Plans.{IsInode, IsPlan, Suits};
ghost use Rattle.wbt_flusher.specs.Sights.{list_by, sight};
ghost use Rattle.wbt_flusher.specs.Turns.{HasLists, IsIdle};

use crate::plan::FlusherPlan;
use crate::work::FlusherWork;
use std::sync::Wait;
use wbt_expiry::{Due, Wheel};
use wbt_io::Gate;
use wbt_journal::Entry;
use wbt_kit::{Hands, Seats, Turn};
use wbt_rules::{FLUSHER_REST, MOST_NOTICED};
use wbt_run_steps::Pen;

impl FlusherPlan {
    /// At a moment it notices numbers of the queue, and takes the first inode of its list where that is due, or where something is
    /// over background; else it rests.
    pub fn decide_by_age<R: Wait, C, G: Gate>(
        &self,
        work: &mut FlusherWork,
        hands: &Hands<R, C, G>,
        seats: &mut Seats,
        pen: &mut Pen,
        over: bool,
        now: u64,
    ) -> Turn
        requires suits { Suits self.now hands.now.kit.now }
        requires ready { IsReady self.now hands.now.kit.now work.old seats.old }
        requires idle { IsIdle work.old }
        requires ages { self.now.ages ≡ true }
        requires moment { now < 2 ^ 62 }
        requires room { MOST_NOTICED + 1 ≤ pen.old.room }
        ensures asked { AskedBeforeEach self.now.cpu (G.said hands.now.gate.now) seats.old seats.new }
        ensures kinds { Steps self.now.cpu MayTake seats.old seats.new }
        ensures ends { (moments : _) (written : Option _) → Contains moments.estimates now → Ends self.now hands.now.kit.now false moments (G.said hands.now.gate.now) ⊥ result (sight work.old seats.old pen.old.log written) (sight work.new seats.new pen.new.log written) }
        ensures decides { result ≡ Stepped → (written : Option _) → DecidesByAge self.now hands.now.kit.now now over (sight work.old seats.old pen.old.log written) (sight work.new seats.new pen.new.log written) }
        ensures halts { result ≡ Halted → (written : Option _) → LosesByAge self.now now over (sight work.old seats.old pen.old.log written) (sight work.new seats.new pen.new.log written) }
        ensures unspent { result ≡ Spent → ⊥ }
        ensures faults { work.new.faults ≡ work.old.faults }
    {
        tell_wheel(&mut work.wheel, now);
        self.notice_all(work, hands, seats, pen, now);
        match self.take_by_age(work, pen, over, now) {
            None => {
                self.be_idle(work, now + FLUSHER_REST, false);
                Turn::Stepped
            }
            Some(inode) => self.begin_waiting(work, hands, seats, inode),
        }
    }

    // The numbers of the device's queue are noticed at a moment, as many as may be in a turn.
    fn notice_all<R: Wait, C, G>(
        &self,
        work: &mut FlusherWork,
        hands: &Hands<R, C, G>,
        seats: &mut Seats,
        pen: &mut Pen,
        now: u64,
    )
        requires suits { Suits self.now hands.now.kit.now }
        requires fits { Fits self.now hands.now.kit.now seats.old }
        requires lists { HasLists self.now work.old }
        requires ages { self.now.ages ≡ true }
        requires moment { now < 2 ^ 62 }
        requires told { WasTold now work.old.wheel }
        requires room { MOST_NOTICED + 1 ≤ pen.old.room }
        ensures goes { GoesAt now self.now hands.now.kit.now seats.old seats.new pen.old.log pen.new.log work.old work.new }
        ensures fits { Fits self.now hands.now.kit.now seats.new }
        ensures lists { HasLists self.now work.new }
        ensures told { WasTold now work.new.wheel }
        ensures only_queue { OnlyQueue seats.old seats.new }
        ensures only_wheel { work.new ≡ record work.old { wheel = work.new.wheel } }
        ensures notices { (written : Option _) → NoticesAll self.now now (sight work.old seats.old pen.old.log written) (sight work.new seats.new pen.new.log written) }
        ensures room { 1 ≤ pen.new.room }
    {
        'notices: for _ in 0..MOST_NOTICED {
            match self.take(hands, seats) {
                None => return,
                Some(inode) => self.notice(work, pen, inode, now),
            }
        }
    }

    // An inode that doesn't wait yet waits from a moment on, and is told. A number that names no inode of the device is dropped.
    fn notice(&self, work: &mut FlusherWork, pen: &mut Pen, inode: u32, now: u64)
        requires plan { IsPlan self.now }
        requires lists { HasLists self.now work.old }
        requires ages { self.now.ages ≡ true }
        requires moment { now < 2 ^ 62 }
        requires told { WasTold now work.old.wheel }
        requires room { 1 ≤ pen.old.room }
        ensures goes { (kit : Kit) (seats : Seats) → Fits self.now kit seats → GoesAt now self.now kit seats seats pen.old.log pen.new.log work.old work.new }
        ensures lists { HasLists self.now work.new }
        ensures told { WasTold now work.new.wheel }
        ensures only_wheel { work.new ≡ record work.old { wheel = work.new.wheel } }
        ensures notices { NoticesNumber self.now now inode work.old work.new pen.old.log pen.new.log }
        ensures room { pen.old.room ≤ pen.new.room + 1 }
    {
        if !self.has(inode) {
            return;
        }
        if put_in(&mut work.wheel, inode, self.due_of(inode, now)) {
            pen.tell(Entry::Noticed {
                flusher: self.flusher,
                inode,
                since: now,
            });
        }
    }

    // Takes the first inode of the list where it is due by a moment, or where something is over background.
    fn take_by_age(
        &self,
        work: &mut FlusherWork,
        pen: &mut Pen,
        over: bool,
        now: u64,
    ) -> Option<u32>
        requires lists { HasLists self.now work.old }
        requires moment { now < 2 ^ 62 }
        requires told { WasTold now work.old.wheel }
        requires room { 1 ≤ pen.old.room }
        ensures goes { (kit : Kit) (seats : Seats) → Fits self.now kit seats → GoesAt now self.now kit seats seats pen.old.log pen.new.log work.old work.new }
        ensures lists { HasLists self.now work.new }
        ensures only_wheel { work.new ≡ record work.old { wheel = work.new.wheel } }
        ensures none { IfNone result (NoneDue now (list_by work.old) × ((over ≡ false) ⊎ (list_by work.old ≡ [])) × (work.new ≡ work.old) × (pen.new.log ≡ pen.old.log)) }
        ensures takes { IfSome result (λ inode. IsInode self.now inode × ((seats : Seats) (written : Option _) → TakesByAge self.now now over inode (sight work.old seats pen.old.log written) (sight work.new seats pen.new.log written))) }
    {
        match self.take_due(work, pen, now) {
            Some(inode) => Some(inode),
            None => self.take_if(work, pen, over),
        }
    }

    /// Takes the first inode of the list where something is over background.
    pub fn take_if(&self, work: &mut FlusherWork, pen: &mut Pen, over: bool) -> Option<u32>
        requires lists { HasLists self.now work.old }
        requires room { 1 ≤ pen.old.room }
        ensures goes { (kit : Kit) (seats : Seats) → Fits self.now kit seats → Goes self.now kit seats seats pen.old.log pen.new.log work.old work.new }
        ensures lists { HasLists self.now work.new }
        ensures only_wheel { work.new ≡ record work.old { wheel = work.new.wheel } }
        ensures none { IfNone result (((over ≡ false) ⊎ (list_by work.old ≡ [])) × (work.new ≡ work.old) × (pen.new.log ≡ pen.old.log)) }
        ensures takes { IfSome result (λ inode. IsInode self.now inode × (over ≡ true) × ((seats : Seats) (written : Option _) → TakesAny self.now inode (sight work.old seats pen.old.log written) (sight work.new seats pen.new.log written))) }
    {
        if !over {
            return None;
        }
        self.take_first(work, pen)
    }

    // Takes the first inode of the list where it is due by a moment, and tells it.
    fn take_due(&self, work: &mut FlusherWork, pen: &mut Pen, now: u64) -> Option<u32>
        requires lists { HasLists self.now work.old }
        requires moment { now < 2 ^ 62 }
        requires told { WasTold now work.old.wheel }
        requires room { 1 ≤ pen.old.room }
        ensures goes { (kit : Kit) (seats : Seats) → Fits self.now kit seats → GoesAt now self.now kit seats seats pen.old.log pen.new.log work.old work.new }
        ensures lists { HasLists self.now work.new }
        ensures only_wheel { work.new ≡ record work.old { wheel = work.new.wheel } }
        ensures none { IfNone result (NoneDue now (list_by work.old) × (work.new ≡ work.old) × (pen.new ≡ pen.old)) }
        ensures takes { IfSome result (λ inode. IsInode self.now inode × ((seats : Seats) (written : Option _) → TakesDue self.now now inode (sight work.old seats pen.old.log written) (sight work.new seats pen.new.log written))) }
    {
        match next_in(&mut work.wheel, now) {
            None => None,
            Some(due) => {
                pen.tell(Entry::Aged {
                    flusher: self.flusher,
                    inode: due.inode,
                    due: due.due,
                    now,
                });
                Some(due.inode)
            }
        }
    }

    /// Takes the first inode of the list, whenever it is due, and tells it.
    pub fn take_first(&self, work: &mut FlusherWork, pen: &mut Pen) -> Option<u32>
        requires lists { HasLists self.now work.old }
        requires room { 1 ≤ pen.old.room }
        ensures goes { (kit : Kit) (seats : Seats) → Fits self.now kit seats → Goes self.now kit seats seats pen.old.log pen.new.log work.old work.new }
        ensures lists { HasLists self.now work.new }
        ensures only_wheel { work.new ≡ record work.old { wheel = work.new.wheel } }
        ensures none { IfNone result ((list_by work.old ≡ []) × (work.new ≡ work.old) × (pen.new ≡ pen.old)) }
        ensures takes { IfSome result (λ inode. IsInode self.now inode × ((seats : Seats) (written : Option _) → TakesAny self.now inode (sight work.old seats pen.old.log written) (sight work.new seats pen.new.log written))) }
    {
        match first_in(&mut work.wheel) {
            None => None,
            Some(due) => {
                pen.tell(Entry::Taken {
                    flusher: self.flusher,
                    inode: due.inode,
                });
                Some(due.inode)
            }
        }
    }

    /// The scan of an inode that waited begins.
    pub fn begin_waiting<R: Wait, C, G: Gate>(
        &self,
        work: &mut FlusherWork,
        hands: &Hands<R, C, G>,
        seats: &mut Seats,
        inode: u32,
    ) -> Turn
        requires suits { Suits self.now hands.now.kit.now }
        requires ready { IsReady self.now hands.now.kit.now work.old seats.old }
        requires idle { IsIdle work.old }
        requires inode { IsInode self.now inode }
        ensures asked { AskedBeforeEach self.now.cpu (G.said hands.now.gate.now) seats.old seats.new }
        ensures kinds { Steps self.now.cpu MayTake seats.old seats.new }
        ensures ends { (drain : _) (moments : _) (log : _) (written : Option _) → Ends self.now hands.now.kit.now drain moments (G.said hands.now.gate.now) ⊥ result (sight work.old seats.old log written) (sight work.new seats.new log written) }
        ensures begins { result ≡ Stepped → (log : _) (written : Option _) → BeginsScan self.now hands.now.kit.now inode (sight work.old seats.old log written) (sight work.new seats.new log written) }
        ensures halts { result ≡ Halted → (work.new ≡ work.old) × (seats.new ≡ seats.old) }
        ensures unspent { result ≡ Spent → ⊥ }
        ensures faults { work.new.faults ≡ work.old.faults }
    {
        if self.begin_scan(work, hands, seats, inode) {
            return Turn::Stepped;
        }
        Turn::Halted
    }
}

// A wheel, where there is one, is told a moment.
fn tell_wheel(wheel: &mut Option<Wheel>, now: u64)
    requires moment { now < 2 ^ 62 }
    ensures told { wheel.new ≡ told_at now wheel.old }
{
    if let Some(wheel) = wheel {
        wheel.move_to(now);
    }
}

// Puts an inode into a wheel. False where it waits already, or where there is no wheel.
fn put_in(wheel: &mut Option<Wheel>, inode: u32, due: u64) -> bool
    requires there { IfSome wheel.old (λ waiting. inode < waiting.inodes) }
    requires soon { IfSome wheel.old (λ waiting. due ≤ waiting.told + reach) }
    ensures accepted { result ≡ (is_some wheel.old && not (has_inode inode (pairs_of wheel.old))) }
    ensures put { IsTrue result → wheel.new ≡ with_list (with_pair (record { due = due; inode = inode }) (pairs_of wheel.old)) wheel.old }
    ensures refused { IsFalse result → wheel.new ≡ wheel.old }
    ensures order { IfSome wheel.new (λ waiting. AreInOrder waiting.pairs) }
{
    match wheel {
        None => false,
        Some(wheel) => wheel.put(inode, due),
    }
}

// Takes the first pair of a wheel where it is due by a moment.
fn next_in(wheel: &mut Option<Wheel>, to: u64) -> Option<Due>
    requires moment { to < 2 ^ 62 }
    ensures taken { TakesFirst to (pairs_of wheel.old) (pairs_of wheel.new) result }
    ensures only_list { wheel.new ≡ with_list (pairs_of wheel.new) (told_at to wheel.old) }
{
    match wheel {
        None => None,
        Some(wheel) => wheel.next(to),
    }
}

// Takes the first pair of a wheel, whenever it is due.
fn first_in(wheel: &mut Option<Wheel>) -> Option<Due>
    ensures taken { MatchOption result ((pairs_of wheel.old ≡ []) × (pairs_of wheel.new ≡ [])) (λ pair. pairs_of wheel.old ≡ pair ∷ pairs_of wheel.new) }
    ensures only_list { wheel.new ≡ with_list (pairs_of wheel.new) wheel.old }
{
    match wheel {
        None => None,
        Some(wheel) => wheel.first(),
    }
}
