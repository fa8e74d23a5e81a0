//! Pages: writers dirty them, flushers claim them, and complete them or give them back.

ghost use Rattle.std.specs.Prelude.{◌≡◌, ◌<◌, ◌≤◌, ◌^◌, IfOk, IfErr, length, get_or};
ghost use Rattle.wbt_num.specs.declared.most.TheConstants.{MOST_PAGES};
ghost use Rattle.wbt_grant.specs.Kinds.{look, claim, complete, back};
ghost use Rattle.wbt_table.specs.Layout.{setting, pages_in, inode_at, AreInOrder, no_place, no_writer};
ghost use Rattle.wbt_table.specs.Rule.{Has, Holds};
ghost use Rattle.wbt_table.specs.Seat.{IsAt, Makes, Knows, put_state, page_stepped};
ghost use Rattle.wbt_table.specs.Calls as spec;
ghost use Rattle.wbt_table.specs.Calls.{CanDirty, CanComplete, CanClaim, CanGiveBack, IsUnheld, FindsWriteback, Dirties, HasPageSteps, HasNoPageSteps, Claims, GivesBack, owing_event};

use crate::answer::{Back, Claim, Dirtied, Spent};
use crate::layout::{Place, Writer};
use crate::seat::{CpuSeat, Throttle};
use crate::state::{CpuState, state_of, step, step_owing, step_page};
use std::marker::Brand;
use wbt_book::{bits_of, is_claimable_at, is_dirty_at};
use wbt_io::Gate;

impl Throttle {
    /// Dirties a page for a writer (the step `dirty`). Fresh where the page wasn't dirty: the writer then has a page less left,
    /// and its CPU owes an event to each counter of the page. Spent where the CPU has made as many page steps as it may;
    /// then nothing changed.
    ///
    /// Requires: a seat of this throttle that holds the writer's CPU; the writer exists; the page exists, and is in the writer's context; the
    /// writer has a page left (`left`); and its CPU owes no counter anything (`owes`), since `settle` has paid for its page before.
    pub fn dirty(&self, seat: &mut CpuSeat, writer: u32, page: u32) -> Result<Dirtied, Spent>
        requires seat { IsAt self.now seat.old }
        requires may { Holds seat.old.cpus ((setting self.now.layout).seat writer) (CanDirty (setting self.now.layout) writer page) }
        ensures dirtied { IfOk result (λ answer. Dirties (setting self.now.layout) writer page answer seat.old seat.new) }
        ensures had_a_step { IfOk result (λ _. HasPageSteps (setting self.now.layout) ((setting self.now.layout).seat writer) seat.old) }
        ensures spent { IfErr result (λ _. (seat.new ≡ seat.old) × HasNoPageSteps (setting self.now.layout) ((setting self.now.layout).seat writer) seat.old) }
    {
        let who = self.words.layout.writers.as_slice()[writer as usize];
        self.dirty_for(seat, writer, who, page)
    }

    /// Completes a page that the CPU holds (the step `complete`): it is no longer under writeback, and the CPU owes an event to
    /// each counter of the page. Spent where the CPU has made as many page steps as it may; then nothing changed.
    ///
    /// Requires: a seat of this throttle that holds the CPU, which holds the page since its claim, and owes no counter anything (`settle`).
    pub fn complete(&self, seat: &mut CpuSeat, cpu: u32, page: u32) -> Result<(), Spent>
        requires seat { IsAt self.now seat.old }
        requires may { Holds seat.old.cpus cpu (CanComplete (setting self.now.layout) page) }
        ensures completed { IfOk result (λ _. (n : _) × Makes (setting self.now.layout) (complete cpu page) n seat.old seat.new) }
        ensures had_a_step { IfOk result (λ _. HasPageSteps (setting self.now.layout) cpu seat.old) }
        ensures spent { IfErr result (λ _. (seat.new ≡ seat.old) × HasNoPageSteps (setting self.now.layout) cpu seat.old) }
    {
        let state = state_of(&seat.cpus, cpu);
        if state.page_steps >= self.words.layout.page_steps {
            return Err(Spent);
        }
        let grants = state.grants;
        self.words
            .complete::<Brand>(&mut seat.place, grants, cpu, page);
        let context = home_of(self.words.layout.inodes.as_slice(), page);
        self.owe(&mut seat.cpus, cpu, context, -1);
        Ok(())
    }

    /// Claims a page (the steps `look` and `claim`): where it is dirty and not under writeback, it is then under writeback and no
    /// longer dirty, and the CPU holds it, which it didn't before. NotDirty where the loaded word says otherwise, Missed where the word changed between
    /// the two steps, Stopped where the gate answered false before one. None of these three changes a word.
    ///
    /// Requires: a seat of this throttle that holds the CPU. The page exists.
    pub fn claim<G: Gate>(&self, seat: &mut CpuSeat, cpu: u32, page: u32, gate: &G) -> Claim
        requires seat { IsAt self.now seat.old }
        requires page { page < (setting self.now.layout).pages }
        requires held { (r : _) × Has seat.old.cpus cpu r }
        ensures { Claims (setting self.now.layout) cpu page (G.said gate.now cpu) result seat.old seat.new }
    {
        if !gate.may_step(cpu, seat.state(cpu).steps) {
            return Claim::Stopped;
        }
        let first = self.look(seat, cpu, page);
        if !is_claimable_at(first, page) {
            return Claim::NotDirty {
                word: bits_of(first, page),
            };
        }
        if !gate.may_step(cpu, seat.state(cpu).steps) {
            return Claim::Stopped;
        }
        let second = self.exchange(seat, cpu, page, first);
        if second == first {
            return Claim::Mine;
        }
        Claim::Missed { first, second }
    }

    /// Gives back a page that the CPU holds (the steps `look` and `back`): it is then dirty and no longer under writeback, and the CPU holds
    /// it no more. Redirtied where it wasn't dirty: its counts stay, and the CPU owes its inode the mark. Absorbed where it was dirty: the CPU
    /// owes an event of -1 to each counter of the page. Missed where the word changed between the two steps, Stopped where the gate answered
    /// false before one. Neither changes a word, and the CPU holds the page still. Spent where the CPU has made as many page steps as it may;
    /// then nothing changed, and no step was made.
    ///
    /// Requires: a seat of this throttle that holds the CPU, which holds the page since its claim, and owes no counter anything (`settle`).
    pub fn give_back<G: Gate>(
        &self,
        seat: &mut CpuSeat,
        cpu: u32,
        page: u32,
        gate: &G,
    ) -> Result<Back, Spent>
        requires seat { IsAt self.now seat.old }
        requires may { Holds seat.old.cpus cpu (CanComplete (setting self.now.layout) page) }
        ensures gives { IfOk result (λ answer. GivesBack (setting self.now.layout) cpu page (G.said gate.now cpu) answer seat.old seat.new) }
        ensures had_a_step { IfOk result (λ _. HasPageSteps (setting self.now.layout) cpu seat.old) }
        ensures spent { IfErr result (λ _. (seat.new ≡ seat.old) × HasNoPageSteps (setting self.now.layout) cpu seat.old) }
    {
        if seat.state(cpu).page_steps >= self.words.layout.page_steps {
            return Err(Spent);
        }
        Ok(self.try_back(seat, cpu, page, gate))
    }

    // Gives back a page of a CPU that has a page step left.
    fn try_back<G: Gate>(&self, seat: &mut CpuSeat, cpu: u32, page: u32, gate: &G) -> Back
        requires seat { IsAt self.now seat.old }
        requires may { Holds seat.old.cpus cpu (CanComplete (setting self.now.layout) page) }
        requires has_a_step { HasPageSteps (setting self.now.layout) cpu seat.old }
        ensures { GivesBack (setting self.now.layout) cpu page (G.said gate.now cpu) result seat.old seat.new }
    {
        if !gate.may_step(cpu, seat.state(cpu).steps) {
            return Back::Stopped;
        }
        let found = self.look(seat, cpu, page);
        if !gate.may_step(cpu, seat.state(cpu).steps) {
            return Back::Stopped;
        }
        let second = self.put_back(seat, cpu, page, found);
        if second != found {
            return Back::Missed {
                first: found,
                second,
            };
        }
        if is_dirty_at(found, page) {
            return Back::Absorbed;
        }
        Back::Redirtied
    }

    // Dirties a page for a writer, of which this is known.
    #[inline(always)]
    fn dirty_for(
        &self,
        seat: &mut CpuSeat,
        writer: u32,
        who: Writer,
        page: u32,
    ) -> Result<Dirtied, Spent>
        requires seat { IsAt self.now seat.old }
        requires who { who ≡ get_or self.now.layout.writers writer no_writer }
        requires may { Holds seat.old.cpus ((setting self.now.layout).seat writer) (CanDirty (setting self.now.layout) writer page) }
        ensures dirtied { IfOk result (λ answer. Dirties (setting self.now.layout) writer page answer seat.old seat.new) }
        ensures had_a_step { IfOk result (λ _. HasPageSteps (setting self.now.layout) ((setting self.now.layout).seat writer) seat.old) }
        ensures spent { IfErr result (λ _. (seat.new ≡ seat.old) × HasNoPageSteps (setting self.now.layout) ((setting self.now.layout).seat writer) seat.old) }
    {
        let state = state_of(&seat.cpus, who.cpu);
        if state.page_steps >= self.words.layout.page_steps {
            return Err(Spent);
        }
        let grants = state.grants;
        let found = self
            .words
            .dirty::<Brand>(&mut seat.place, grants, writer, page);
        if is_dirty_at(found, page) {
            step_page(&mut seat.cpus, who.cpu);
            return Ok(Dirtied::Already);
        }
        self.owe(&mut seat.cpus, who.cpu, who.context, 1);
        seat.lefts[writer as usize] -= 1;
        Ok(Dirtied::Fresh)
    }

    // The answer is the page's word.
    #[inline(always)]
    fn look(&self, seat: &mut CpuSeat, cpu: u32, page: u32) -> u64
        requires seat { IsAt self.now seat.old }
        requires page { page < (setting self.now.layout).pages }
        requires held { (r : _) × Has seat.old.cpus cpu r }
        ensures makes { Makes (setting self.now.layout) (look cpu page) result seat.old seat.new }
        ensures under { FindsWriteback cpu page result seat.old }
    {
        let grants = state_of(&seat.cpus, cpu).grants;
        let found = self.words.look::<Brand>(&mut seat.place, grants, cpu, page);
        step(&mut seat.cpus, cpu);
        found
    }

    // The answer is the page's word as it was.
    #[inline(always)]
    fn exchange(&self, seat: &mut CpuSeat, cpu: u32, page: u32, found: u64) -> u64
        requires seat { IsAt self.now seat.old }
        requires may { Holds seat.old.cpus cpu (CanClaim (setting self.now.layout) page found) }
        ensures makes { Makes (setting self.now.layout) (claim cpu page) result seat.old seat.new }
        ensures unheld { result ≡ found → IsUnheld cpu page seat.old }
    {
        let grants = state_of(&seat.cpus, cpu).grants;
        let second = self
            .words
            .claim::<Brand>(&mut seat.place, grants, cpu, page, found);
        step(&mut seat.cpus, cpu);
        second
    }

    // The answer is the page's word as it was.
    fn put_back(&self, seat: &mut CpuSeat, cpu: u32, page: u32, found: u64) -> u64
        requires seat { IsAt self.now seat.old }
        requires may { Holds seat.old.cpus cpu (CanGiveBack (setting self.now.layout) page found) }
        ensures { Makes (setting self.now.layout) (back cpu page) result seat.old seat.new }
    {
        let grants = state_of(&seat.cpus, cpu).grants;
        let second = self
            .words
            .back::<Brand>(&mut seat.place, grants, cpu, page, found);
        if second != found {
            step(&mut seat.cpus, cpu);
            return second;
        }
        if is_dirty_at(second, page) {
            let context = home_of(self.words.layout.inodes.as_slice(), page);
            self.owe(&mut seat.cpus, cpu, context, -1);
            return second;
        }
        step_page(&mut seat.cpus, cpu);
        second
    }

    // A CPU has made one page step more, and owes an event to each counter of a context.
    #[inline(always)]
    fn owe(&self, cpus: &mut Vec<Option<CpuState>>, cpu: u32, context: u32, event: i64)
        requires there { context < length self.now.layout.contexts }
        requires known { (s : _) × Knows cpus.old.items cpu s × (s.page_steps < 2 ^ 63) }
        ensures { (s : _) → Knows cpus.old.items cpu s → cpus.new.items ≡ put_state cpu (owing_event (setting self.now.layout) context event (page_stepped s)) cpus.old.items }
    {
        let group = self.words.layout.contexts.as_slice()[context as usize];
        step_owing(cpus, cpu, context, group, event);
    }
}

// The context of a page. The inodes lie one after the other.
fn home_of(inodes: &[Place], page: u32) -> u32
    requires page { page < pages_in inodes.now }
    requires in_order { AreInOrder 0 inodes.now }
    requires few { pages_in inodes.now ≤ MOST_PAGES }
    ensures { result ≡ (get_or inodes.now (inode_at page inodes.now) no_place).context }
{
    let mut low = 0;
    let mut high = inodes.len() - 1;
    for _i in 0..inodes.len() {
        if low >= high {
            return inodes[low].context;
        }
        let middle = low + (high - low) / 2;
        if page < inodes[middle].first + inodes[middle].pages {
            high = middle;
        } else {
            low = middle + 1;
        }
    }
    unreachable!()
}
