//! How a throttle begins, and how seats are split and joined.

ghost use Rattle.std.specs.Prelude.{◌≡◌, ◌++◌, ◌*◌, ◌/◌, ◌%◌, ◌<◌, ◌≤◌, Some, None, IfOk, IfErr, [], All, map, get_or, min, replicate, length};
ghost use Rattle.wbt_num.specs.Limits.{IsLawful};
ghost use Rattle.wbt_num.specs.declared.most.TheConstants.{MOST_PAGES};
ghost use Rattle.wbt_limits.specs.Words.{thresh_word_of};
ghost use Rattle.wbt_table.specs.Held.{first_triple, no_triple};
ghost use Rattle.wbt_table.specs.Layout as spec;
ghost use Rattle.wbt_table.specs.Layout.{IsLayout, setting};
ghost use Rattle.wbt_table.specs.Rule.{Has, merged, without, alone};
ghost use Rattle.wbt_table.specs.Seat.{IsAt, IsHeld};
ghost use Rattle.wbt_table.specs.Calls.{IsFirst, no_state, left_seat, right_seat, joined_seat};

use crate::answer::Triple;
use crate::held::{HeldLimits, first_triples};
use crate::layout::{Layout, Place as InodePlace};
use crate::rule::{Moved, Parts, TimerParts, Together};
use crate::seat::{CpuSeat, Throttle};
use crate::state::CpuState;
use crate::words::{Batches, Offsets, Place, SPARE_WORDS, WORDS_PER_LINE, Words};
use atomic_table::Table;
use std::alloc::{AllocError, Global};
use std::marker::Brand;
use wbt_book::words_for;
use wbt_counter::{context_batch, domain_batch, own_word, pack};
use wbt_limits::{pack_hard, pack_thresh};
use wbt_num::{Limits, NoMemory};

impl Throttle {
    /// A throttle, and a seat that holds all CPUs and the timer. The first limits of each domain stand published. Each writer has 32 pages
    /// left, or `cap` where that is less.
    ///
    /// Requires: a layout of 1 to 64 CPUs, a cap of 1 to 1024 pages, at least one page step and one domain, and lawful first limits; numbers
    /// of page steps, domains, contexts, inodes, pages and writers up to the limits of the product (`wbt_num`). Contexts, inodes and writers
    /// name only domains, contexts and CPUs that exist, and each inode begins where the one before it ends.
    pub fn make(alloc: Global, layout: Layout) -> Result<(Throttle, CpuSeat), NoMemory>
        requires layout { IsLayout layout }
        ensures layout { IfOk result (λ t. t.0.layout ≡ layout) }
        ensures seat { IfOk result (λ t. IsAt t.0 t.1 × IsFirst t.1) }
    {
        let offsets = offsets_of(&layout);
        let batches = Batches {
            domain: domain_batch(layout.cpus),
            context: context_batch(layout.cpus),
        };
        let words = first_words(alloc, &layout, offsets)?;
        let kept = first_kept(alloc, &layout)?;
        let (table, place) = Table::of_words(alloc, words.as_slice(), &layout)?;
        Ok((
            Throttle {
                words: Words {
                    table,
                    layout,
                    offsets,
                    batches,
                },
            },
            CpuSeat {
                place,
                cpus: kept.cpus,
                lefts: kept.lefts,
                held: kept.held,
                timer: Some(0),
            },
        ))
    }

    /// Moves a CPU, or the timer, into a seat of its own. Where memory is refused the seat is as it was.
    ///
    /// Requires: a seat of this throttle that holds the CPU, or the timer.
    pub fn split(&self, alloc: Global, seat: &mut CpuSeat, cpu: u32) -> Result<CpuSeat, NoMemory>
        requires seat { IsAt self.now seat.old }
        requires held { IsHeld seat.old cpu }
        ensures ok { IfOk result (λ s. (seat.new ≡ left_seat cpu seat.old) × (s ≡ right_seat cpu seat.old)) }
        ensures err { IfErr result (λ _. seat.new ≡ seat.old) }
    {
        let mut cpus = filled(alloc, None, seat.cpus.len())?;
        let lefts = copied(alloc, &seat.lefts)?;
        let held = copied_held(alloc, &seat.held)?;
        if cpu as usize == seat.cpus.len() {
            let place = self
                .words
                .table
                .shared
                .split_seat::<TimerParts>(&mut seat.place);
            let timer = seat.timer;
            seat.timer = None;
            return Ok(CpuSeat {
                place,
                cpus,
                lefts,
                held,
                timer,
            });
        }
        cpus[cpu as usize] = seat.cpus[cpu as usize];
        seat.cpus[cpu as usize] = None;
        let place = self.split_place::<Brand>(&mut seat.place, cpu);
        Ok(CpuSeat {
            place,
            cpus,
            lefts,
            held,
            timer: None,
        })
    }

    /// Brings the CPUs of two seats together, with all that they owe and hold.
    ///
    /// Requires: two seats of this throttle.
    pub fn join(&self, into: &mut CpuSeat, from: CpuSeat)
        requires seats { IsAt self.now into.old × IsAt self.now from }
        ensures { into.new ≡ joined_seat into.old from }
    {
        let CpuSeat {
            place,
            cpus,
            lefts,
            held,
            timer,
        } = from;
        self.take_lefts(&mut into.lefts, &cpus, &lefts);
        self.take_triples(&mut into.held.triples, &cpus, &held.triples);
        take_over(&mut into.cpus, &cpus);
        if let Some(steps) = timer {
            take_numbers(&mut into.held.sequences, &held.sequences);
            into.timer = Some(steps);
        }
        self.words
            .table
            .shared
            .join_seat::<Together>(&mut into.place, place);
    }
}

impl Throttle {
    fn split_place<C: Moved>(&self, place: &mut Place, cpu: u32) -> Place
        requires seat { place.old.table_id ≡ self.now.table }
        requires named { C.cpu ≡ cpu }
        requires held { (r : _) × Has place.old.me.0.cpus cpu r }
        ensures seats { (place.new.table_id ≡ place.old.table_id) × (place.new.id ≡ place.old.id) × (result.table_id ≡ place.old.table_id) }
        ensures left { place.new.me ≡ (without cpu place.old.me.0, place.old.me.1) }
        ensures right { result.me ≡ (alone cpu place.old.me.0, []) }
    {
        self.words.table.shared.split_seat::<Parts<C>>(place)
    }

    // Each writer of the CPUs in `cpus` has left what `from` says, and each other one what it had.
    fn take_lefts(&self, into: &mut Vec<u64>, cpus: &[Option<CpuState>], from: &[u64])
        requires long { (length into.old.items ≡ length self.now.layout.writers) × (length from.now ≡ length self.now.layout.writers) }
        requires cpus { length cpus.now ≡ self.now.layout.cpus }
        ensures long { length into.new.items ≡ length into.old.items }
        ensures taken { (w : _) → w < length self.now.layout.writers → (s : _) → get_or cpus.now ((setting self.now.layout).seat w) None ≡ Some s → get_or into.new.items w 0 ≡ get_or from.now w 0 }
        ensures others { (w : _) → w < length self.now.layout.writers → get_or cpus.now ((setting self.now.layout).seat w) None ≡ None → get_or into.new.items w 0 ≡ get_or into.old.items w 0 }
    {
        let writers = self.words.layout.writers.as_slice();
        for w in 0..writers.len() {
            if cpus[writers[w].cpu as usize].is_some() {
                into[w] = from[w];
            }
        }
    }

    // Each CPU in `cpus` holds the limits that `from` says, and each other one what it held.
    fn take_triples(&self, into: &mut Vec<Triple>, cpus: &[Option<CpuState>], from: &[Triple])
        requires long { (length into.old.items ≡ self.now.layout.cpus * length self.now.layout.firsts) × (length from.now ≡ self.now.layout.cpus * length self.now.layout.firsts) }
        requires cpus { length cpus.now ≡ self.now.layout.cpus }
        ensures long { length into.new.items ≡ length into.old.items }
        ensures taken { (k : _) → k < length into.old.items → (s : _) → get_or cpus.now (k / length self.now.layout.firsts) None ≡ Some s → get_or into.new.items k no_triple ≡ get_or from.now k no_triple }
        ensures others { (k : _) → k < length into.old.items → get_or cpus.now (k / length self.now.layout.firsts) None ≡ None → get_or into.new.items k no_triple ≡ get_or into.old.items k no_triple }
    {
        let domains = self.words.layout.firsts.as_slice().len();
        for k in 0..from.len() {
            if cpus[k / domains].is_some() {
                into[k] = from[k];
            }
        }
    }
}

// Each number is that of `from`.
fn take_numbers(into: &mut Vec<u64>, from: &[u64])
    requires { length into.old.items ≡ length from.now }
    ensures { into.new.items ≡ from.now }
{
    into.as_mut_slice().copy_from_slice(from);
}

// Each place that is taken in `from` is taken over.
fn take_over(into: &mut Vec<Option<CpuState>>, from: &[Option<CpuState>])
    requires { length into.old.items ≡ length from.now }
    ensures { into.new.items ≡ merged into.old.items from.now }
{
    for i in 0..from.len() {
        if let Some(state) = from[i] {
            into[i] = Some(state);
        }
    }
}

// What the first seat of a throttle keeps beside its place.
#[derive(Drop)]
struct FirstKept {
    // By CPU.
    cpus: Vec<Option<CpuState>>,
    // By writer.
    lefts: Vec<u64>,
    held: HeldLimits,
}

// Each CPU has done nothing and holds the first limits of each domain, each writer has its first pages left, and no sequence has begun.
fn first_kept(alloc: Global, layout: &Layout) -> Result<FirstKept, AllocError>
    requires layout { IsLayout layout.now }
    ensures cpus { IfOk result (λ kept. kept.cpus.items ≡ replicate layout.now.cpus (Some no_state)) }
    ensures lefts { IfOk result (λ kept. kept.lefts.items ≡ replicate (length layout.now.writers) (min 32 layout.now.cap)) }
    ensures long { IfOk result (λ kept. length kept.held.triples.items ≡ layout.now.cpus * spec.domains layout.now) }
    ensures first { IfOk result (λ kept. (k : _) → k < layout.now.cpus * spec.domains layout.now → get_or kept.held.triples.items k no_triple ≡ first_triple (get_or layout.now.firsts (k % spec.domains layout.now) spec.no_limits)) }
    ensures sequences { IfOk result (λ kept. kept.held.sequences.items ≡ replicate (spec.domains layout.now) 0) }
{
    let cpus = filled(alloc, Some(first_state()), layout.cpus as usize)?;
    let left = 32u32.min(layout.cap);
    let lefts = same_numbers(alloc, left as u64, layout.writers.as_slice().len())?;
    let firsts = layout.firsts.as_slice();
    let triples = first_triples(alloc, firsts, layout.cpus as usize * firsts.len())?;
    let sequences = same_numbers(alloc, 0, firsts.len())?;
    Ok(FirstKept {
        cpus,
        lefts,
        held: HeldLimits { triples, sequences },
    })
}

// A CPU that has done nothing.
fn first_state() -> CpuState
    ensures { result ≡ no_state }
{
    CpuState {
        steps: 0,
        page_steps: 0,
        context: 0,
        group: 0,
        first: None,
        second: None,
        third: None,
        grants: None,
    }
}

fn filled(
    alloc: Global,
    state: Option<CpuState>,
    count: usize,
) -> Result<Vec<Option<CpuState>>, AllocError>
    ensures { IfOk result (λ v. v.items ≡ replicate count state) }
{
    let mut cpus = Vec::new(alloc);
    for _i in 0..count {
        cpus.push(state)?;
    }
    Ok(cpus)
}

fn same_numbers(alloc: Global, number: u64, count: usize) -> Result<Vec<u64>, AllocError>
    ensures { IfOk result (λ v. v.items ≡ replicate count number) }
{
    let mut numbers = Vec::new(alloc);
    push_numbers(&mut numbers, number, count)?;
    Ok(numbers)
}

fn copied(alloc: Global, numbers: &[u64]) -> Result<Vec<u64>, AllocError>
    ensures { IfOk result (λ v. v.items ≡ numbers.now) }
{
    numbers.to_vec(alloc)
}

fn copied_held(alloc: Global, held: &HeldLimits) -> Result<HeldLimits, AllocError>
    ensures { IfOk result (λ h. (h.triples.items ≡ held.now.triples.items) × (h.sequences.items ≡ held.now.sequences.items)) }
{
    Ok(HeldLimits {
        triples: held.triples.as_slice().to_vec(alloc)?,
        sequences: copied(alloc, &held.sequences)?,
    })
}

fn push_numbers(words: &mut Vec<u64>, number: u64, count: usize) -> Result<(), AllocError>
    ensures { IfOk result (λ _. words.new.items ≡ words.old.items ++ replicate count number) }
{
    for _i in 0..count {
        words.push(number)?;
    }
    Ok(())
}

// Where each part of the words begins.
fn offsets_of(layout: &Layout) -> Offsets
    requires { IsLayout layout.now }
    ensures { result ≡ spec.offsets layout.now }
{
    let domains = layout.firsts.as_slice().len();
    let counters = domains + layout.contexts.as_slice().len();
    let stride = counters + SPARE_WORDS;
    let inodes = 1 + words_for(pages_of(layout.inodes.as_slice())) as usize + SPARE_WORDS;
    let shared = inodes + layout.inodes.as_slice().len() * WORDS_PER_LINE;
    let own = shared + stride;
    let limits = own + layout.cpus as usize * stride;
    Offsets {
        inodes,
        shared,
        own,
        limits,
        peaks: limits + domains + domains,
        stride,
        domains,
    }
}

// How many pages the inodes have, which lie one after the other.
fn pages_of(inodes: &[InodePlace]) -> u32
    requires few { spec.pages_in inodes.now ≤ MOST_PAGES }
    requires in_order { spec.AreInOrder 0 inodes.now }
    ensures { result ≡ spec.pages_in inodes.now }
{
    if inodes.is_empty() {
        return 0;
    }
    let last = inodes[inodes.len() - 1];
    last.first + last.pages
}

// No page is dirty, nothing is marked or counted, and the first limits stand published.
fn first_words(alloc: Global, layout: &Layout, offsets: Offsets) -> Result<Vec<u64>, AllocError>
    requires layout { IsLayout layout.now }
    requires offsets { offsets ≡ spec.offsets layout.now }
    ensures { IfOk result (λ v. v.items ≡ spec.opening_words layout.now) }
{
    let mut words = Vec::new(alloc);
    push_numbers(&mut words, 0, offsets.shared)?;
    push_numbers(&mut words, pack(0, 0), offsets.own - offsets.shared)?;
    push_numbers(&mut words, own_word(0), offsets.limits - offsets.own)?;
    push_firsts(&mut words, layout.firsts.as_slice())?;
    push_numbers(&mut words, 0, SPARE_WORDS)?;
    Ok(words)
}

// The first limits stand published, and are the first peaks.
fn push_firsts(words: &mut Vec<u64>, firsts: &[Limits]) -> Result<(), AllocError>
    requires { All IsLawful firsts.now }
    ensures { IfOk result (λ _. words.new.items ≡ words.old.items ++ map spec.first_sequence_word firsts.now ++ map thresh_word_of firsts.now ++ map (λ l. l.hard) firsts.now) }
{
    push_sequences(words, firsts)?;
    push_threshes(words, firsts)?;
    push_peaks(words, firsts)?;
    Ok(())
}

fn push_sequences(words: &mut Vec<u64>, firsts: &[Limits]) -> Result<(), AllocError>
    requires { All IsLawful firsts.now }
    ensures { IfOk result (λ _. words.new.items ≡ words.old.items ++ map spec.first_sequence_word firsts.now) }
{
    for first in firsts {
        words.push(first_sequence_word(first))?;
    }
    Ok(())
}

fn first_sequence_word(limits: &Limits) -> u64
    requires { IsLawful limits.now }
    ensures { result ≡ spec.first_sequence_word limits.now }
{
    pack_hard(0, limits.hard)
}

fn push_threshes(words: &mut Vec<u64>, firsts: &[Limits]) -> Result<(), AllocError>
    requires { All IsLawful firsts.now }
    ensures { IfOk result (λ _. words.new.items ≡ words.old.items ++ map thresh_word_of firsts.now) }
{
    for first in firsts {
        words.push(pack_thresh(first))?;
    }
    Ok(())
}

fn push_peaks(words: &mut Vec<u64>, firsts: &[Limits]) -> Result<(), AllocError>
    ensures { IfOk result (λ _. words.new.items ≡ words.old.items ++ map (λ l. l.hard) firsts.now) }
{
    for first in firsts {
        words.push(first.hard)?;
    }
    Ok(())
}
