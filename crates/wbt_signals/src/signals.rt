//! Signals and their voices: how they begin, are split and joined, and the calls.

ghost use Rattle.std.specs.Prelude.{◌≡◌, ◌+◌, ◌-◌, ◌^◌, ◌≤◌, true, IfOk};
ghost use Rattle.wbt_signals.specs.History.{IsHistory, IsNoted};
ghost use Rattle.wbt_signals.specs.Signals.{both_voices, first_voice, left_voice, new_voice};
ghost use Rattle.wbt_signals.specs.declared.rule.Act.TheVariants.{Ring, Listen, Stop, Count, Leave, Look};

use crate::rule::{Parts, Together};
use crate::words::{Place, Words};
use atomic_table::Table;
use std::alloc::{AllocError, Global};
use std::marker::Model;

/// The words. Threads share them by reference.
#[derive(Drop)]
pub struct Signals {
    words: Words,
}

impl Model for Signals {
    ghost use Rattle.atomic_table.specs.Seated.{TableId};

    ghost Value = { TableId };

    ghost view = { λ s. s.words.table.shared.table_id };
}

/// What one thread knows of the signals: how often it rang the bell, and whether that was rung when it looked last; of how many workers it may
/// still say that they write no more, or that they leave, and whether nobody wrote any more, or all had left, when it looked last. And each
/// operation that it made, with its answer and its place among those of all voices.
#[derive(Drop)]
pub struct Voice {
    place: Place,
}

impl Model for Voice {
    ghost use Rattle.std.specs.Prelude.{◌≡◌, ◌≤◌, []};
    ghost use Rattle.wbt_signals.specs.Signals.{Known, known_by};

    ghost Value = { Known };

    ghost view = { λ v. known_by v.place.table_id v.place.me.0 };

    ghost invariant = { λ v. (v.place.me.1 ≡ []) × (1 ≤ v.place.me.0.stakes) };
}

impl Signals {
    /// Of so many workers, which all write. Nobody has rung the bell. The first voice has all 2^32 stakes, and may say of each worker once that
    /// it writes no more, and once that it leaves.
    pub fn make(alloc: Global, writers: u64) -> Result<(Signals, Voice), AllocError>
        ensures { IfOk result (λ made. made.1 ≡ first_voice made.0 writers) }
    {
        let (table, place) = Table::of_words(alloc, &[0, writers, writers], &writers)?;
        Ok((
            Signals {
                words: Words { table },
            },
            Voice { place },
        ))
    }

    /// Moves one stake to a new voice, which speaks for one worker. It has done nothing yet.
    pub fn split(&self, voice: &mut Voice) -> Voice
        requires voice { voice.old.signals ≡ self.now }
        requires stakes { 2 ≤ voice.old.stakes }
        requires writes { 1 ≤ voice.old.writes }
        requires there { 1 ≤ voice.old.there }
        ensures old { voice.new ≡ left_voice voice.old }
        ensures new { result ≡ new_voice self.now voice.old.workers }
    {
        Voice {
            place: self
                .words
                .table
                .shared
                .split_seat::<Parts>(&mut voice.place),
        }
    }

    /// Brings two voices together. What both did stands in one order.
    pub fn join(&self, into: &mut Voice, from: Voice)
        requires voices { (into.old.signals ≡ self.now) × (from.signals ≡ self.now) }
        ensures { into.new ≡ both_voices into.old from }
    {
        let Voice { place } = from;
        self.words
            .table
            .shared
            .join_seat::<Together>(&mut into.place, place);
    }

    /// Rings the bell.
    pub fn ring(&self, voice: &mut Voice)
        requires voice { voice.old.signals ≡ self.now }
        ensures rang { voice.new ≡ record voice.old { rings = voice.old.rings + 1; notes = voice.new.notes } }
        ensures noted { IsNoted voice.old.workers Ring voice.old.notes voice.new.notes }
    {
        self.words.ring(&mut voice.place)
    }

    /// Whether the bell was rung: exactly where that was done at an earlier place than this call's. Who rang it hears it, and who heard it once
    /// hears it from then on.
    pub fn is_rung(&self, voice: &mut Voice) -> bool
        requires voice { voice.old.signals ≡ self.now }
        ensures heard { voice.new ≡ record voice.old { heard = result; notes = voice.new.notes } }
        ensures noted { IsNoted voice.old.workers (Listen result) voice.old.notes voice.new.notes }
        ensures still { voice.old.heard ≡ true → result ≡ true }
        ensures rang { 1 ≤ voice.old.rings → result ≡ true }
        ensures cause { result ≡ true → voice.old.stakes ≡ 2 ^ 32 → 1 ≤ voice.old.rings }
    {
        self.words.listen(&mut voice.place)
    }

    /// A worker writes no more. It may be said as often as the voice has leave to.
    pub fn has_written(&self, voice: &mut Voice)
        requires voice { voice.old.signals ≡ self.now }
        requires writes { 1 ≤ voice.old.writes }
        ensures stopped { voice.new ≡ record voice.old { writes = voice.old.writes - 1; notes = voice.new.notes } }
        ensures noted { IsNoted voice.old.workers Stop voice.old.notes voice.new.notes }
    {
        self.words.stop(&mut voice.place)
    }

    /// Whether nobody writes any more: exactly where that was said of each worker at an earlier place than this call's. Once that is so it stays
    /// so.
    pub fn is_quiet(&self, voice: &mut Voice) -> bool
        requires voice { voice.old.signals ≡ self.now }
        ensures quiet { voice.new ≡ record voice.old { quiet = result; notes = voice.new.notes } }
        ensures noted { IsNoted voice.old.workers (Count result) voice.old.notes voice.new.notes }
        ensures still { voice.old.quiet ≡ true → result ≡ true }
        ensures none { result ≡ true → voice.old.writes ≡ 0 }
        ensures all { voice.old.stakes ≡ 2 ^ 32 → voice.old.writes ≡ 0 → result ≡ true }
    {
        self.words.count(&mut voice.place)
    }

    /// A worker leaves. It may be said as often as the voice has leave to.
    pub fn leave(&self, voice: &mut Voice)
        requires voice { voice.old.signals ≡ self.now }
        requires there { 1 ≤ voice.old.there }
        ensures left { voice.new ≡ record voice.old { there = voice.old.there - 1; notes = voice.new.notes } }
        ensures noted { IsNoted voice.old.workers Leave voice.old.notes voice.new.notes }
    {
        self.words.leave(&mut voice.place)
    }

    /// Whether all workers have left: exactly where that was said of each at an earlier place than this call's. Once that is so it stays so.
    pub fn all_have_left(&self, voice: &mut Voice) -> bool
        requires voice { voice.old.signals ≡ self.now }
        ensures gone { voice.new ≡ record voice.old { gone = result; notes = voice.new.notes } }
        ensures noted { IsNoted voice.old.workers (Look result) voice.old.notes voice.new.notes }
        ensures still { voice.old.gone ≡ true → result ≡ true }
        ensures none { result ≡ true → voice.old.there ≡ 0 }
        ensures all { voice.old.stakes ≡ 2 ^ 32 → voice.old.there ≡ 0 → result ≡ true }
    {
        self.words.look(&mut voice.place)
    }

    /// The voice into which all others were joined has noted all that was done, in one history: each answer in it is what stood then. It rang
    /// where it heard; where it found that nobody writes, it was said of all; and where it found that all have left, each did.
    pub fn learn(&self, voice: &mut Voice)
        requires voice { voice.old.signals ≡ self.now }
        ensures same { voice.new ≡ voice.old }
        ensures history { voice.old.stakes ≡ 2 ^ 32 → IsHistory voice.old.workers voice.old.notes }
        ensures cause { voice.old.heard ≡ true → voice.old.stakes ≡ 2 ^ 32 → 1 ≤ voice.old.rings }
        ensures none { voice.old.quiet ≡ true → voice.old.writes ≡ 0 }
        ensures left { voice.old.gone ≡ true → voice.old.there ≡ 0 }
    {
        self.words.learn(&mut voice.place)
    }
}
