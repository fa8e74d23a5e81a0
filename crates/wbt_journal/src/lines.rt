//! The lines of what the timer and the CPUs did, of what is left, and of the end.

ghost use Rattle.std.specs.Prelude.{◌≡◌, [], ◌∷◌, ◌++◌, pos, option_copied, flat_map};
ghost use Rattle.wbt_journal.specs.Line.{line, line_text, lines_text, num};
ghost use Rattle.wbt_journal.specs.Lines as spec;
ghost use Rattle.wbt_journal.specs.Told.{IsWriteback, IsWaiting, told_entry, one_checked, one_estimated};
ghost use Rattle.wbt_journal.specs.Way.{Puts, way};

use crate::entry::{CheckEntry, DomainLine, Entry, EstEntry};
use crate::field::{Field, int, signed, small};
use crate::journal::{Ending, Left, StrictLine};
use crate::out::Out;
use crate::timer::TimerEntry;
use crate::word::Word;
use wbt_counter::Counter;
use wbt_io::Sink;
use wbt_pause::Kind;

fn counter_field(counter: Counter) -> Field
    ensures { result ≡ spec.counter_field counter }
{
    match counter {
        Counter::Domain(domain) => Field::Domain(domain),
        Counter::Context(context) => Field::Context(context),
    }
}

fn fresh_field(fresh: bool) -> Field
    ensures { result ≡ spec.fresh_field fresh }
{
    if fresh {
        Field::Name(Word::Fresh)
    } else {
        Field::Name(Word::Already)
    }
}

fn kind_field(kind: Kind) -> Field
    ensures { result ≡ spec.kind_field kind }
{
    match kind {
        Kind::Free => Field::Name(Word::Free),
        Kind::Go => Field::Name(Word::Go),
        Kind::Exempt => Field::Name(Word::Exempt),
        Kind::Wait => Field::Name(Word::Wait),
    }
}

// How a page was given back.
fn back_field(absorbed: bool) -> Field
    ensures { result ≡ spec.back_field absorbed }
{
    if absorbed {
        Field::Name(Word::Absorbed)
    } else {
        Field::Name(Word::Dirty)
    }
}

fn bits_field(bits: u64) -> Field
    ensures { result ≡ spec.bits_field bits }
{
    match bits {
        1 => Field::Name(Word::Dirty),
        2 => Field::Name(Word::Writeback),
        _ => Field::Name(Word::Both),
    }
}

fn ending_field(ending: Ending) -> Field
    ensures { result ≡ spec.ending_field ending }
{
    match ending {
        Ending::Done => Field::Name(Word::Done),
        Ending::Halted => Field::Name(Word::Halted),
        Ending::Spent => Field::Name(Word::Spent),
        Ending::Faulted => Field::Name(Word::Faulted),
    }
}

impl Out {
    /// Puts the line of a timer's entry.
    pub fn timer_entry<K: Sink>(&mut self, sink: &mut K, entry: &TimerEntry)
        ensures { Puts (line_text (spec.timer_line entry.now)) (way (K.held sink.old) (K.faults sink.old) self.old) (way (K.held sink.new) (K.faults sink.new) self.new) }
    {
        match entry {
            TimerEntry::Limits {
                domain,
                now,
                limits,
            } => self.line(
                sink,
                Word::Limits,
                &[
                    small(*domain),
                    int(*now),
                    int(limits.thresh),
                    int(limits.bg),
                    int(limits.hard),
                ],
            ),
            TimerEntry::Period { domain, k } => {
                self.line(sink, Word::Period, &[small(*domain), int(*k)])
            }
        }
    }

    /// Puts the line of a page that is left.
    pub fn left_page<K: Sink>(&mut self, sink: &mut K, left: &Left)
        ensures { Puts (line_text (spec.left_line left.now)) (way (K.held sink.old) (K.faults sink.old) self.old) (way (K.held sink.new) (K.faults sink.new) self.new) }
    {
        self.line(sink, Word::Left, &[small(left.page), bits_field(left.word)]);
    }

    /// Puts the line of a context of a strict device.
    pub fn strict_line<K: Sink>(&mut self, sink: &mut K, strict: &StrictLine)
        ensures { Puts (line_text (spec.strict_line strict.now)) (way (K.held sink.old) (K.faults sink.old) self.old) (way (K.held sink.new) (K.faults sink.new) self.new) }
    {
        self.line(
            sink,
            Word::Strict,
            &[small(strict.context), int(strict.most), int(strict.bound)],
        );
    }

    /// Puts the last line.
    pub fn ending<K: Sink>(&mut self, sink: &mut K, ending: Ending)
        ensures { Puts (line_text (spec.ending_line ending)) (way (K.held sink.old) (K.faults sink.old) self.old) (way (K.held sink.new) (K.faults sink.new) self.new) }
    {
        self.line(sink, Word::End, &[ending_field(ending)]);
    }

    /// Puts the lines of a CPU's entry, which may name one of its checks or estimates.
    pub fn entry<K: Sink>(
        &mut self,
        sink: &mut K,
        checks: &[CheckEntry],
        estimates: &[EstEntry],
        entry: &Entry,
    )
        ensures { Puts (lines_text (flat_map spec.told_lines (told_entry checks.now estimates.now entry.entry.now))) (way (K.held sink.old) (K.faults sink.old) self.old) (way (K.held sink.new) (K.faults sink.new) self.new) }
    {
        match *entry {
            Entry::Write { task, page, fresh } => self.line(
                sink,
                Word::Write,
                &[small(task), small(page), fresh_field(fresh)],
            ),
            Entry::Folded(fold) => self.line(
                sink,
                Word::Fold,
                &[
                    counter_field(fold.counter),
                    int(fold.version),
                    signed(fold.delta),
                ],
            ),
            Entry::Check(place) => self.named_check(sink, checks.get(place as usize)),
            Entry::Share { domain, context, n } => self.line(
                sink,
                Word::Share,
                &[small(domain), small(context), int(n)],
            ),
            Entry::Est(place) => self.named_estimate(sink, estimates.get(place as usize)),
            Entry::Claimed { .. }
            | Entry::Batch { .. }
            | Entry::Done { .. }
            | Entry::Fault { .. }
            | Entry::Back { .. } => self.writeback(sink, entry),
            Entry::Noticed { .. } | Entry::Aged { .. } | Entry::Taken { .. } => {
                self.waiting(sink, entry)
            }
        }
    }

    // Puts the line of an entry of a flusher's writeback.
    fn writeback<K: Sink>(&mut self, sink: &mut K, entry: &Entry)
        requires writeback { IsWriteback entry.now }
        ensures { Puts (lines_text (flat_map spec.told_lines (told_entry [] [] entry.entry.now))) (way (K.held sink.old) (K.faults sink.old) self.old) (way (K.held sink.new) (K.faults sink.new) self.new) }
    {
        match *entry {
            Entry::Claimed { flusher, page } => {
                self.line(sink, Word::Claim, &[small(flusher), small(page)])
            }
            Entry::Batch {
                flusher,
                pages,
                now,
                until,
            } => self.line(
                sink,
                Word::Batch,
                &[small(flusher), small(pages), int(now), int(until)],
            ),
            Entry::Done { flusher, page } => {
                self.line(sink, Word::Done, &[small(flusher), small(page)])
            }
            Entry::Fault { flusher, pages } => {
                self.line(sink, Word::Fault, &[small(flusher), small(pages)])
            }
            Entry::Back {
                flusher,
                page,
                absorbed,
            } => self.line(
                sink,
                Word::Back,
                &[small(flusher), small(page), back_field(absorbed)],
            ),
            _ => unreachable!(),
        }
    }

    // Puts the line of an entry of a flusher's waiting list.
    fn waiting<K: Sink>(&mut self, sink: &mut K, entry: &Entry)
        requires waiting { IsWaiting entry.now }
        ensures { Puts (lines_text (flat_map spec.told_lines (told_entry [] [] entry.entry.now))) (way (K.held sink.old) (K.faults sink.old) self.old) (way (K.held sink.new) (K.faults sink.new) self.new) }
    {
        match *entry {
            Entry::Noticed {
                flusher,
                inode,
                since,
            } => self.line(
                sink,
                Word::Notice,
                &[small(flusher), small(inode), int(since)],
            ),
            Entry::Aged {
                flusher,
                inode,
                due,
                now,
            } => self.line(
                sink,
                Word::Age,
                &[small(flusher), small(inode), int(due), int(now)],
            ),
            Entry::Taken { flusher, inode } => {
                self.line(sink, Word::Take, &[small(flusher), small(inode)])
            }
            _ => unreachable!(),
        }
    }

    // Puts the lines of a check that there is.
    fn named_check<K: Sink>(&mut self, sink: &mut K, check: Option<&CheckEntry>)
        ensures { Puts (lines_text (flat_map spec.told_lines (one_checked (option_copied check.entry)))) (way (K.held sink.old) (K.faults sink.old) self.old) (way (K.held sink.new) (K.faults sink.new) self.new) }
    {
        if let Some(check) = check {
            self.check(sink, check);
        }
    }

    // Puts the line of an estimate that there is.
    fn named_estimate<K: Sink>(&mut self, sink: &mut K, estimate: Option<&EstEntry>)
        ensures { Puts (lines_text (flat_map spec.told_lines (one_estimated (option_copied estimate.entry)))) (way (K.held sink.old) (K.faults sink.old) self.old) (way (K.held sink.new) (K.faults sink.new) self.new) }
    {
        if let Some(estimate) = estimate {
            self.estimate(sink, estimate);
        }
    }

    // Puts the lines of a check: what it read, and what it decided.
    fn check<K: Sink>(&mut self, sink: &mut K, check: &CheckEntry)
        ensures { Puts (lines_text (spec.check_lines check.entry.now)) (way (K.held sink.old) (K.faults sink.old) self.old) (way (K.held sink.new) (K.faults sink.new) self.new) }
    {
        self.read(sink, &check.global);
        self.cgroup(sink, &check.cgroup);
        self.count(sink, check);
        self.decision(sink, check);
    }

    fn read<K: Sink>(&mut self, sink: &mut K, read: &DomainLine)
        ensures { Puts (line_text (spec.read_line read.now)) (way (K.held sink.old) (K.faults sink.old) self.old) (way (K.held sink.new) (K.faults sink.new) self.new) }
    {
        self.line(
            sink,
            Word::Read,
            &[
                small(read.domain),
                int(read.triple),
                int(read.limits.thresh),
                int(read.limits.bg),
                int(read.limits.hard),
                int(read.count.version),
                signed(read.count.value),
                int(read.share.period),
                int(read.share.num),
                int(read.share.den),
            ],
        );
    }

    fn cgroup<K: Sink>(&mut self, sink: &mut K, read: &Option<DomainLine>)
        ensures { Puts (lines_text (spec.cgroup_lines read.now)) (way (K.held sink.old) (K.faults sink.old) self.old) (way (K.held sink.new) (K.faults sink.new) self.new) }
    {
        if let Some(read) = read {
            self.read(sink, read);
        }
    }

    fn count<K: Sink>(&mut self, sink: &mut K, check: &CheckEntry)
        ensures { Puts (line_text (spec.count_line check.entry.now)) (way (K.held sink.old) (K.faults sink.old) self.old) (way (K.held sink.new) (K.faults sink.new) self.new) }
    {
        self.line(
            sink,
            Word::Count,
            &[
                small(check.context),
                int(check.count.version),
                signed(check.count.value),
            ],
        );
    }

    fn decision<K: Sink>(&mut self, sink: &mut K, check: &CheckEntry)
        ensures { Puts (line_text (spec.decision_line check.entry.now)) (way (K.held sink.old) (K.faults sink.old) self.old) (way (K.held sink.new) (K.faults sink.new) self.new) }
    {
        let decision = &check.decision;
        self.line(
            sink,
            Word::Check,
            &[
                small(check.task),
                small(check.context),
                int(check.now),
                int(check.estimate),
                kind_field(decision.kind),
                int(decision.pause),
                int(decision.left),
                int(decision.task.nr_dirtied),
                int(decision.task.nr_dirtied_pause),
                int(decision.task.paused_when),
            ],
        );
    }

    fn estimate<K: Sink>(&mut self, sink: &mut K, entry: &EstEntry)
        ensures { Puts (line_text (spec.est_line entry.now)) (way (K.held sink.old) (K.faults sink.old) self.old) (way (K.held sink.new) (K.faults sink.new) self.new) }
    {
        let estimate = &entry.estimate;
        self.line(
            sink,
            Word::Est,
            &[
                small(entry.context),
                int(estimate.version),
                int(estimate.bw),
                int(estimate.avg),
                int(estimate.ratelimit),
                int(estimate.balanced),
                int(estimate.written_stamp),
                int(estimate.dirtied_stamp),
                int(estimate.at),
            ],
        );
    }
}
