//! A turn of a flusher that scans: it looks at a page, claims it where it can be claimed, and closes the scan where it is over.

ghost use Rattle.std.specs.Prelude.{◌≡◌, ◌+◌, ◌<◌, ◌≤◌, ◌^◌, length, OnOk};
ghost use Rattle.wbt_replay_moves.specs.Definition.Scan as spec;
ghost use Rattle.wbt_replay_moves.specs.Definition.State.{cpu_of, flusher_of};
ghost use Rattle.wbt_replay_moves.specs.Definition.Cpu.{then_do as then_do_value};
ghost use Rattle.wbt_replay_moves.specs.Kept.Fit.{ComesTo, LookFits, OfFlusher, ScanFits, ScanningFits};
ghost use Rattle.wbt_replay_moves.specs.Seen.{seen};
ghost use Rattle.wbt_rules.specs.Places.{page_of};

use crate::machine::Machine;
use crate::state::{ReplayPhase, Whose};
use crate::todo::{Silent, Step, Todo};
use std::alloc::AllocError;
use wbt_book::is_claimable_at;
use wbt_grant::StepKind;
use wbt_io::done_at;
use wbt_journal::Entry;
use wbt_rules::{FLUSHER_REST, Scan, device_at, flusher_device, rate_of};
use wbt_trace::Trace;

impl Machine {
    /// The step `look`: loads the word of the scan's next page. A page that can be claimed is claimed next, any other is passed.
    pub fn look(&mut self, cpu: u32) -> Result<(), AllocError>
        requires cpu { cpu < length (seen self.old).cpus }
        requires fits { OfFlusher (λ flusher phase. LookFits (seen self.old) phase) (seen self.old) (cpu_of cpu (seen self.old)).turn.whose }
        ensures { OnOk result (seen self.new ≡ spec.look cpu (seen self.old)) }
    {
        match self.whose(cpu) {
            Whose::Task { .. } => Ok(()),
            Whose::Flusher { flusher } => self.look_in(cpu, flusher),
        }
    }

    fn look_in(&mut self, cpu: u32, flusher: u32) -> Result<(), AllocError>
        requires cpu { cpu < length (seen self.old).cpus }
        requires flusher { flusher < length (seen self.old).flushers }
        requires fits { LookFits (seen self.old) (flusher_of flusher (seen self.old)).phase }
        ensures { OnOk result (seen self.new ≡ spec.look_in cpu flusher (flusher_of flusher (seen self.old)).phase (seen self.old)) }
    {
        match self.phase(flusher) {
            ReplayPhase::Scanning { scan } => {
                self.look_at(cpu, flusher, scan)?;
                self.plain_step(cpu, StepKind::Look)
            }
            ReplayPhase::Idle { .. }
            | ReplayPhase::Taken { .. }
            | ReplayPhase::Flying { .. }
            | ReplayPhase::Finished => { Ok(()) }
        }
    }

    fn look_at(&mut self, cpu: u32, flusher: u32, scan: Scan) -> Result<(), AllocError>
        requires cpu { cpu < length (seen self.old).cpus }
        requires flusher { flusher < length (seen self.old).flushers }
        requires page { ComesTo scan (seen self.old).pages }
        ensures { OnOk result (seen self.new ≡ spec.looked_at cpu flusher scan ((seen self.old).book (page_of scan)) (seen self.old)) }
    {
        let page = scan.page();
        let word = self.pages.word(page);
        if is_claimable_at(word, page) {
            return self.then_do(cpu, &[Todo::Step(Step::Claim { word })]);
        }
        let both = self.pages.is_dirty(page) && self.pages.is_writeback(page);
        self.set_phase(
            flusher,
            ReplayPhase::Scanning {
                scan: Scan {
                    passed: scan.passed + 1,
                    noted: scan.noted || both,
                    ..scan
                },
            },
        );
        self.then_do(cpu, &[Todo::Silent(Silent::Close)])
    }

    /// The step `claim`: where the page's word is still this one, the page goes to writeback and into the batch.
    pub fn claim(&mut self, cpu: u32, word: u64) -> Result<(), AllocError>
        requires cpu { cpu < length (seen self.old).cpus }
        requires fits { OfFlusher (λ flusher phase. LookFits (seen self.old) phase) (seen self.old) (cpu_of cpu (seen self.old)).turn.whose }
        ensures { OnOk result (seen self.new ≡ spec.claim cpu word (seen self.old)) }
    {
        match self.whose(cpu) {
            Whose::Task { .. } => Ok(()),
            Whose::Flusher { flusher } => self.claim_in(cpu, flusher, word),
        }
    }

    fn claim_in(&mut self, cpu: u32, flusher: u32, word: u64) -> Result<(), AllocError>
        requires cpu { cpu < length (seen self.old).cpus }
        requires flusher { flusher < length (seen self.old).flushers }
        requires fits { LookFits (seen self.old) (flusher_of flusher (seen self.old)).phase }
        ensures { OnOk result (seen self.new ≡ spec.claim_in cpu flusher word (flusher_of flusher (seen self.old)).phase (seen self.old)) }
    {
        match self.phase(flusher) {
            ReplayPhase::Scanning { scan } => {
                if self.pages.word(scan.page()) == word {
                    self.claim_now(cpu, flusher, scan)?;
                }
                self.plain_step(cpu, StepKind::Claim)
            }
            ReplayPhase::Idle { .. }
            | ReplayPhase::Taken { .. }
            | ReplayPhase::Flying { .. }
            | ReplayPhase::Finished => { Ok(()) }
        }
    }

    fn claim_now(&mut self, cpu: u32, flusher: u32, scan: Scan) -> Result<(), AllocError>
        requires cpu { cpu < length (seen self.old).cpus }
        requires flusher { flusher < length (seen self.old).flushers }
        requires page { ComesTo scan (seen self.old).pages }
        ensures { OnOk result (seen self.new ≡ spec.claim_now cpu flusher scan (seen self.old)) }
    {
        let page = scan.page();
        self.set_claimed(page);
        let at = &mut self.flushers[flusher as usize];
        at.batch.push_back(page)?;
        at.phase = ReplayPhase::Scanning {
            scan: Scan {
                passed: scan.passed + 1,
                ..scan
            },
        };
        self.log(cpu, Entry::Claimed { flusher, page })?;
        self.then_do(cpu, &[Todo::Silent(Silent::Close)])
    }

    /// Silent: the scan closes, where its last page was passed or the batch has its quota.
    pub fn close(&mut self, trace: &Trace, cpu: u32) -> Result<(), AllocError>
        requires cpu { cpu < length (seen self.old).cpus }
        requires fits { OfFlusher (λ flusher phase. ScanningFits trace.now flusher (seen self.old) phase) (seen self.old) (cpu_of cpu (seen self.old)).turn.whose }
        ensures { OnOk result (seen self.new ≡ spec.close trace.now cpu (seen self.old)) }
    {
        match self.whose(cpu) {
            Whose::Task { .. } => Ok(()),
            Whose::Flusher { flusher } => self.close_in(trace, cpu, flusher),
        }
    }

    fn close_in(&mut self, trace: &Trace, cpu: u32, flusher: u32) -> Result<(), AllocError>
        requires cpu { cpu < length (seen self.old).cpus }
        requires flusher { flusher < length (seen self.old).flushers }
        requires fits { ScanningFits trace.now flusher (seen self.old) (flusher_of flusher (seen self.old)).phase }
        ensures { OnOk result (seen self.new ≡ spec.close_in trace.now cpu flusher (flusher_of flusher (seen self.old)).phase (seen self.old)) }
    {
        match self.phase(flusher) {
            ReplayPhase::Scanning { scan } => {
                let pages = self.flushers[flusher as usize].batch.len() as u64;
                if scan.pages <= scan.passed || scan.quota <= pages {
                    self.keep_place(trace, flusher, &scan);
                    self.close_now(cpu, scan.inode, scan.noted || scan.passed < scan.pages)
                } else {
                    Ok(())
                }
            }
            ReplayPhase::Idle { .. }
            | ReplayPhase::Taken { .. }
            | ReplayPhase::Flying { .. }
            | ReplayPhase::Finished => { Ok(()) }
        }
    }

    // The next scan of the inode begins at the place to which this one has come, where the device says so.
    #[tactic(auto, using(crate::proofs::Scanning::stays_placed))]
    fn keep_place(&mut self, trace: &Trace, flusher: u32, scan: &Scan)
        requires fits { ScanFits trace.now flusher scan.now (seen self.old) }
        ensures { seen self.new ≡ spec.keep_place trace.now flusher scan.now (seen self.old) }
    {
        if device_at(trace, flusher_device(trace, flusher)).cyclic {
            self.flushers[flusher as usize]
                .places
                .put(scan.inode, scan.place());
        }
    }

    // The batch is handed over next, after the inode is marked again.
    fn close_now(&mut self, cpu: u32, inode: u32, again: bool) -> Result<(), AllocError>
        requires cpu { cpu < length (seen self.old).cpus }
        ensures { OnOk result (seen self.new ≡ then_do_value cpu (spec.close_items inode again) (seen self.old)) }
    {
        if again {
            self.then_do(
                cpu,
                &[
                    Todo::Step(Step::Mark { inode }),
                    Todo::Silent(Silent::HandOver),
                ],
            )
        } else {
            self.then_do(cpu, &[Todo::Silent(Silent::HandOver)])
        }
    }

    /// Silent: the batch goes to the disk, and without one the flusher is idle.
    pub fn hand_over(&mut self, trace: &Trace, cpu: u32) -> Result<(), AllocError>
        requires cpu { cpu < length (seen self.old).cpus }
        requires fits { OfFlusher (λ flusher phase. ScanningFits trace.now flusher (seen self.old) phase) (seen self.old) (cpu_of cpu (seen self.old)).turn.whose }
        ensures { OnOk result (seen self.new ≡ spec.hand_over trace.now cpu (seen self.old)) }
    {
        match self.whose(cpu) {
            Whose::Task { .. } => Ok(()),
            Whose::Flusher { flusher } => self.hand_over_in(trace, cpu, flusher),
        }
    }

    fn hand_over_in(&mut self, trace: &Trace, cpu: u32, flusher: u32) -> Result<(), AllocError>
        requires cpu { cpu < length (seen self.old).cpus }
        requires flusher { flusher < length (seen self.old).flushers }
        requires fits { ScanningFits trace.now flusher (seen self.old) (flusher_of flusher (seen self.old)).phase }
        ensures { OnOk result (seen self.new ≡ spec.hand_over_in trace.now cpu flusher (flusher_of flusher (seen self.old)).phase (seen self.old)) }
    {
        match self.phase(flusher) {
            ReplayPhase::Scanning { scan } => {
                let pages = self.flushers[flusher as usize].batch.len() as u32;
                if pages == 0 {
                    self.land_empty(flusher, scan.noted);
                    return Ok(());
                }
                let rate = rate_of(trace, flusher_device(trace, flusher));
                let until = done_at(self.clock, u64::from(pages), rate);
                self.fly(cpu, flusher, scan.inode, pages, until)
            }
            ReplayPhase::Idle { .. }
            | ReplayPhase::Taken { .. }
            | ReplayPhase::Flying { .. }
            | ReplayPhase::Finished => { Ok(()) }
        }
    }

    // Where a mark was noted the flusher rests, in the drain too.
    fn land_empty(&mut self, flusher: u32, noted: bool)
        requires flusher { flusher < length (seen self.old).flushers }
        requires moment { (seen self.old).now ≤ 2 ^ 63 }
        ensures { seen self.new ≡ spec.land_empty flusher noted (seen self.old) }
    {
        if noted {
            let until = self.clock + FLUSHER_REST;
            self.set_phase(flusher, ReplayPhase::Idle { until, kept: true });
        } else {
            self.set_phase(
                flusher,
                ReplayPhase::Idle {
                    until: 0,
                    kept: false,
                },
            );
        }
    }

    // The disk takes the batch at once, since it wrote the flusher's last batch before it landed.
    fn fly(
        &mut self,
        cpu: u32,
        flusher: u32,
        inode: u32,
        pages: u32,
        until: u64,
    ) -> Result<(), AllocError>
        requires cpu { cpu < length (seen self.old).cpus }
        requires flusher { flusher < length (seen self.old).flushers }
        ensures { OnOk result (seen self.new ≡ spec.fly cpu flusher inode pages until (seen self.old)) }
    {
        let now = self.clock;
        self.set_phase(
            flusher,
            ReplayPhase::Flying {
                inode,
                pages: u64::from(pages),
                until,
            },
        );
        self.log(
            cpu,
            Entry::Batch {
                flusher,
                pages,
                now,
                until,
            },
        )
    }
}
