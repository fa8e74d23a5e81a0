//! Lines that stand once: the number of CPUs, the settings, and where a replay halts.

ghost use Rattle.std.specs.Prelude.{◌≡◌};
ghost use Rattle.wbt_trace_text.specs.Accept as spec;
ghost use Rattle.wbt_trace_text.specs.Seen.{Gives, seen};

use crate::accept::refused;
use crate::builder::Builder;
use crate::fault::{AcceptError, Refusal};
use crate::line::Line;
use wbt_num::{MOST_CAP, MOST_CPUS};
use wbt_trace::{MOST_COUNT, MOST_PERCENT, MOST_SETTING_BYTES};

impl Builder {
    pub fn cpus(&mut self, cpus: u64) -> Result<(), AcceptError>
        ensures { Gives result (seen self.new) (spec.accept (Line.Cpus cpus) (seen self.old)) }
    {
        if self.cpus.is_some() {
            return refused(Refusal::Twice);
        }
        if cpus == 0 || cpus > MOST_CPUS as u64 {
            return refused(Refusal::OutOfRange);
        }
        self.cpus = Some(cpus as u32);
        Ok(())
    }

    pub fn cap(&mut self, pages: u64) -> Result<(), AcceptError>
        ensures { Gives result (seen self.new) (spec.accept (Line.Cap pages) (seen self.old)) }
    {
        if self.cap.is_some() {
            return refused(Refusal::Twice);
        }
        if pages == 0 || pages > MOST_CAP as u64 {
            return refused(Refusal::OutOfRange);
        }
        self.cap = Some(pages as u32);
        Ok(())
    }

    pub fn dirty_ratio(&mut self, percent: u64) -> Result<(), AcceptError>
        ensures { Gives result (seen self.new) (spec.accept (Line.DirtyRatio percent) (seen self.old)) }
    {
        if self.ratio.is_some() {
            return refused(Refusal::Twice);
        }
        if percent > MOST_PERCENT {
            return refused(Refusal::OutOfRange);
        }
        self.ratio = Some(percent as u32);
        Ok(())
    }

    pub fn background_ratio(&mut self, percent: u64) -> Result<(), AcceptError>
        ensures { Gives result (seen self.new) (spec.accept (Line.BackgroundRatio percent) (seen self.old)) }
    {
        if self.bg_ratio.is_some() {
            return refused(Refusal::Twice);
        }
        if percent > MOST_PERCENT {
            return refused(Refusal::OutOfRange);
        }
        self.bg_ratio = Some(percent as u32);
        Ok(())
    }

    pub fn dirty_bytes(&mut self, bytes: u64) -> Result<(), AcceptError>
        ensures { Gives result (seen self.new) (spec.accept (Line.DirtyBytes bytes) (seen self.old)) }
    {
        if self.bytes.is_some() {
            return refused(Refusal::Twice);
        }
        if bytes > MOST_SETTING_BYTES {
            return refused(Refusal::OutOfRange);
        }
        self.bytes = Some(bytes);
        Ok(())
    }

    pub fn background_bytes(&mut self, bytes: u64) -> Result<(), AcceptError>
        ensures { Gives result (seen self.new) (spec.accept (Line.BackgroundBytes bytes) (seen self.old)) }
    {
        if self.bg_bytes.is_some() {
            return refused(Refusal::Twice);
        }
        if bytes > MOST_SETTING_BYTES {
            return refused(Refusal::OutOfRange);
        }
        self.bg_bytes = Some(bytes);
        Ok(())
    }

    pub fn halt(&mut self, steps: u64) -> Result<(), AcceptError>
        ensures { Gives result (seen self.new) (spec.accept (Line.Halt steps) (seen self.old)) }
    {
        if self.halt.is_some() {
            return refused(Refusal::Twice);
        }
        if steps > MOST_COUNT {
            return refused(Refusal::OutOfRange);
        }
        self.halt = Some(steps);
        Ok(())
    }
}
