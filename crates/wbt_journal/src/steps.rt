//! The lines of steps.

ghost use Rattle.std.specs.Prelude.{◌≡◌, ◌+◌, ◌*◌, ◌^◌, ◌≤◌, [], ◌∷◌, ◌++◌, length};
ghost use Rattle.wbt_journal.specs.Line.{fields_text, line_text, lines_text};
ghost use Rattle.wbt_journal.specs.Near.{AreNear};
ghost use Rattle.wbt_journal.specs.Steps as spec;
ghost use Rattle.wbt_journal.specs.Way.{Puts, way};
ghost use Rattle.wbt_journal.specs.Word.{word_text};
ghost use Rattle.wbt_journal.specs.declared.word.Word.TheVariants as word;

use crate::head::{HEAD, put_head};
use crate::kept::KeptColumns;
use crate::out::Out;
use crate::step::StepEntry;
use crate::word::Word;
use wbt_io::Sink;

impl Out {
    /// Puts the lines of all steps, if there are any. The columns are those before the first of them.
    pub fn steps_part<K: Sink>(
        &mut self,
        sink: &mut K,
        cpus: usize,
        homes: &[u32],
        columns: &mut KeptColumns,
        steps: &[StepEntry],
    )
        requires { AreNear 0 columns.old }
        ensures { Puts (lines_text (spec.steps_part cpus homes.now columns.old steps.now)) (way (K.held sink.old) (K.faults sink.old) self.old) (way (K.held sink.new) (K.faults sink.new) self.new) }
    {
        match steps {
            [] => {}
            [_, ..] => {
                self.line(sink, Word::Steps, &[]);
                self.steps(sink, cpus, homes, columns, steps);
            }
        }
    }

    fn steps<K: Sink>(
        &mut self,
        sink: &mut K,
        cpus: usize,
        homes: &[u32],
        columns: &mut KeptColumns,
        steps: &[StepEntry],
    )
        requires { AreNear 0 columns.old }
        ensures { Puts (lines_text (spec.step_lines cpus homes.now 1 columns.old steps.now)) (way (K.held sink.old) (K.faults sink.old) self.old) (way (K.held sink.new) (K.faults sink.new) self.new) }
    {
        for (i, step) in steps.iter().enumerate() {
            columns.advance(homes, step, i as u128 * (1 << 31));
            self.step(sink, cpus, i as u64 + 1, step, columns);
        }
    }

    // Puts the line of a step, with the columns after it.
    fn step<K: Sink>(
        &mut self,
        sink: &mut K,
        cpus: usize,
        number: u64,
        step: &StepEntry,
        columns: &KeptColumns,
    )
        ensures { Puts (line_text (spec.step_line cpus number step.now columns.now)) (way (K.held sink.old) (K.faults sink.old) self.old) (way (K.held sink.new) (K.faults sink.new) self.new) }
    {
        self.head(sink, cpus, number, step);
        self.put_all(sink, columns.end());
    }

    // Puts how the line of a step begins.
    fn head<K: Sink>(&mut self, sink: &mut K, cpus: usize, number: u64, step: &StepEntry)
        ensures { Puts (word_text word.Step ++ fields_text (spec.step_fields cpus number step.now)) (way (K.held sink.old) (K.faults sink.old) self.old) (way (K.held sink.new) (K.faults sink.new) self.new) }
    {
        let mut room = [0; HEAD];
        let first = put_head(cpus, number, step, &mut room);
        self.put(sink, &room[first..]);
    }
}
