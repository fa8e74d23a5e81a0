//! A machine forgets what it has told, so that its memory doesn't grow with its run, and may be let make further steps.

ghost use Rattle.std.specs.Prelude.{◌≡◌, ◌<◌, ◌^◌, [], length, map};
ghost use Rattle.wbt_replay_moves.specs.Definition.Forget as spec;
ghost use Rattle.wbt_replay_moves.specs.Seen.{seen};

use crate::machine::Machine;
use crate::state::Cpu;
use std::alloc::Global;
use std::mem;
use wbt_num::{Items, MOST_STEPS};

impl Machine {
    /// Forgets the steps made and all that the CPUs and the timer have told, but not how many steps there were. The memory of the lists is
    /// kept for what comes.
    pub fn forget(&mut self, alloc: Global)
        requires { length (seen self.old).steps < 2 ^ 64 }

        // What its next moves need stays, and the number of its steps.
        ensures state { seen self.new ≡ spec.forgotten (seen self.old) }

        // It keeps none of its steps.
        ensures steps { self.new.steps ≡ record { forgotten = length (seen self.old).steps; kept = [] } }
    {
        self.steps.forget();
        forget_parts(alloc, &mut self.cpus);
        forget_all(alloc, &mut self.timer.entries);
    }

    /// As many steps more may be made as a replay may have.
    pub fn extend(&mut self)
        requires { self.old.most < 2 ^ 63 }
        ensures { seen self.new ≡ spec.extended (seen self.old) }
    {
        self.most += MOST_STEPS;
    }
}

// The CPUs' parts of the journal.
fn forget_parts(alloc: Global, cpus: &mut [Cpu])
    ensures { cpus.new ≡ map spec.bare cpus.old }
{
    for cpu in cpus.iter_mut() {
        forget_part(alloc, cpu);
    }
}

fn forget_part(alloc: Global, cpu: &mut Cpu)
    ensures { cpu.new ≡ spec.bare cpu.old }
{
    forget_all(alloc, &mut cpu.entries);
    forget_all(alloc, &mut cpu.checks);
    forget_all(alloc, &mut cpu.estimates);
}

// Empties a list, whose memory is kept.
fn forget_all<T: Drop>(alloc: Global, list: &mut Items<T>)
    ensures { list.new ≡ [] }
{
    let mut values = mem::replace(list, Items::new(alloc)).into_vec();
    values.clear();
    *list = Items::from_vec(values);
}
