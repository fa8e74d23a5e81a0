//! What a check decides by.

ghost use Rattle.std.specs.Prelude.{◌≡◌, ◌^◌, ◌<◌, ◌≤◌, IfSome, length, unsigned_abs};
ghost use Rattle.wbt_journal.specs.Checks as check;
ghost use Rattle.wbt_pause.specs.Reads.{IsReadable};
ghost use Rattle.wbt_trace.specs.Lawful.{IsLawful};
ghost use Rattle.wbt_writer.specs.Asked.{AreUsable, IsUsable, reads_for};

use crate::lines::Lines;
use wbt_counter::Count;
use wbt_journal::DomainLine;
use wbt_pause::Reads;
use wbt_position::DomainRead;
use wbt_trace::Trace;

/// What a check of a context reads, by its lines and the context's count.
pub fn reads_of(trace: &Trace, context: u32, lines: &Lines, count: &Count) -> Reads
    requires lawful { IsLawful trace.now }
    requires context { context < length trace.now.contexts }
    requires lines { AreUsable lines.now }
    requires few { unsigned_abs count.now.value ≤ 2 ^ 31 }
    ensures value { result ≡ reads_for trace.now context lines.now count.now }
    ensures readable { IsReadable result }
{
    let global = lines.global.read_for(trace, context);
    let cgroup = group_read(trace, context, &lines.cgroup);
    Reads {
        global,
        cgroup,
        wb_dirty: count.reading(),
        cpus: trace.cpus,
        cap: trace.cap,
    }
}

fn group_read(trace: &Trace, context: u32, line: &Option<DomainLine>) -> Option<DomainRead>
    requires lawful { IsLawful trace.now }
    requires context { context < length trace.now.contexts }
    requires line { IfSome line.now IsUsable }
    ensures { result ≡ check.cgroup_read trace.now context line.now }
{
    match line {
        None => None,
        Some(line) => Some(line.read_for(trace, context)),
    }
}
