//! A line of a trace, as its kind and its numbers say it. Whether the numbers are in range is no matter here.

ghost use Rattle.std.specs.Fmt.{WritesOnOk};
ghost use Rattle.std.specs.Prelude.{◌≡◌, IfSome, IfNone, IfOk};
ghost use Rattle.wbt_trace_text.specs.Lines as spec;
ghost use Rattle.wbt_trace_text.specs.Writing.{line_text};
ghost use Rattle.wbt_trace_text.specs.declared.line.Line.{Line as LineValue};

use crate::kind::{Kind, kind_of};
use std::alloc::Global;
use std::fmt;
use wbt_num::NoMemory;
use wbt_text::{front_of, numbers};

/// What a line says.
#[derive(Clone, Copy)]
pub enum Line {
    Cpus {
        cpus: u64,
    },
    Cap {
        pages: u64,
    },
    DirtyRatio {
        percent: u64,
    },
    BackgroundRatio {
        percent: u64,
    },
    DirtyBytes {
        bytes: u64,
    },
    BackgroundBytes {
        bytes: u64,
    },
    Avail {
        from: u64,
        pages: u64,
    },
    Device {
        device: u64,
        rate: u64,
        min: u64,
        max: u64,
    },
    Strict {
        device: u64,
    },
    Chunk {
        device: u64,
        pages: u64,
    },
    Cyclic {
        device: u64,
    },
    Cgroup {
        cgroup: u64,
        filepages: u64,
        headroom: u64,
    },
    Context {
        context: u64,
        device: u64,
        domain: u64,
    },
    Expire {
        context: u64,
        centi: u64,
    },
    Estimate {
        context: u64,
        bandwidth: u64,
        average: u64,
        ratelimit: u64,
    },
    Inode {
        inode: u64,
        context: u64,
        pages: u64,
    },
    Task {
        task: u64,
        cpu: u64,
    },
    Pace {
        task: u64,
        pages: u64,
        ticks: u64,
    },
    Flusher {
        flusher: u64,
        device: u64,
        cpu: u64,
    },
    Write {
        task: u64,
        inode: u64,
        from: u64,
        pages: u64,
    },
    Rest {
        task: u64,
        ticks: u64,
    },
    Order {
        cpu: u64,
        steps: u64,
    },
    OrderTimer {
        steps: u64,
    },
    Tick {
        ticks: u64,
    },
    Halt {
        steps: u64,
    },
}

impl fmt::Display for Line {
    ghost use Rattle.std.specs.Prelude.{Some};

    ghost output = { λ line. Some (line_text line) };

    fn fmt<W: fmt::Write>(&self, f: &mut fmt::Formatter<W>) -> fmt::Result {
        match self {
            Line::Cpus { cpus } => write!(f, "cpus {cpus}"),
            Line::Cap { pages } => write!(f, "cap {pages}"),
            Line::DirtyRatio { percent } => write!(f, "set dirty_ratio {percent}"),
            Line::BackgroundRatio { percent } => write!(f, "set dirty_background_ratio {percent}"),
            Line::DirtyBytes { bytes } => write!(f, "set dirty_bytes {bytes}"),
            Line::BackgroundBytes { bytes } => write!(f, "set dirty_background_bytes {bytes}"),
            Line::Avail { from, pages } => write!(f, "avail {from} {pages}"),
            Line::Device { .. } | Line::Strict { .. } | Line::Chunk { .. } | Line::Cyclic { .. } =>
                { write_of_device(f, self) }
            Line::Cgroup {
                cgroup,
                filepages,
                headroom,
            } => write!(f, "cgroup {cgroup} {filepages} {headroom}"),
            Line::Context { .. } | Line::Expire { .. } | Line::Estimate { .. } => {
                write_of_context(f, self)
            }
            Line::Inode {
                inode,
                context,
                pages,
            } => write!(f, "inode {inode} {context} {pages}"),
            Line::Task { task, cpu } => write!(f, "task {task} {cpu}"),
            Line::Pace { task, pages, ticks } => write!(f, "pace {task} {pages} {ticks}"),
            Line::Flusher {
                flusher,
                device,
                cpu,
            } => write!(f, "flusher {flusher} {device} {cpu}"),
            Line::Write { .. }
            | Line::Rest { .. }
            | Line::Order { .. }
            | Line::OrderTimer { .. }
            | Line::Tick { .. } => write_happening(f, self),
            Line::Halt { steps } => write!(f, "halt {steps}"),
        }
    }
}

fn write_of_device<W: fmt::Write>(f: &mut fmt::Formatter<W>, line: &Line) -> fmt::Result
    requires device { spec.IsOfDevice line.now }
    ensures { WritesOnOk W.write_str_gives f.old result (line_text line.now) f.new }
{
    match line {
        Line::Device {
            device,
            rate,
            min,
            max,
        } => write!(f, "device {device} {rate} {min} {max}"),
        Line::Strict { device } => write!(f, "strict {device}"),
        Line::Chunk { device, pages } => write!(f, "chunk {device} {pages}"),
        Line::Cyclic { device } => write!(f, "cyclic {device}"),
        _ => unreachable!(),
    }
}

fn write_of_context<W: fmt::Write>(f: &mut fmt::Formatter<W>, line: &Line) -> fmt::Result
    requires context { spec.IsOfContext line.now }
    ensures { WritesOnOk W.write_str_gives f.old result (line_text line.now) f.new }
{
    match line {
        Line::Context {
            context,
            device,
            domain,
        } => write!(f, "context {context} {device} {domain}"),
        Line::Expire { context, centi } => write!(f, "expire {context} {centi}"),
        Line::Estimate {
            context,
            bandwidth,
            average,
            ratelimit,
        } => write!(f, "estimate {context} {bandwidth} {average} {ratelimit}"),
        _ => unreachable!(),
    }
}

fn write_happening<W: fmt::Write>(f: &mut fmt::Formatter<W>, line: &Line) -> fmt::Result
    requires happens { spec.SaysWhatHappens line.now }
    ensures { WritesOnOk W.write_str_gives f.old result (line_text line.now) f.new }
{
    match line {
        Line::Write {
            task,
            inode,
            from,
            pages,
        } => write!(f, "write {task} {inode} {from} {pages}"),
        Line::Rest { task, ticks } => write!(f, "rest {task} {ticks}"),
        Line::Order { cpu, steps } => write!(f, "order {cpu} {steps}"),
        Line::OrderTimer { steps } => write!(f, "order timer {steps}"),
        Line::Tick { ticks } => write!(f, "tick {ticks}"),
        _ => unreachable!(),
    }
}

fn of_one(kind: Kind, a: u64) -> Option<Line>
    ensures { result ≡ spec.of_one kind a }
{
    match kind {
        Kind::Cpus => Some(Line::Cpus { cpus: a }),
        Kind::Cap => Some(Line::Cap { pages: a }),
        Kind::DirtyRatio => Some(Line::DirtyRatio { percent: a }),
        Kind::BackgroundRatio => Some(Line::BackgroundRatio { percent: a }),
        Kind::DirtyBytes => Some(Line::DirtyBytes { bytes: a }),
        Kind::BackgroundBytes => Some(Line::BackgroundBytes { bytes: a }),
        Kind::Strict => Some(Line::Strict { device: a }),
        Kind::Cyclic => Some(Line::Cyclic { device: a }),
        Kind::OrderTimer => Some(Line::OrderTimer { steps: a }),
        Kind::Tick => Some(Line::Tick { ticks: a }),
        Kind::Halt => Some(Line::Halt { steps: a }),
        _ => None,
    }
}

fn of_two(kind: Kind, a: u64, b: u64) -> Option<Line>
    ensures { result ≡ spec.of_two kind a b }
{
    match kind {
        Kind::Avail => Some(Line::Avail { from: a, pages: b }),
        Kind::Chunk => Some(Line::Chunk {
            device: a,
            pages: b,
        }),
        Kind::Expire => Some(Line::Expire {
            context: a,
            centi: b,
        }),
        Kind::Task => Some(Line::Task { task: a, cpu: b }),
        Kind::Rest => Some(Line::Rest { task: a, ticks: b }),
        Kind::Order => Some(Line::Order { cpu: a, steps: b }),
        _ => None,
    }
}

fn of_three(kind: Kind, a: u64, b: u64, c: u64) -> Option<Line>
    ensures { result ≡ spec.of_three kind a b c }
{
    match kind {
        Kind::Cgroup => Some(Line::Cgroup {
            cgroup: a,
            filepages: b,
            headroom: c,
        }),
        Kind::Context => Some(Line::Context {
            context: a,
            device: b,
            domain: c,
        }),
        Kind::Inode => Some(Line::Inode {
            inode: a,
            context: b,
            pages: c,
        }),
        Kind::Pace => Some(Line::Pace {
            task: a,
            pages: b,
            ticks: c,
        }),
        Kind::Flusher => Some(Line::Flusher {
            flusher: a,
            device: b,
            cpu: c,
        }),
        _ => None,
    }
}

fn of_four(kind: Kind, a: u64, b: u64, c: u64, d: u64) -> Option<Line>
    ensures { result ≡ spec.of_four kind a b c d }
{
    match kind {
        Kind::Device => Some(Line::Device {
            device: a,
            rate: b,
            min: c,
            max: d,
        }),
        Kind::Estimate => Some(Line::Estimate {
            context: a,
            bandwidth: b,
            average: c,
            ratelimit: d,
        }),
        Kind::Write => Some(Line::Write {
            task: a,
            inode: b,
            from: c,
            pages: d,
        }),
        _ => None,
    }
}

fn line_from(kind: Kind, numbers: &[u64]) -> Option<Line>
    ensures { result ≡ spec.line_from kind numbers.now }
{
    match numbers {
        [a] => of_one(kind, *a),
        [a, b] => of_two(kind, *a, *b),
        [a, b, c] => of_three(kind, *a, *b, *c),
        [a, b, c, d] => of_four(kind, *a, *b, *c, *d),
        _ => None,
    }
}

/// The line that the text spells, without its line feed.
pub fn line_of(alloc: Global, text: &[u8]) -> Result<Option<Line>, NoMemory>
    ensures found { IfOk result (λ read. IfSome read (λ line. spec.IsLine text.now line)) }
    ensures none { IfOk result (λ read. IfNone read ((line : LineValue) → spec.IsLine text.now line → ⊥)) }
{
    let (front, rest) = front_of(text);
    match kind_of(front) {
        None => Ok(None),
        Some(kind) => match numbers(alloc, rest)? {
            None => Ok(None),
            Some(found) => Ok(line_from(kind, found.as_slice())),
        },
    }
}
