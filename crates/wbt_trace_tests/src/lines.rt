//! A text of marks is read line by line.

ghost use Rattle.std.specs.Prelude.{◌≡◌, ℕ, ◌+◌, if◌then◌else◌, nat_le, codes, Ok, Err};
ghost use Rattle.wbt_trace_tests.specs.declared.lines.Told.TheVariants as told;

use std::alloc::Global;
use std::test::Fail;
use wbt_num::NoMemory;
use wbt_text::{Reader, Verdict, read_lines};

// Lines that are each the mark x, of which no more than two may stand.
#[derive(Drop)]
struct Marks {
    count: u64,
}

#[derive(Clone, Copy, Debug, PartialEq, Eq)]
enum Told {
    Marks { lines: u64, marks: u64 },
    Unread { line: u64 },
    Refused { line: u64 },
}

impl Reader for Marks {
    type Refusal = ();

    type Answer = Told;

    ghost State = { ℕ };

    ghost Line = { Unit {0} };

    ghost format = { record {
      spells = λ marks text line. text ≡ codes "x";
      accept = λ line marks. if nat_le 2 marks then Err tt else Ok (marks + 1);
      ended = λ count marks. told.Marks count marks;
      unread = λ number. told.Unread number;
      refused = λ number why. told.Refused number;
    } };

    ghost seen = { λ marks. marks.count };

    fn take(&mut self, alloc: Global, line: &[u8]) -> Result<Verdict<()>, NoMemory> {
        if line != b"x".as_slice() {
            return Ok(Verdict::NoLine);
        }
        if self.count >= 2 {
            return Ok(Verdict::Refused(()));
        }
        self.count += 1;
        Ok(Verdict::Taken)
    }

    fn ended(self, count: u64) -> Told {
        Told::Marks {
            lines: count,
            marks: self.count,
        }
    }

    fn unread(number: u64) -> Told {
        Told::Unread { line: number }
    }

    fn refused(number: u64, why: ()) -> Told {
        Told::Refused { line: number }
    }
}

// Whether this is read of the text.
fn is_read(alloc: Global, text: &[u8], told: Told) -> bool {
    read_lines(alloc, Marks { count: 0 }, text) == Ok(told)
}

#[test]
fn lines_are_read_to_the_first_fault(rt: HostRuntime) {
    for (text, told) in [
        (b"".as_slice(), Told::Marks { lines: 0, marks: 0 }),
        (b"x\nx\n".as_slice(), Told::Marks { lines: 2, marks: 2 }),
        (b"x\nx".as_slice(), Told::Unread { line: 2 }),
        (b"x\n\nx\n".as_slice(), Told::Unread { line: 2 }),
        (b"x\nx\nx\ny\n".as_slice(), Told::Refused { line: 3 }),
        (b"x\nx\ny\nx\n".as_slice(), Told::Unread { line: 3 }),
    ] {
        assert!(rt; is_read(rt.alloc(), text, told));
    }
}
