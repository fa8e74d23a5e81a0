//! The rule of one device's queue, and what each call on it tells its pass.

use crate::known::Known;
use crossbeam_queue::protocol::{Join, Lesson, Outcome, Protocol, Split};

// First in, first out, each entry known to one pass.
pub struct InOrder;

impl Protocol<u32, Known> for InOrder {
    ghost use Rattle.wbt_queue.specs.Known.{opening};
    ghost use Rattle.wbt_queue.specs.Order.{IsInOrder};

    ghost holds = { IsInOrder };

    ghost first = { opening };
}

// A number was put behind all that waited, or the queue was seen full.
pub struct Putting;

impl Outcome<u32, Known> for Putting {
    ghost use Rattle.wbt_queue.specs.Order.{HasPut};

    ghost then = { HasPut };
}

impl Lesson<u32, Known> for Putting {
    ghost use Rattle.wbt_queue.specs.Order.{Waits};

    ghost fact = { Waits };
}

// The number that waited longest was taken, or the queue was seen empty.
pub struct Taking;

impl Outcome<u32, Known> for Taking {
    ghost use Rattle.wbt_queue.specs.Order.{HasTaken};

    ghost then = { HasTaken };
}

impl Lesson<u32, Known> for Taking {
    ghost use Rattle.wbt_queue.specs.Order.{Waits};

    ghost fact = { Waits };
}

// A new pass knows nothing and gets a stake, and the pass that it comes of isn't alone any more.
pub struct Fresh;

impl Split<Known> for Fresh {
    ghost use Rattle.wbt_queue.specs.Known.{newcomer, accompanied};

    ghost left = { accompanied };

    ghost right = { newcomer };
}

// One pass comes to know the parts of another, and gets its stakes.
pub struct Together;

impl Join<Known> for Together {
    ghost use Rattle.wbt_queue.specs.Known.{knows_both, taken_in};

    ghost both = { knows_both };

    ghost spent = { taken_in };
}
