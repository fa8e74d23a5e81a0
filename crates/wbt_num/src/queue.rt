//! A list that is taken from its front.

ghost use Rattle.std.specs.Prelude.{◌≡◌, ◌++◌, ◌∷◌, [], OnOk, length, MatchOption, ◌==◌};
ghost use Rattle.wbt_num.specs.Front.{first};

use std::alloc::{AllocError, Global};
use std::collections::VecDeque;
use std::marker::Model;

/// A list of values that grows at both ends and is taken from its front.
#[derive(Drop)]
pub struct Queue<T> {
    values: VecDeque<T>,
}

impl<T> Model for Queue<T> {
    ghost use Rattle.std.specs.Prelude.{List};

    ghost Value = { List T };

    ghost view = { λ queue. queue.values.items };
}

impl<T: Drop> Queue<T> {
    /// A queue without values. It takes no memory until a value comes.
    pub fn new(alloc: Global) -> Queue<T>
        ensures { result ≡ [] }
    {
        Queue {
            values: VecDeque::new(alloc),
        }
    }

    /// Puts the value behind all others. It fails where memory is refused.
    pub fn push_back(&mut self, value: T) -> Result<(), AllocError>
        ensures { OnOk result (self.new ≡ self.old ++ value ∷ []) }
    {
        self.values.push_back(value)?;
        Ok(())
    }

    /// Puts the value before all others. It fails where memory is refused.
    pub fn push_front(&mut self, value: T) -> Result<(), AllocError>
        ensures { OnOk result (self.new ≡ value ∷ self.old) }
    {
        self.values.push_front(value)?;
        Ok(())
    }

    /// Takes the first value; there is none exactly where the queue is empty.
    pub fn pop_front(&mut self) -> Option<T>
        ensures { MatchOption result ((self.old ≡ []) × (self.new ≡ [])) (λ value. self.old ≡ value ∷ self.new) }
    {
        self.values.pop_front()
    }

    /// How many values there are.
    pub fn len(&self) -> usize
        ensures { result ≡ length self.now }
    {
        self.values.len()
    }

    /// The first value, where there is one.
    pub fn front(&self) -> Option<T>
    where
        T: Copy,
        ensures { result ≡ first self.now }
    {
        self.values.front().copied()
    }

    /// Whether there is no value.
    pub fn is_empty(&self) -> bool
        ensures { result ≡ (length self.now == 0) }
    {
        self.values.is_empty()
    }
}
