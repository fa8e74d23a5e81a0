//! Values in fixed places.

ghost use Rattle.std.specs.Prelude.{◌≡◌, ◌<◌, length, get_or, set};

use std::marker::Model;

/// So many values as there were at the making, each in its place, counted from 0.
#[derive(Drop)]
pub struct Row<T> {
    values: Vec<T>,
}

impl<T> Model for Row<T> {
    ghost use Rattle.std.specs.Prelude.{List};

    ghost Value = { List T };

    ghost view = { λ row. row.values.items };
}

impl<T: Copy> Row<T> {
    /// The vector's values, each in its place.
    pub fn from_vec(values: Vec<T>) -> Row<T>
        ensures { result ≡ values.items }
    {
        Row { values }
    }

    /// The value in a place.
    pub fn get(&self, place: u32) -> T
        requires { place < length self.now }
        ensures { (other : T) → result ≡ get_or self.now place other }
    {
        self.values[place as usize]
    }

    /// Sets the value in a place, and leaves all others.
    pub fn put(&mut self, place: u32, value: T)
        requires { place < length self.old }
        ensures { self.new ≡ set self.old place value }
    {
        self.values[place as usize] = value;
    }
}
