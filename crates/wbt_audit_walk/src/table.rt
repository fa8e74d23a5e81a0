//! Rows of values, each as long as has been put into it.

ghost use Rattle.std.specs.Prelude.{◌≡◌, ◌∷◌, [], OnOk, IfOk, replicate};
ghost use Rattle.wbt_audit_walk.specs.Rows as spec;

use std::alloc::Global;
use std::marker::Model;
use wbt_num::NoMemory;

/// A row of values.
#[derive(Drop)]
pub struct Row<T> {
    values: Vec<T>,
}

impl<T> Model for Row<T> {
    ghost use Rattle.std.specs.Prelude.{List};

    ghost Value = { List T };

    ghost view = { λ row. row.values.items };
}

/// Rows of values, by the number of the row.
#[derive(Drop)]
pub struct Table<T> {
    rows: Vec<Row<T>>,
}

impl<T> Model for Table<T> {
    ghost use Rattle.std.specs.Prelude.{List};

    ghost Value = { List (List T) };

    ghost view = { λ table. table.rows.items };
}

impl<T: Copy> Table<T> {
    /// So many rows without values.
    pub fn make(alloc: Global, rows: usize) -> Result<Table<T>, NoMemory>
        ensures { IfOk result (λ table. table ≡ replicate rows []) }
    {
        let mut table = Vec::with_capacity(alloc, rows)?;
        for _ in 0..rows {
            table.push(Row {
                values: Vec::new(alloc),
            })?;
        }
        Ok(Table { rows: table })
    }

    /// So many rows, each with one value.
    pub fn start(alloc: Global, rows: usize, value: T) -> Result<Table<T>, NoMemory>
        ensures { IfOk result (λ table. table ≡ replicate rows (value ∷ [])) }
    {
        let mut table = Vec::with_capacity(alloc, rows)?;
        for _ in 0..rows {
            let mut values = Vec::new(alloc);
            values.push(value)?;
            table.push(Row { values })?;
        }
        Ok(Table { rows: table })
    }

    /// The values of a row; none where there is no such row.
    pub fn row(&self, row: usize) -> &[T]
        ensures { result.now ≡ spec.row_of self.now row }
    {
        match self.rows.as_slice().get(row) {
            None => &[],
            Some(row) => row.values.as_slice(),
        }
    }

    /// The value at a place of a row; none where the row isn't so long.
    pub fn get(&self, row: usize, place: u64) -> Option<T>
        ensures { result ≡ spec.cell self.now row place }
    {
        self.row(row).get(place as usize).copied()
    }

    /// Puts a value at the end of a row, where there is one.
    pub fn push(&mut self, row: usize, value: T) -> Result<(), NoMemory>
        ensures { OnOk result (self.new ≡ spec.push_cell self.old row value) }
    {
        if row < self.rows.len() {
            self.rows[row].values.push(value)?;
        }
        Ok(())
    }

    /// Puts a value in place of the one at a place of a row, where there is one.
    pub fn put(&mut self, row: usize, place: u64, value: T)
        ensures { self.new ≡ spec.put_cell self.old row place value }
    {
        let place = place as usize;
        if row < self.rows.len() && place < self.rows[row].values.len() {
            self.rows[row].values[place] = value;
        }
    }
}
