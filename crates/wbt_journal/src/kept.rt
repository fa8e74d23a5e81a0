//! The columns of step lines, with the end of a line that tells them. Most steps change no column, so it is kept.

ghost use Rattle.std.specs.Prelude.{◌≡◌, ◌+◌, ◌*◌, ◌^◌, ◌≤◌, ◌∷◌, ◌++◌, false, pos, length, vec_len, vec_capacity, IfOk};
ghost use Rattle.std.specs.Fmt.{signed_decimal};
ghost use Rattle.wbt_journal.specs.Kept.{end_text, MayStay};
ghost use Rattle.wbt_journal.specs.Near.{AreNear};
ghost use Rattle.wbt_journal.specs.Pieces.{column_text};
ghost use Rattle.wbt_journal.specs.Steps as spec;

use crate::columns::{Column, advance, first_columns};
use crate::line::{FIELD, put_int};
use crate::step::StepEntry;
use crate::timer::TimerEntry;
use std::alloc::{AllocError, Global};
use std::marker::Model;
use wbt_grant::StepKind;

/// Bytes in which the text of a column has room, which is two numbers, and that of a line feed too.
const COLUMN: usize = 82;

/// The columns after some steps, with how a step's line ends that tells them.
#[derive(Drop)]
pub struct KeptColumns {
    columns: Vec<Column>,
    end: Vec<u8>,
}

impl Model for KeptColumns {
    ghost use Rattle.std.specs.Prelude.{List, vec_len, vec_capacity};
    ghost use Rattle.wbt_journal.specs.declared.columns.Column.{Column};
    ghost use Rattle.wbt_journal.specs.Kept.{IsKept};

    ghost Value = { List Column };

    ghost view = { λ k. k.columns.items };

    ghost invariant = { λ k. IsKept k.columns.items k.end.items (vec_len k.columns) (vec_capacity k.end) };
}

impl KeptColumns {
    /// The columns before the first step. All memory that step lines need is taken here.
    pub fn first(
        alloc: Global,
        timer: &[TimerEntry],
        bases: &[u64],
    ) -> Result<KeptColumns, AllocError>
        ensures { IfOk result (λ columns. columns ≡ spec.first_columns 0 timer.now bases.now) }
    {
        let columns = first_columns(alloc, timer, bases)?;
        let room = room_of(columns.len())?;
        let mut end = Vec::with_capacity(alloc, room)?;
        put_end(columns.as_slice(), &mut end);
        Ok(KeptColumns { columns, end })
    }

    /// How a step's line ends that tells them.
    pub fn end(&self) -> &[u8]
        ensures { result.now ≡ end_text self.now }
    {
        self.end.as_slice()
    }

    /// The columns after a step.
    pub fn advance(&mut self, homes: &[u32], step: &StepEntry, most: u128)
        requires near { AreNear most self.old }
        requires room { most ≤ 2 ^ 96 }
        ensures value { self.new ≡ spec.columns_after homes.now 0 step.now self.old }
        ensures near { AreNear (most + 2 ^ 31) self.new }
    {
        if may_change(step) {
            advance(self.columns.as_mut_slice(), homes, step, most);
            put_end(self.columns.as_slice(), &mut self.end);
        }
    }
}

// Whether a step may change a column.
fn may_change(step: &StepEntry) -> bool
    ensures { result ≡ false → MayStay step.now }
{
    match step.kind {
        StepKind::Peak => true,
        _ => is_change(step.change),
    }
}

fn is_change(change: i8) -> bool
    ensures { result ≡ false → change ≡ pos 0 }
{
    change != 0
}

// Bytes in which the end of a line has room with so many columns.
fn room_of(columns: usize) -> Result<usize, AllocError>
    ensures { IfOk result (λ room. room ≡ (columns + 1) * COLUMN) }
{
    if columns < usize::MAX / COLUMN {
        Ok((columns + 1) * COLUMN)
    } else {
        Err(AllocError)
    }
}

// Puts the end of a line in place of another one, in the memory that there is.
fn put_end(columns: &[Column], end: &mut Vec<u8>)
    requires { (length columns.now + 1) * COLUMN ≤ vec_capacity end.old }
    ensures text { end.new.items ≡ end_text columns.now }
    ensures room { vec_capacity end.old ≤ vec_capacity end.new }
{
    end.clear();
    for column in columns {
        add_number(column.count, end);
        add_number(column.bound(), end);
    }
    add_bytes(b"\n", end);
}

// Adds a space and a number to a text.
fn add_number(number: i128, text: &mut Vec<u8>)
    requires { vec_len text.old + FIELD ≤ vec_capacity text.old }
    ensures items { text.new.items ≡ text.old.items ++ 32 ∷ signed_decimal number }
    ensures len { vec_len text.new ≤ vec_len text.old + FIELD }
    ensures room { vec_capacity text.old ≤ vec_capacity text.new }
{
    let mut room = [0; FIELD];
    let first = put_int(number, FIELD, &mut room);
    add_bytes(&room[first..], text);
}

fn add_bytes(bytes: &[u8], text: &mut Vec<u8>)
    requires { vec_len text.old + length bytes.now ≤ vec_capacity text.old }
    ensures items { text.new.items ≡ text.old.items ++ bytes.now }
    ensures len { vec_len text.new ≡ vec_len text.old + length bytes.now }
    ensures room { vec_capacity text.old ≤ vec_capacity text.new }
{
    if text.extend_from_slice(bytes).is_err() {
        unreachable!();
    }
}
