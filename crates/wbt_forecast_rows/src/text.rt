//! How the text of a forecast is written, a part at a time, behind what a vector has. Where memory is refused it has a part of that.

ghost use Rattle.std.specs.Prelude.{◌≡◌, ◌^◌, ◌<◌, [], ◌∷◌, ◌++◌, flat_map, OnOk};
ghost use Rattle.std.specs.Fmt.{decimal};
ghost use Rattle.wbt_forecast_rows.specs.Text as spec;

use crate::forecast::{Forecast, Totals};
use crate::rows::{ContextRow, DomainRow, IntervalRow, TaskRow};
use std::alloc::AllocError;
use wbt_journal::Ending;
use wbt_journal::digits::{ROOM, put_signed};

/// Writes the first line, by the ticks of an interval.
pub fn put_every(every: u64, text: &mut Vec<u8>) -> Result<(), AllocError>
    ensures { OnOk result (text.new.items ≡ text.old.items ++ spec.every_text every) }
{
    put_line(b"forecast", &[u128::from(every)], text)
}

/// Writes the lines of an interval.
pub fn put_row(row: &IntervalRow, text: &mut Vec<u8>) -> Result<(), AllocError>
    ensures { OnOk result (text.new.items ≡ text.old.items ++ spec.row_text row.now) }
{
    put_line(b"from", &[u128::from(row.number)], text)?;
    put_domains(row.domains.as_slice(), text)?;
    put_contexts(row.contexts.as_slice(), text)?;
    put_tasks(row.tasks.as_slice(), text)
}

/// Writes the last two lines.
pub fn put_end(totals: Totals, ending: Ending, text: &mut Vec<u8>) -> Result<(), AllocError>
    ensures { OnOk result (text.new.items ≡ text.old.items ++ spec.end_text totals ending) }
{
    put_line(
        b"totals",
        &[u128::from(totals.dirtied), u128::from(totals.cleaned)],
        text,
    )?;
    text.extend_from_slice(ending_line(ending))
}

/// Writes a whole forecast.
pub fn put_forecast(forecast: &Forecast, text: &mut Vec<u8>) -> Result<(), AllocError>
    ensures { OnOk result (text.new.items ≡ text.old.items ++ spec.forecast_text forecast.now) }
{
    put_every(forecast.every, text)?;
    put_rows(forecast.rows.as_slice(), text)?;
    put_end(forecast.totals, forecast.ending, text)
}

fn put_rows(rows: &[IntervalRow], text: &mut Vec<u8>) -> Result<(), AllocError>
    ensures { OnOk result (text.new.items ≡ text.old.items ++ flat_map spec.row_text rows.now) }
{
    for row in rows {
        put_row(row, text)?;
    }
    Ok(())
}

fn put_domains(rows: &[DomainRow], text: &mut Vec<u8>) -> Result<(), AllocError>
    ensures { OnOk result (text.new.items ≡ text.old.items ++ flat_map spec.domain_text rows.now) }
{
    for row in rows {
        put_domain(row, text)?;
    }
    Ok(())
}

fn put_contexts(rows: &[ContextRow], text: &mut Vec<u8>) -> Result<(), AllocError>
    ensures { OnOk result (text.new.items ≡ text.old.items ++ flat_map spec.context_text rows.now) }
{
    for row in rows {
        put_context(row, text)?;
    }
    Ok(())
}

fn put_tasks(rows: &[TaskRow], text: &mut Vec<u8>) -> Result<(), AllocError>
    ensures { OnOk result (text.new.items ≡ text.old.items ++ flat_map spec.task_text rows.now) }
{
    for row in rows {
        put_task(row, text)?;
    }
    Ok(())
}

fn put_domain(row: &DomainRow, text: &mut Vec<u8>) -> Result<(), AllocError>
    ensures { OnOk result (text.new.items ≡ text.old.items ++ spec.domain_text row.now) }
{
    let numbers = [
        u128::from(row.domain),
        u128::from(row.count),
        u128::from(row.most),
        u128::from(row.hard),
        u128::from(row.bound),
    ];
    put_line(b"domain", &numbers, text)
}

fn put_context(row: &ContextRow, text: &mut Vec<u8>) -> Result<(), AllocError>
    ensures { OnOk result (text.new.items ≡ text.old.items ++ spec.context_text row.now) }
{
    let numbers = [
        u128::from(row.context),
        u128::from(row.dirtied),
        u128::from(row.written),
        u128::from(row.bandwidth),
        u128::from(row.average),
        u128::from(row.ratelimit),
    ];
    put_line(b"context", &numbers, text)
}

fn put_task(row: &TaskRow, text: &mut Vec<u8>) -> Result<(), AllocError>
    ensures { OnOk result (text.new.items ≡ text.old.items ++ spec.task_text row.now) }
{
    let numbers = [
        u128::from(row.task),
        u128::from(row.pages),
        u128::from(row.checks),
        u128::from(row.pauses),
        row.ticks,
        u128::from(row.longest),
    ];
    put_line(b"task", &numbers, text)
}

// Writes a line of a word and numbers.
fn put_line(word: &[u8], numbers: &[u128], text: &mut Vec<u8>) -> Result<(), AllocError>
    ensures { OnOk result (text.new.items ≡ text.old.items ++ spec.numbers_line word.now numbers.now) }
{
    text.extend_from_slice(word)?;
    put_numbers(numbers, text)?;
    text.push(b'\n')?;
    Ok(())
}

fn put_numbers(numbers: &[u128], text: &mut Vec<u8>) -> Result<(), AllocError>
    ensures { OnOk result (text.new.items ≡ text.old.items ++ spec.numbers_text numbers.now) }
{
    for number in numbers {
        put_number(*number, text)?;
    }
    Ok(())
}

fn put_number(number: u128, text: &mut Vec<u8>) -> Result<(), AllocError>
    ensures { OnOk result (text.new.items ≡ text.old.items ++ spec.numbers_text (number ∷ [])) }
{
    text.push(b' ')?;
    put_digits(number, text)
}

// Writes the digits of a number. One of 128 bits has its last digit written by itself.
fn put_digits(number: u128, text: &mut Vec<u8>) -> Result<(), AllocError>
    ensures { OnOk result (text.new.items ≡ text.old.items ++ decimal number) }
{
    if number <= i128::MAX as u128 {
        return put_short(number, text);
    }
    put_short(number / 10, text)?;
    text.push(b'0' + (number % 10) as u8)?;
    Ok(())
}

// Writes the digits of a number of at most 127 bits.
fn put_short(number: u128, text: &mut Vec<u8>) -> Result<(), AllocError>
    requires { number < 2 ^ 127 }
    ensures { OnOk result (text.new.items ≡ text.old.items ++ decimal number) }
{
    let mut room = [0; ROOM];
    let first = put_signed(number as i128, &mut room);
    text.extend_from_slice(&room[first..])
}

fn ending_line(ending: Ending) -> &'static [u8]
    ensures { result.now ≡ spec.ending_text ending }
{
    match ending {
        Ending::Done => b"end done\n",
        Ending::Halted => b"end halted\n",
        Ending::Spent => b"end spent\n",
        Ending::Faulted => b"end faulted\n",
    }
}
