//! Sums of folds by counter and version.
//!
//! What the folds of each version moved is added up, and then the versions of each counter, from 0 on. With n folds of a counter its
//! versions are 0 to n; a fold of a later version is in none of these sums. A sum past 2^127, which takes 2^64 folds, for which there is
//! no memory anyway, is refused as memory is.

ghost use Rattle.std.specs.Prelude.{◌≡◌, ◌≤◌, IfOk, OnOk};
ghost use Rattle.wbt_audit_reads.specs.Counting.{is_sum_of};
ghost use Rattle.wbt_audit_walk.specs.Rows.{cell};
ghost use Rattle.wbt_audit_reads.specs.Summing as spec;

use std::alloc::Global;
use wbt_audit_walk::places::Places;
use wbt_audit_walk::table::Table;
use wbt_counter::{Count, Fold};
use wbt_num::NoMemory;

/// For each counter and each of its versions the sum of the folds up to it.
pub fn sums_of(alloc: Global, places: Places, folds: &[Fold]) -> Result<Table<i128>, NoMemory>
    ensures { IfOk result (spec.AreSumsBy places folds.now) }
{
    let mut sums = zeros_of(alloc, places, folds)?;
    add_folds(places, folds, &mut sums)?;
    add_up_all(places, &mut sums)?;
    Ok(sums)
}

/// Whether a count is of a version that its counter has, with the sum up to it.
pub fn is_sum(sums: &Table<i128>, place: usize, count: &Count) -> bool
    ensures { result ≡ is_sum_of (cell sums.now place count.now.version) count.now.value }
{
    match sums.get(place, count.version) {
        None => false,
        Some(sum) => sum == i128::from(count.value),
    }
}

// A zero for each version of each counter.
fn zeros_of(alloc: Global, places: Places, folds: &[Fold]) -> Result<Table<i128>, NoMemory>
    ensures { IfOk result (spec.AreZeros places folds.now) }
{
    let mut sums = Table::start(alloc, places.counters(), 0i128)?;
    for fold in folds {
        add_zero(&mut sums, places, fold)?;
    }
    Ok(sums)
}

fn add_zero(sums: &mut Table<i128>, places: Places, fold: &Fold) -> Result<(), NoMemory>
    ensures { OnOk result (sums.new ≡ spec.one_zero_more places fold.now sums.old) }
{
    match places.counter(fold.counter) {
        None => Ok(()),
        Some(place) => sums.push(place, 0),
    }
}

// Adds each fold to its version.
fn add_folds(places: Places, folds: &[Fold], sums: &mut Table<i128>) -> Result<(), NoMemory>
    ensures { OnOk result (spec.Adds places folds.now sums.old sums.new) }
{
    for fold in folds {
        add_fold(places, fold, sums)?;
    }
    Ok(())
}

fn add_fold(places: Places, fold: &Fold, sums: &mut Table<i128>) -> Result<(), NoMemory>
    ensures { OnOk result (sums.new ≡ spec.with_fold places fold.now sums.old) }
{
    match places.counter(fold.counter) {
        None => Ok(()),
        Some(place) => add_delta(sums, place, fold),
    }
}

fn add_delta(sums: &mut Table<i128>, place: usize, fold: &Fold) -> Result<(), NoMemory>
    ensures { OnOk result (sums.new ≡ spec.add_cell sums.old place fold.now.version fold.now.delta) }
{
    match sums.get(place, fold.version) {
        None => Ok(()),
        Some(sum) => {
            let sum = sum.checked_add(i128::from(fold.delta)).ok_or(NoMemory)?;
            sums.put(place, fold.version, sum);
            Ok(())
        }
    }
}

fn add_up_all(places: Places, sums: &mut Table<i128>) -> Result<(), NoMemory>
    ensures { OnOk result (spec.AddsUpAll places sums.old sums.new) }
{
    for place in 0..places.counters() {
        add_up(place, sums)?;
    }
    Ok(())
}

// Adds to each version of a counter those before it.
fn add_up(place: usize, sums: &mut Table<i128>) -> Result<(), NoMemory>
    ensures { OnOk result (spec.AddsUp place sums.old sums.new) }
{
    for version in 1..sums.row(place).len() as u64 {
        add_before(place, version, sums)?;
    }
    Ok(())
}

// Adds to a version the one before it.
fn add_before(place: usize, version: u64, sums: &mut Table<i128>) -> Result<(), NoMemory>
    requires { 1 ≤ version }
    ensures { OnOk result (sums.new ≡ spec.with_before place version sums.old) }
{
    match sums.get(place, version - 1) {
        None => Ok(()),
        Some(before) => add_at(sums, place, version, before),
    }
}

fn add_at(sums: &mut Table<i128>, place: usize, version: u64, more: i128) -> Result<(), NoMemory>
    ensures { OnOk result (sums.new ≡ spec.add_cell sums.old place version more) }
{
    match sums.get(place, version) {
        None => Ok(()),
        Some(sum) => {
            let sum = sum.checked_add(more).ok_or(NoMemory)?;
            sums.put(place, version, sum);
            Ok(())
        }
    }
}
