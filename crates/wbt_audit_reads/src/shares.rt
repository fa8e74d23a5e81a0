//! What was added for each context in each domain.

ghost use Rattle.std.specs.Prelude.{◌≡◌, IfOk, OnOk, option_map, replicate};
ghost use Rattle.wbt_journal.specs.Items.{all_told};
ghost use Rattle.wbt_audit_walk.specs.Acts.{added_of};
ghost use Rattle.wbt_audit_reads.specs.Sharing as spec;

use std::alloc::Global;
use wbt_audit_walk::act::{Act, Added};
use wbt_audit_walk::places::Places;
use wbt_audit_walk::walk::Walk;
use wbt_journal::Journal;
use wbt_num::NoMemory;

/// How many pages a whole journal adds for each context in each domain, by the place of the pair. A sum past
/// 2^128, which takes 2^64 lines, for which there is no memory anyway, is refused as memory is.
pub fn added_by(alloc: Global, places: Places, journal: &Journal) -> Result<Vec<u128>, NoMemory>
    ensures { IfOk result (λ sums. spec.AreAdded places (all_told journal.now) sums.items) }
{
    let mut sums = wide_zeros(alloc, places.pairs())?;
    let mut walk = Walk::start(journal)?;
    'steps: while let Some(step) = walk.next()? {
        add_act(places, step.act, &mut sums)?;
    }
    Ok(sums)
}

fn add_act(places: Places, act: Option<Act>, sums: &mut Vec<u128>) -> Result<(), NoMemory>
    ensures { OnOk result (spec.AddsAct places act.entry sums.old.items sums.new.items) }
{
    match act {
        None => Ok(()),
        Some(act) => add_share(places, act.share(), sums),
    }
}

fn add_share(places: Places, share: Option<Added>, sums: &mut Vec<u128>) -> Result<(), NoMemory>
    ensures { OnOk result (sums.new.items ≡ spec.with_share places (option_map added_of share) sums.old.items) }
{
    match share {
        None => Ok(()),
        Some(share) => add_to(places.pair(share.domain, share.context), share.n, sums),
    }
}

fn add_to(place: Option<usize>, n: u64, sums: &mut Vec<u128>) -> Result<(), NoMemory>
    ensures { OnOk result (sums.new.items ≡ spec.added_at place n sums.old.items) }
{
    match place {
        None => Ok(()),
        Some(place) => add(place, n, sums),
    }
}

fn add(place: usize, n: u64, sums: &mut Vec<u128>) -> Result<(), NoMemory>
    ensures { OnOk result (sums.new.items ≡ spec.one_added place n sums.old.items) }
{
    if place < sums.len() {
        let sum = sums[place].checked_add(u128::from(n)).ok_or(NoMemory)?;
        sums[place] = sum;
    }
    Ok(())
}

fn wide_zeros(alloc: Global, places: usize) -> Result<Vec<u128>, NoMemory>
    ensures { IfOk result (λ zeros. zeros.items ≡ replicate places 0) }
{
    let zeros = vec![in alloc; 0u128; places]?;
    Ok(zeros)
}
