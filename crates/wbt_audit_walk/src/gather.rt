//! What is gathered of a whole journal before its lines are judged.

ghost use Rattle.std.specs.Prelude.{◌≡◌, ◌++◌, OnOk, IfOk, flat_map};
ghost use Rattle.wbt_journal.specs.Counts.{fold_in, folds_in};
ghost use Rattle.wbt_journal.specs.Items.{all_told};
ghost use Rattle.wbt_audit_walk.specs.Acts.{told_by};

use crate::act::Act;
use crate::walk::Walk;
use std::alloc::Global;
use wbt_counter::Fold;
use wbt_journal::Journal;
use wbt_num::NoMemory;

/// All folds, those of the first CPU first.
pub fn folds_of(alloc: Global, journal: &Journal) -> Result<Vec<Fold>, NoMemory>
    ensures { IfOk result (λ folds. folds.items ≡ folds_in (all_told journal.now)) }
{
    let mut folds = Vec::new(alloc);
    let mut walk = Walk::start(journal)?;
    'steps: while let Some(step) = walk.next()? {
        push_fold(&mut folds, step.act)?;
    }
    Ok(folds)
}

fn push_fold(folds: &mut Vec<Fold>, act: Option<Act>) -> Result<(), NoMemory>
    ensures { OnOk result (folds.new.items ≡ folds.old.items ++ flat_map fold_in (told_by act.entry)) }
{
    match act {
        None => Ok(()),
        Some(act) => {
            if let Some(fold) = act.fold() {
                folds.push(fold)?;
            }
            Ok(())
        }
    }
}
