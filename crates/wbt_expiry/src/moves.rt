//! Lists of pairs filed anew.

ghost use Rattle.std.specs.Prelude.{◌≡◌, ◌≢◌, ◌<◌, ℕ, length, Some, None};
ghost use Rattle.wbt_expiry.specs.Lists.{home, no_list, due_of};
ghost use Rattle.wbt_expiry.specs.Filed.{new_home, AreMoved, AreLoose};

use crate::lists::Lists;
use crate::slots::{LOOSE, slot_of};

/// Files the pairs of a list anew from a base, or puts them into the loose list where there is none.
pub fn move_list(lists: &mut Lists, dues: &[u64], list: u32, base: Option<u64>)
    requires list { list < no_list }
    requires dues { length dues.now ≡ length lists.old }
    requires apart { (inode : ℕ) → home lists.old inode ≡ list → new_home base (due_of dues.now inode) ≢ list }
    ensures moved { AreMoved dues.now base list lists.old lists.new }
{
    'pairs: while let Some(inode) = lists.pop(list) {
        let home = new_home(base, dues[inode as usize]);
        lists.push(home, inode);
    }
}

/// Makes all pairs loose.
pub fn loosen_all(lists: &mut Lists, dues: &[u64])
    requires { length dues.now ≡ length lists.old }
    ensures { AreLoose lists.old lists.new }
{
    'lists: for list in 0..LOOSE {
        move_list(lists, dues, list, None);
    }
}

// The list that a pair goes to.
fn new_home(base: Option<u64>, due: u64) -> u32
    ensures { result ≡ new_home base due }
{
    match base {
        Some(base) => slot_of(base, due),
        None => LOOSE,
    }
}
