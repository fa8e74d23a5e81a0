//! What is left in a closed throttle.

ghost use Rattle.std.specs.Prelude.{◌≡◌, ◌≤◌, IfOk, OnOk};
ghost use Rattle.wbt_table.specs.Layout.{setting};
ghost use Rattle.wbt_run_laws.specs.Throttle.{left_from, with_left};
ghost use Rattle.wbt_run_seats.specs.Left.{book_of};

use std::alloc::Global;
use wbt_io::NoMemory;
use wbt_journal::Left;
use wbt_num::Items;
use wbt_table::Census;

/// The pages that are dirty or under writeback, in order, of the first so many.
pub fn left_in(alloc: Global, census: &Census, pages: u32) -> Result<Items<Left>, NoMemory>
    requires pages { pages ≤ (setting census.now.layout).pages }
    ensures { IfOk result (λ left. left ≡ left_from (book_of census.now) 0 pages) }
{
    let mut left = Items::new(alloc);
    for page in 0..pages {
        let word = census.page(page);
        if word != 0 {
            left.push(Left { page, word })?;
        }
    }
    Ok(left)
}
