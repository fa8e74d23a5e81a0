//! Marks of inodes.

ghost use Rattle.std.specs.Prelude.{◌≡◌, ◌<◌, IsTrue, IfSome, length};
ghost use Rattle.wbt_book.specs.Ledger.{times_in};
ghost use Rattle.wbt_table.specs.Layout.{setting};
ghost use Rattle.wbt_table.specs.Rule.{Holds};
ghost use Rattle.wbt_table.specs.Callers.{StepsFor};

use wbt_io::FreeGate;
use wbt_table::{Claim, CpuSeat, Throttle};

// Whether there is such an inode.
fn has_inode(throttle: &Throttle, inode: u32) -> bool
    ensures { IsTrue result → inode < length throttle.now.layout.inodes }
{
    (inode as usize) < throttle.layout().inodes.as_slice().len()
}

/// Marks an inode: whether its mark was clear. The CPU then owes it no mark. None where there is no such inode.
pub fn mark(throttle: &Throttle, seat: &mut CpuSeat, cpu: u32, inode: u32) -> Option<bool>
    requires { StepsFor throttle.now cpu seat.old }
    ensures seat { StepsFor throttle.now cpu seat.new }
    ensures paid { IfSome result (λ _. Holds seat.new.cpus cpu (λ r. times_in inode r.owed_marks ≡ 0)) }
{
    if !has_inode(throttle, inode) {
        return None;
    }
    Some(throttle.mark_inode(seat, cpu, inode))
}

/// Clears the mark of an inode. False where there is no such inode.
pub fn clear(throttle: &Throttle, seat: &mut CpuSeat, cpu: u32, inode: u32) -> bool
    requires { StepsFor throttle.now cpu seat.old }
    ensures { StepsFor throttle.now cpu seat.new }
{
    if !has_inode(throttle, inode) {
        return false;
    }
    throttle.clear_inode(seat, cpu, inode);
    true
}

/// Claims a page. Whether it was found with both bits: then the CPU owes its inode the mark.
pub fn passes_with_both_bits(throttle: &Throttle, seat: &mut CpuSeat, cpu: u32, page: u32) -> bool
    requires seat { StepsFor throttle.now cpu seat.old }
    requires page { page < (setting throttle.now.layout).pages }
    ensures seat { StepsFor throttle.now cpu seat.new }
    ensures owed { IsTrue result → Holds seat.new.cpus cpu (λ r. 0 < times_in ((setting throttle.now.layout).inode page) r.owed_marks) }
{
    match throttle.claim(seat, cpu, page, &FreeGate) {
        Claim::NotDirty { word } => word == 3,
        _ => false,
    }
}
