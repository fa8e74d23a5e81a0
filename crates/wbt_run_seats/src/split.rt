//! The seats of a kit in parts, one for each CPU.

ghost use Rattle.std.specs.Prelude.{◌≡◌, ℕ, ◌<◌, ◌≤◌, length, get_or, IfOk, IfErr};
ghost use Rattle.wbt_fraction.specs.Several.{CanSplit};
ghost use Rattle.wbt_grant.specs.declared.record.CpuRecord.{CpuRecord};
ghost use Rattle.wbt_kit.specs.Kit.{AreSeatsOf, HasOwners, HasCpu};
ghost use Rattle.wbt_kit.specs.declared.kit.Seats.{Seats as Parts};
ghost use Rattle.wbt_run_seats.specs.Parts.{rest_of, parts_of, AreParts, IsLeft, AreBack};

use std::alloc::Global;
use std::sync::Wait;
use wbt_io::NoMemory;
use wbt_kit::{Kit, Seats};

/// Moves each of so many CPUs, from 0 on, to seats of its own: their part at the CPU's number has its record, one stake and 2^33
/// of each room, and publishes for the contexts that the CPU owns. What is left in `seats` has the timer, the notes, and all other
/// stakes and rooms. Where memory is refused all are joined again, and the seats are as they were.
pub fn split_each<R: Wait>(
    rt: &R,
    alloc: Global,
    kit: &Kit,
    seats: &mut Seats,
    cpus: u32,
) -> Result<Vec<Seats>, NoMemory>
    requires owners { HasOwners kit.now }
    requires seats { AreSeatsOf kit.now seats.old }
    requires cpus { cpus ≤ kit.now.throttle.layout.cpus }
    requires held { (cpu : ℕ) → cpu < cpus → (r : CpuRecord) × HasCpu cpu r seats.old }
    requires room { CanSplit cpus kit.now.shares seats.old.share }
    ensures parts { IfOk result (λ parts. AreParts kit.now cpus seats.old parts.items) }
    ensures left { IfOk result (λ _. IsLeft kit.now cpus seats.old seats.new) }
    ensures refused { IfErr result (λ _. AreBack seats.old seats.new) }
{
    let mut parts = Vec::with_capacity(alloc, cpus as usize)?;
    for cpu in 0..cpus {
        match kit.split(rt, alloc, seats, cpu) {
            Ok(part) => parts.push_reserved(part),
            Err(_) => {
                take_back(rt, kit, seats, parts);
                return Err(NoMemory);
            }
        }
    }
    Ok(parts)
}

// Joins parts again, the last one first.
fn take_back<R: Wait>(rt: &R, kit: &Kit, seats: &mut Seats, mut parts: Vec<Seats>)
    requires owners { HasOwners kit.now }
    requires seats { AreSeatsOf kit.now seats.old }
    requires parts { (k : ℕ) (other : Parts) → k < length parts.items → AreSeatsOf kit.now (get_or parts.items k other) }
    ensures back { (first : Parts) → AreSeatsOf kit.now first → CanSplit (length parts.items) kit.now.shares first.share → seats.old ≡ rest_of kit.now (length parts.items) first → parts.items ≡ parts_of kit.now (length parts.items) first → AreBack first seats.new }
{
    while let Some(part) = parts.pop() {
        kit.join(rt, seats, part);
    }
}
