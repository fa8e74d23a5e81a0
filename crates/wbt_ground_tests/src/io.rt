//! What the outside gives, takes and says.

mod bytes;
mod clocks;
mod disks;
mod gates;
mod racks;
