//! What came of a call.

use wbt_top_plain::Status;

/// What came of a call.
#[derive(Drop)]
pub struct Outcome {
    /// How the call ended.
    pub status: Status,
    /// The bytes that its sink holds.
    pub held: Vec<u8>,
}
