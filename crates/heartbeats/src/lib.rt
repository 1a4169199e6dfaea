// The value of a heartbeat, which is a path of entries: read into and written from a lent list of records, read one entry at a time, or
// written from lists of numbers.
#![tactic(auto)]

mod heartbeat;
mod path;

pub use heartbeat::{HeartbeatPayload, HeartbeatRead, PathRead};
pub use path::{Paths, held};
