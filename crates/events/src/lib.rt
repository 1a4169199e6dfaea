// Event and command bodies: read from the part of the frame between header byte and MIC, and written into a lent buffer.
#![tactic(auto)]

mod stamped;

pub use stamped::{CommandPayload, CommandRead, EventPayload, EventRead};
