// Uplink and downlink bodies, and what every body is written by: read from the part of the frame between header byte and MIC, and written into a lent buffer.
#![tactic(auto)]

mod downlink;
mod emit;
mod uplink;

pub use downlink::{DownlinkPayload, DownlinkRead};
pub use emit::{write_body, write_frame};
pub use uplink::{UplinkPayload, UplinkRead};
