// Whole frames: a mesh frame, which is header byte, body and MIC, and any frame, mesh or LoRa.
#![tactic(auto)]

mod any;
mod mesh;

pub use any::{Packet, PacketRead};
pub use mesh::{MeshPacket, MeshRead, Payload};
