// Sealing and opening, with the key stream of `key_stream`: contents, events, commands and mesh packets. Reading and writing, which need no cipher,
// stand below.
#![tactic(auto)]

pub mod command;
pub mod content;
pub mod event;
pub mod mesh;

pub use command::CommandOpened;
pub use content::Opened;
pub use event::EventOpened;
pub use mesh::MeshOpened;
