// What follows the relay id of an event or a command: nothing, one sealed run, or open items.
#![tactic(auto)]

mod content;
mod lent;
mod write;

pub use content::{Content, Held, held_in};
pub use lent::Lent;
