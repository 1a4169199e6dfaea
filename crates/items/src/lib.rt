// The items of a payload, which is what an event or a command says: tag, length, value, one after the other.
#![tactic(auto)]

mod count;
mod item;

pub use count::{Opening, OpeningRead, count_items};
pub use item::{Command, Event, Item, ItemKind, ItemRead, Items, is_beat, next_item};
