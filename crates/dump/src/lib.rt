// A packet, and a received frame, as a line of text, and the text of a line of hex over it. No newline is in any.
#![tactic(auto)]

mod digits;
mod frame;
mod line;

pub use frame::{dump_frame, write_text};
pub use line::dump_line;
