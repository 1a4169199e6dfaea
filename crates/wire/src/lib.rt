// What lies in a slice: big-endian numbers, a part at a place and length, bytes laid into a lent buffer, and hex text.
#![tactic(auto)]

mod hex;
mod lay;
mod number;
mod parts;
mod run;

pub use hex::{digit, is_hex, nibble, read_hex, write_hex};
pub use lay::{emit, put_all};
pub use number::{be16_bytes, be16_of, be24_bytes, be24_of, be32_bytes, be32_of};
pub use parts::{Reach, part, reaches};
pub use run::Run;
