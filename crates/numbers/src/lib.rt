// A packet as numbers and, beside them, rssi and snr, for callers from C, where no enum can stand. specs/Numbers.antt has their order.
// Which of them count goes by the kind and the content; what does not is 0 where a packet is read, and where one is
// written it is only asked whether it is too wide.
#![tactic(auto)]

ghost use Rattle.std.specs.Prelude.{◌≡◌};
ghost use Rattle.numbers.specs.Numbers.{bit};

mod back;
mod read;
mod write;

pub use back::{
    mesh_of, put_mic, put_place, strange_content, to_type, to_u8, to_u16, to_u32, too_wide,
};
pub use read::{read_bare, read_mesh_numbers, read_numbers};
pub use write::write_numbers;

// A packet's numbers.
pub type PacketNumbers = [u64; 17];

// The codes that no type of the crates below has.
#[derive(Clone, Copy)]
pub struct Code;

impl Code {
    // A kind: a LoRa frame. The others are those of `PayloadType`.
    pub const LORA: u8 = 4;

    // What a content is: nothing, sealed, open in the frame or in the work buffer, or items of the lent lists.
    pub const EMPTY: u8 = 0;

    pub const SEALED: u8 = 1;

    pub const OPEN_IN_FRAME: u8 = 2;

    pub const OPEN_IN_WORK: u8 = 3;

    pub const ITEMS: u8 = 4;
}

pub fn from_bool(x: bool) -> u64
    ensures { result ≡ bit x }
{
    if x {
        return 1;
    }
    0
}
