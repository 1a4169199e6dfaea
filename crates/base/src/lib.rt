// What every layer shares: the refusal numbers and the limits, each named here and nowhere else, and what a call into a
// lent buffer answers.
#![tactic(auto)]

ghost use Rattle.std.specs.Prelude.{◌≡◌, min};

// The refusal numbers, section 3 of docs/RULES.md. A refusal is passed up unchanged.
#[derive(Clone, Copy)]
pub struct Refusal;

impl Refusal {
    pub const FRAME_EMPTY: u8 = 1;

    pub const FRAME_SHORT: u8 = 2;

    pub const NOT_MESH: u8 = 3;

    pub const BODY_SHORT: u8 = 4;

    pub const FRAME_LONG: u8 = 5;

    pub const HOPS_NONE: u8 = 6;

    pub const HOPS_MANY: u8 = 7;

    pub const UPLINK_ID_LARGE: u8 = 8;

    pub const DR_LARGE: u8 = 9;

    pub const RSSI_LARGE: u8 = 10;

    pub const RSSI_SMALL: u8 = 11;

    pub const SNR_SMALL: u8 = 12;

    pub const SNR_LARGE: u8 = 13;

    pub const DELAY_NONE: u8 = 14;

    pub const TX_POWER_LARGE: u8 = 15;

    pub const DELAY_LARGE: u8 = 16;

    pub const FREQUENCY_LARGE: u8 = 17;

    pub const FREQUENCY_STEP: u8 = 18;

    pub const ITEM_LONG: u8 = 19;

    pub const HEARTBEAT_LENGTH: u8 = 20;

    pub const OUTPUT_SHORT: u8 = 21;

    pub const OPEN_MANY: u8 = 22;

    pub const OPEN_ONE: u8 = 23;

    pub const CACHE_SIZE: u8 = 24;

    pub const KEY_LENGTH: u8 = 25;

    pub const KEY_DIGIT: u8 = 26;

    pub const MIC_MISSING: u8 = 27;

    pub const FREQUENCY_LENGTH: u8 = 28;

    pub const TYPE_LARGE: u8 = 29;

    pub const LINE_DIGITS: u8 = 30;

    pub const FREQUENCY_OTHER: u8 = 38;

    pub const OUTSIDE: u8 = 45;
}

// The limits of the domain, in bytes, entries and records.
#[derive(Clone, Copy)]
pub struct Limit;

impl Limit {
    pub const FRAME: usize = 8192;
    // A frame but for its header byte and MIC.
    pub const BODY: usize = 8187;
    // An event's or a command's body but for its timestamp and relay id.
    pub const PAYLOAD: usize = 8179;

    pub const ITEM: usize = 255;

    pub const PATH: usize = 42;
    // The bytes of one entry of a path.
    pub const ENTRY: usize = 6;

    pub const CACHE_LEAST: usize = 1;

    pub const CACHE: usize = 64;
}

// What a writer into a lent buffer answers: how many bytes it wrote, or the refusal's number.
#[derive(Clone, Copy)]
pub enum Written {
    Bytes(usize),
    Refused(u8),
}

// What a call answers that accepts or refuses, where the value, if any, stands beside the answer.
#[derive(Clone, Copy)]
pub enum Checked {
    Accepted,
    Refused(u8),
}

// A byte as a size. A slice's element that is cast leaves a fact to prove; one that is passed here leaves none.
pub fn wide(b: u8) -> usize
    ensures { result ≡ b }
{
    b as usize
}

// The smaller of two sizes.
pub fn least(a: usize, b: usize) -> usize
    ensures { result ≡ min a b }
{
    if a <= b { a } else { b }
}
