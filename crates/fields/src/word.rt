// The fields that are four whole bytes, each one number: of their bytes none is refused, so the limits are what four bytes hold.
ghost use Rattle.std.specs.Prelude.{◌≡◌, [], ◌∷◌};
ghost use Rattle.fields.specs.Limits.{relay_id_least, relay_id_most, timestamp_least, timestamp_most, mic_least, mic_most};

#[derive(Clone, Copy)]
pub struct RelayId;

impl RelayId {
    pub const LEAST: u32 = 0;

    pub const MOST: u32 = 4294967295;

    pub fn limits() -> [u32; 2]
        ensures { result ≡ relay_id_least ∷ relay_id_most ∷ [] }
    {
        [RelayId::LEAST, RelayId::MOST]
    }
}

// Seconds.
#[derive(Clone, Copy)]
pub struct Timestamp;

impl Timestamp {
    pub const LEAST: u32 = 0;

    pub const MOST: u32 = 4294967295;

    pub fn limits() -> [u32; 2]
        ensures { result ≡ timestamp_least ∷ timestamp_most ∷ [] }
    {
        [Timestamp::LEAST, Timestamp::MOST]
    }
}

#[derive(Clone, Copy)]
pub struct Mic;

impl Mic {
    pub const LEAST: u32 = 0;

    pub const MOST: u32 = 4294967295;

    pub fn limits() -> [u32; 2]
        ensures { result ≡ mic_least ∷ mic_most ∷ [] }
    {
        [Mic::LEAST, Mic::MOST]
    }
}
