// The header byte: 111, two bits of type, three bits of hop count minus 1.
ghost use Rattle.std.specs.Prelude.{◌≡◌, [], ◌∷◌};
ghost use Rattle.fields.specs.Header.{type_read, code_of, type_least, type_most, header_of, header_byte};

use base::Refusal;

#[derive(Clone, Copy)]
pub enum PayloadType {
    Uplink,
    Downlink,
    Event,
    Command,
}

#[derive(Clone, Copy)]
pub enum TypeRead {
    Kind(PayloadType),
    Refused(u8),
}

impl PayloadType {
    pub const UPLINK: u8 = 0;

    pub const DOWNLINK: u8 = 1;

    pub const EVENT: u8 = 2;

    pub const COMMAND: u8 = 3;

    pub const LEAST: u8 = PayloadType::UPLINK;

    pub const MOST: u8 = PayloadType::COMMAND;

    pub fn limits() -> [u8; 2]
        ensures { result ≡ type_least ∷ type_most ∷ [] }
    {
        [PayloadType::LEAST, PayloadType::MOST]
    }

    pub fn from_byte(b: u8) -> TypeRead
        ensures { result ≡ type_read b }
    {
        match b {
            PayloadType::UPLINK => TypeRead::Kind(PayloadType::Uplink),
            PayloadType::DOWNLINK => TypeRead::Kind(PayloadType::Downlink),
            PayloadType::EVENT => TypeRead::Kind(PayloadType::Event),
            PayloadType::COMMAND => TypeRead::Kind(PayloadType::Command),
            _ => TypeRead::Refused(Refusal::TYPE_LARGE),
        }
    }

    pub fn to_byte(self) -> u8
        ensures { result ≡ code_of self }
    {
        match self {
            PayloadType::Uplink => PayloadType::UPLINK,
            PayloadType::Downlink => PayloadType::DOWNLINK,
            PayloadType::Event => PayloadType::EVENT,
            PayloadType::Command => PayloadType::COMMAND,
        }
    }
}

#[derive(Clone, Copy)]
pub struct HopCount;

impl HopCount {
    pub const LEAST: u8 = 1;

    pub const MOST: u8 = 8;
}

#[derive(Clone, Copy)]
pub struct MHDR {
    pub payload_type: PayloadType,
    pub hop_count: u8,
}

#[derive(Clone, Copy)]
pub enum HeaderRead {
    Header(MHDR),
    Refused(u8),
}

#[derive(Clone, Copy)]
pub enum HeaderByte {
    Byte(u8),
    Refused(u8),
}

impl MHDR {
    // The top three bits of every mesh frame, 111, as a number and in their place.
    pub const MARK: u8 = 7;

    pub const MARK_BITS: u8 = 224;

    pub fn from_byte(b: u8) -> HeaderRead
        ensures { result ≡ header_of b }
    {
        if b / 32 != MHDR::MARK {
            return HeaderRead::Refused(Refusal::NOT_MESH);
        }
        match PayloadType::from_byte(b / 8 % 4) {
            TypeRead::Refused(n) => HeaderRead::Refused(n),
            TypeRead::Kind(payload_type) => HeaderRead::Header(MHDR {
                payload_type,
                hop_count: b % 8 + 1,
            }),
        }
    }

    pub fn to_byte(self) -> HeaderByte
        ensures { result ≡ header_byte self }
    {
        let hops = self.hop_count;
        if hops < HopCount::LEAST {
            return HeaderByte::Refused(Refusal::HOPS_NONE);
        }
        if HopCount::MOST < hops {
            return HeaderByte::Refused(Refusal::HOPS_MANY);
        }
        let payload_type = self.payload_type;
        HeaderByte::Byte(MHDR::MARK_BITS + payload_type.to_byte() * 8 + (hops - 1))
    }
}
