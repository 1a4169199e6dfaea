// The record by which a packet is known again. The relay id is its four bytes as one number, so that all four are compared at once.
ghost use Rattle.std.specs.Prelude.{◌≡◌};
ghost use Rattle.cache.specs.Cache.{rec, record_of, same_record, type_by_code, pack_of, unpack_of};

use fields::PayloadType;
use packets::{MeshPacket, Payload};

#[derive(Clone, Copy)]
pub struct PayloadCache {
    pub p_type: PayloadType,
    pub uplink_id: u16,
    pub timestamp: u32,
    pub relay_id: u32,
}

// Of an uplink or a downlink: known by its id.
fn numbered(p_type: PayloadType, uplink_id: u16, relay_id: u32) -> PayloadCache
    ensures { result ≡ rec p_type uplink_id 0 relay_id }
{
    PayloadCache {
        p_type,
        uplink_id,
        timestamp: 0,
        relay_id,
    }
}

// Of an event or a command: known by its time.
fn stamped(p_type: PayloadType, timestamp: u32, relay_id: u32) -> PayloadCache
    ensures { result ≡ rec p_type 0 timestamp relay_id }
{
    PayloadCache {
        p_type,
        uplink_id: 0,
        timestamp,
        relay_id,
    }
}

fn type_by_code(code: u8) -> PayloadType
    ensures { result ≡ type_by_code code }
{
    match code {
        PayloadType::UPLINK => PayloadType::Uplink,
        PayloadType::DOWNLINK => PayloadType::Downlink,
        PayloadType::EVENT => PayloadType::Event,
        _ => PayloadType::Command,
    }
}

impl PayloadCache {
    // The type is the header's, the rest goes by the payload's kind.
    #[tactic(auto, unfolding(crate::specs::Cache::record_of))]
    pub fn from_packet(p: MeshPacket) -> PayloadCache
        ensures { result ≡ record_of p }
    {
        let mhdr = p.mhdr;
        let p_type = mhdr.payload_type;
        let payload = p.payload;
        match payload {
            Payload::Uplink(v) => numbered(p_type, v.metadata.uplink_id, v.relay_id),
            Payload::Downlink(v) => numbered(p_type, v.metadata.uplink_id, v.relay_id),
            Payload::Event(v) => stamped(p_type, v.timestamp, v.relay_id),
            Payload::Command(v) => stamped(p_type, v.timestamp, v.relay_id),
        }
    }

    #[tactic(auto, unfolding(crate::specs::Cache::same_record))]
    pub fn same(self, other: PayloadCache) -> bool
        ensures { result ≡ same_record self other }
    {
        let a = self.p_type;
        let b = other.p_type;
        (a.to_byte() == b.to_byte())
            & (self.uplink_id == other.uplink_id)
            & (self.timestamp == other.timestamp)
            & (self.relay_id == other.relay_id)
    }

    // The record as words, for a cache that lies in words: type and uplink id share the first. Every word has a meaning back, so that the way back
    // is no inverse, as `From` would have it read.
    #[tactic(auto, unfolding(crate::specs::Cache::pack_of))]
    pub fn pack(self) -> [u32; 3]
        ensures { result ≡ pack_of self }
    {
        let p_type = self.p_type;
        let code = p_type.to_byte();
        [
            code as u32 * 65536 + self.uplink_id as u32,
            self.timestamp,
            self.relay_id,
        ]
    }

    #[tactic(auto, unfolding(crate::specs::Cache::unpack_of))]
    pub fn unpack(w: [u32; 3]) -> PayloadCache
        ensures { result ≡ unpack_of w }
    {
        let p_type = type_by_code((w[0] / 65536 % 4) as u8);
        PayloadCache {
            p_type,
            uplink_id: (w[0] % 65536) as u16,
            timestamp: w[1],
            relay_id: w[2],
        }
    }
}

// As the Rust has it.
impl From<MeshPacket> for PayloadCache {
    ghost from_gives = { λ p r. r ≡ record_of p };

    fn from(p: MeshPacket) -> PayloadCache {
        PayloadCache::from_packet(p)
    }
}
