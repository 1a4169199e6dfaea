// The packet that numbers stand for, and what signing, sealing and opening change of them.
ghost use Rattle.std.specs.Prelude.{◌≡◌};
ghost use Rattle.fields.specs.Header.{type_read};
ghost use Rattle.numbers.specs.Numbers.{payload_place, at_most, too_wide, strange_content, run_from, content_from, uplink_from, downlink_from, payload_from, mesh_from, packet_from, mic_set, place_set};

use crate::read::content_place;
use crate::{Code, PacketNumbers};
use base::Refusal;
use contents::{Content, Held};
use events::{CommandPayload, EventPayload};
use fields::{
    Channel, DownlinkMetadata, MHDR, Mic, PayloadType, RelayId, Timestamp, TypeRead, UplinkMetadata,
};
use links::{DownlinkPayload, UplinkPayload};
use packets::{MeshPacket, MeshRead, Packet, PacketRead, Payload};
use wire::Run;

// ---- a number as a field holds it: one that is wider counts as the largest, and is never cut to its low bits

pub fn to_u8(n: u64) -> u8
    ensures { result ≡ at_most 255 n }
{
    if 255 < n {
        return 255;
    }
    n as u8
}

pub fn to_u16(n: u64) -> u16
    ensures { result ≡ at_most 65535 n }
{
    if 65535 < n {
        return 65535;
    }
    n as u16
}

pub fn to_u32(n: u64) -> u32
    ensures { result ≡ at_most 4294967295 n }
{
    if 4294967295 < n {
        return 4294967295;
    }
    n as u32
}

pub fn to_type(n: u64) -> TypeRead
    ensures { result ≡ type_read n }
{
    PayloadType::from_byte(to_u8(n))
}

// ---- what no packet has, before all else

// A MIC, relay id, uplink id, channel or timestamp that is wider than its field.
pub fn too_wide(numbers: &PacketNumbers) -> bool
    ensures { result ≡ too_wide numbers.now }
{
    if (Mic::MOST as u64) < numbers[4] {
        return true;
    }
    if (RelayId::MOST as u64) < numbers[5] {
        return true;
    }
    if 65535 < numbers[6] {
        return true;
    }
    if (Channel::MOST as u64) < numbers[8] {
        return true;
    }
    (Timestamp::MOST as u64) < numbers[12]
}

// A content code of an event or a command that is none; of other kinds it does not count.
pub fn strange_content(numbers: &PacketNumbers) -> bool
    ensures { result ≡ strange_content numbers.now }
{
    if numbers[0] < PayloadType::EVENT as u64 {
        return false;
    }
    (Code::ITEMS as u64) < numbers[13]
}

// ---- the payload of each kind

fn run_of(numbers: &PacketNumbers) -> Run
    ensures { result ≡ run_from numbers.now }
{
    Run {
        start: numbers[14] as usize,
        len: numbers[15] as usize,
    }
}

fn content_of(numbers: &PacketNumbers) -> Content
    ensures { result ≡ content_from numbers.now }
{
    let run = run_of(numbers);
    let content = numbers[13];
    if content == Code::EMPTY as u64 {
        return Content::Empty;
    }
    if content == Code::SEALED as u64 {
        return Content::Sealed(run);
    }
    if content == Code::OPEN_IN_FRAME as u64 {
        return Content::Open {
            held: Held::Frame,
            run,
        };
    }
    if content == Code::OPEN_IN_WORK as u64 {
        return Content::Open {
            held: Held::Work,
            run,
        };
    }
    Content::Items(run.len)
}

pub(crate) fn uplink_of(numbers: &PacketNumbers, rssi: i16, snr: i8) -> UplinkPayload
    ensures { result ≡ uplink_from numbers.now rssi snr }
{
    UplinkPayload {
        metadata: UplinkMetadata {
            uplink_id: to_u16(numbers[6]),
            dr: to_u8(numbers[7]),
            rssi,
            snr,
            channel: to_u8(numbers[8]),
            odd: to_u8(numbers[16]),
        },
        relay_id: to_u32(numbers[5]),
        phy_payload: run_of(numbers),
    }
}

fn downlink_of(numbers: &PacketNumbers) -> DownlinkPayload
    ensures { result ≡ downlink_from numbers.now }
{
    DownlinkPayload {
        metadata: DownlinkMetadata {
            uplink_id: to_u16(numbers[6]),
            dr: to_u8(numbers[7]),
            frequency: to_u32(numbers[9]),
            tx_power: to_u8(numbers[10]),
            delay: to_u8(numbers[11]),
        },
        relay_id: to_u32(numbers[5]),
        phy_payload: run_of(numbers),
    }
}

fn payload_of(kind: PayloadType, numbers: &PacketNumbers, rssi: i16, snr: i8) -> Payload
    ensures { result ≡ payload_from numbers.now rssi snr kind }
{
    match kind {
        PayloadType::Uplink => Payload::Uplink(uplink_of(numbers, rssi, snr)),
        PayloadType::Downlink => Payload::Downlink(downlink_of(numbers)),
        PayloadType::Event => Payload::Event(EventPayload {
            timestamp: to_u32(numbers[12]),
            relay_id: to_u32(numbers[5]),
            events: content_of(numbers),
        }),
        PayloadType::Command => Payload::Command(CommandPayload {
            timestamp: to_u32(numbers[12]),
            relay_id: to_u32(numbers[5]),
            commands: content_of(numbers),
        }),
    }
}

// ---- the packet

// 29 where a number is too wide, the kind or the header's type is over 3, or the content of an event or a command is none.
pub fn mesh_of(numbers: &PacketNumbers, rssi: i16, snr: i8) -> MeshRead
    ensures { result ≡ mesh_from numbers.now rssi snr }
{
    if too_wide(numbers) {
        return MeshRead::Refused(Refusal::TYPE_LARGE);
    }
    if strange_content(numbers) {
        return MeshRead::Refused(Refusal::TYPE_LARGE);
    }
    match to_type(numbers[0]) {
        TypeRead::Refused(n) => MeshRead::Refused(n),
        TypeRead::Kind(kind) => match to_type(numbers[1]) {
            TypeRead::Refused(n) => MeshRead::Refused(n),
            TypeRead::Kind(payload_type) => MeshRead::Mesh(MeshPacket {
                mhdr: MHDR {
                    payload_type,
                    hop_count: to_u8(numbers[2]),
                },
                payload: payload_of(kind, numbers, rssi, snr),
                has_mic: numbers[3] != 0,
                mic: to_u32(numbers[4]),
            }),
        },
    }
}

// 29 where a number is too wide or the kind is over 4, and as `mesh_of` of a mesh packet.
pub(crate) fn packet_of(numbers: &PacketNumbers, rssi: i16, snr: i8) -> PacketRead
    ensures { result ≡ packet_from numbers.now rssi snr }
{
    if too_wide(numbers) {
        return PacketRead::Refused(Refusal::TYPE_LARGE);
    }
    if numbers[0] == Code::LORA as u64 {
        return PacketRead::Packet(Packet::Lora(run_of(numbers)));
    }
    match mesh_of(numbers, rssi, snr) {
        MeshRead::Refused(n) => PacketRead::Refused(n),
        MeshRead::Mesh(p) => PacketRead::Packet(Packet::Mesh(p)),
    }
}

// ---- in place: has_mic and mic, and content, start and len; the others stay as they are

pub fn put_mic(mic: u32, numbers: &mut PacketNumbers)
    ensures { numbers.new ≡ mic_set numbers.old mic }
{
    numbers[3] = 1;
    numbers[4] = mic as u64;
}

fn place_of(payload: Payload) -> [u64; 3]
    ensures { result ≡ payload_place payload }
{
    match payload {
        Payload::Uplink(u) => {
            let run = u.phy_payload;
            [0, run.start as u64, run.len as u64]
        }
        Payload::Downlink(u) => {
            let run = u.phy_payload;
            [0, run.start as u64, run.len as u64]
        }
        Payload::Event(u) => {
            let b = u.events;
            content_place(b)
        }
        Payload::Command(u) => {
            let b = u.commands;
            content_place(b)
        }
    }
}

pub fn put_place(payload: Payload, numbers: &mut PacketNumbers)
    ensures { numbers.new ≡ place_set numbers.old (payload_place payload) }
{
    let place = place_of(payload);
    numbers[13] = place[0];
    numbers[14] = place[1];
    numbers[15] = place[2];
}
