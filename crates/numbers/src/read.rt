// A frame read straight into numbers: no packet stands between the bytes and what is stored.
ghost use Rattle.std.specs.Prelude.{◌≡◌};
ghost use Rattle.base.specs.Answers.{number_in, left_by};
ghost use Rattle.fields.specs.Header.{type_read};
ghost use Rattle.packets.specs.Read.{packet_says, packet_of, mesh_says, mesh_of};
ghost use Rattle.packets.specs.declared.mesh.Payload.TheVariants.{Uplink, Downlink};
ghost use Rattle.numbers.specs.Numbers.{content_place, stamped_fields, listed, mesh_numbers, mesh_rssi, mesh_snr, numbers_in, rssi_in, snr_in, body_read, around, bare_by};

use crate::{Code, PacketNumbers, from_bool};
use base::{Limit, Refusal};
use contents::{Content, Held};
use events::{CommandPayload, CommandRead, EventPayload, EventRead};
use fields::{HeaderRead, MHDR, PayloadType, TypeRead};
use links::{DownlinkPayload, DownlinkRead, UplinkPayload, UplinkRead};
use packets::MeshPacket;
use wire::be32_of;

// ---- the numbers of each kind

fn uplink_numbers(mhdr: MHDR, has_mic: bool, mic: u32, u: UplinkPayload) -> PacketNumbers
    ensures { result ≡ mesh_numbers (record { mhdr = mhdr; payload = Uplink u; has_mic = has_mic; mic = mic }) }
{
    let t = mhdr.payload_type;
    let m = u.metadata;
    let run = u.phy_payload;
    [
        PayloadType::UPLINK as u64,
        t.to_byte() as u64,
        mhdr.hop_count as u64,
        from_bool(has_mic),
        mic as u64,
        u.relay_id as u64,
        m.uplink_id as u64,
        m.dr as u64,
        m.channel as u64,
        0,
        0,
        0,
        0,
        0,
        run.start as u64,
        run.len as u64,
        m.odd as u64,
    ]
}

fn downlink_numbers(mhdr: MHDR, has_mic: bool, mic: u32, u: DownlinkPayload) -> PacketNumbers
    ensures { result ≡ mesh_numbers (record { mhdr = mhdr; payload = Downlink u; has_mic = has_mic; mic = mic }) }
{
    let t = mhdr.payload_type;
    let m = u.metadata;
    let run = u.phy_payload;
    [
        PayloadType::DOWNLINK as u64,
        t.to_byte() as u64,
        mhdr.hop_count as u64,
        from_bool(has_mic),
        mic as u64,
        u.relay_id as u64,
        m.uplink_id as u64,
        m.dr as u64,
        0,
        m.frequency as u64,
        m.tx_power as u64,
        m.delay as u64,
        0,
        0,
        run.start as u64,
        run.len as u64,
        0,
    ]
}

// Content, start and len.
pub(crate) fn content_place(b: Content) -> [u64; 3]
    ensures { result ≡ content_place b }
{
    match b {
        Content::Empty => [Code::EMPTY as u64, 0, 0],
        Content::Sealed(run) => [Code::SEALED as u64, run.start as u64, run.len as u64],
        Content::Open { held, run } => match held {
            Held::Frame => [Code::OPEN_IN_FRAME as u64, run.start as u64, run.len as u64],
            Held::Work => [Code::OPEN_IN_WORK as u64, run.start as u64, run.len as u64],
        },
        Content::Items(n) => [Code::ITEMS as u64, 0, n as u64],
    }
}

// An event or a command.
fn stamped_numbers(
    kind: u8,
    mhdr: MHDR,
    has_mic: bool,
    mic: u32,
    timestamp: u32,
    relay_id: u32,
    b: Content,
) -> PacketNumbers
    ensures { result ≡ listed kind mhdr has_mic mic (stamped_fields relay_id timestamp) (content_place b) 0 }
{
    let t = mhdr.payload_type;
    let place = content_place(b);
    [
        kind as u64,
        t.to_byte() as u64,
        mhdr.hop_count as u64,
        from_bool(has_mic),
        mic as u64,
        relay_id as u64,
        0,
        0,
        0,
        0,
        0,
        0,
        timestamp as u64,
        place[0],
        place[1],
        place[2],
        0,
    ]
}

// ---- a body, which lies in its frame from byte `at` on, by the reader of its type

fn read_body(
    mhdr: MHDR,
    has_mic: bool,
    mic: u32,
    at: u8,
    body: &[u8],
    numbers: &mut PacketNumbers,
    rssi: &mut i16,
    snr: &mut i8,
) -> u8
    ensures answer { result ≡ number_in (mesh_says (around mhdr has_mic mic (body_read at mhdr.payload_type body.now))) }
    ensures numbers { numbers.new ≡ left_by mesh_numbers numbers.old (mesh_says (around mhdr has_mic mic (body_read at mhdr.payload_type body.now))) }
    ensures rssi { rssi.new ≡ left_by mesh_rssi rssi.old (mesh_says (around mhdr has_mic mic (body_read at mhdr.payload_type body.now))) }
    ensures snr { snr.new ≡ left_by mesh_snr snr.old (mesh_says (around mhdr has_mic mic (body_read at mhdr.payload_type body.now))) }
{
    let t = mhdr.payload_type;
    match t {
        PayloadType::Uplink => match UplinkPayload::read_at(body, at) {
            UplinkRead::Refused(n) => n,
            UplinkRead::Payload(u) => {
                let m = u.metadata;
                let strength = m.rssi;
                let ratio = m.snr;
                *numbers = uplink_numbers(mhdr, has_mic, mic, u);
                *rssi = strength;
                *snr = ratio;
                0
            }
        },
        PayloadType::Downlink => match DownlinkPayload::read_at(body, at) {
            DownlinkRead::Refused(n) => n,
            DownlinkRead::Payload(u) => {
                *numbers = downlink_numbers(mhdr, has_mic, mic, u);
                *rssi = 0;
                *snr = 0;
                0
            }
        },
        PayloadType::Event => match EventPayload::read_at(body, at) {
            EventRead::Refused(n) => n,
            EventRead::Payload(u) => {
                let b = u.events;
                *numbers = stamped_numbers(
                    PayloadType::EVENT,
                    mhdr,
                    has_mic,
                    mic,
                    u.timestamp,
                    u.relay_id,
                    b,
                );
                *rssi = 0;
                *snr = 0;
                0
            }
        },
        PayloadType::Command => match CommandPayload::read_at(body, at) {
            CommandRead::Refused(n) => n,
            CommandRead::Payload(u) => {
                let b = u.commands;
                *numbers = stamped_numbers(
                    PayloadType::COMMAND,
                    mhdr,
                    has_mic,
                    mic,
                    u.timestamp,
                    u.relay_id,
                    b,
                );
                *rssi = 0;
                *snr = 0;
                0
            }
        },
    }
}

// ---- frames

// A mesh frame: 1, 5, 2, 3, 4 with nothing changed, or 0.
fn read_mesh(frame: &[u8], numbers: &mut PacketNumbers, rssi: &mut i16, snr: &mut i8) -> u8
    ensures answer { result ≡ number_in (mesh_says (mesh_of frame.now)) }
    ensures numbers { numbers.new ≡ left_by mesh_numbers numbers.old (mesh_says (mesh_of frame.now)) }
    ensures rssi { rssi.new ≡ left_by mesh_rssi rssi.old (mesh_says (mesh_of frame.now)) }
    ensures snr { snr.new ≡ left_by mesh_snr snr.old (mesh_says (mesh_of frame.now)) }
{
    let n = frame.len();
    if n == 0 {
        return Refusal::FRAME_EMPTY;
    }
    if Limit::FRAME < n {
        return Refusal::FRAME_LONG;
    }
    if n < MeshPacket::LEAST {
        return Refusal::FRAME_SHORT;
    }
    match MHDR::from_byte(frame[0]) {
        HeaderRead::Refused(k) => k,
        HeaderRead::Header(mhdr) => {
            let end = n - 4;
            let mic = be32_of(frame[end], frame[end + 1], frame[end + 2], frame[end + 3]);
            read_body(mhdr, true, mic, 1, &frame[1..end], numbers, rssi, snr)
        }
    }
}

// Any frame: 1, 5, 2, 4 with nothing changed, or 0.
pub fn read_numbers(frame: &[u8], numbers: &mut PacketNumbers, rssi: &mut i16, snr: &mut i8) -> u8
    ensures answer { result ≡ number_in (packet_says (packet_of frame.now)) }
    ensures numbers { numbers.new ≡ left_by numbers_in numbers.old (packet_says (packet_of frame.now)) }
    ensures rssi { rssi.new ≡ left_by rssi_in rssi.old (packet_says (packet_of frame.now)) }
    ensures snr { snr.new ≡ left_by snr_in snr.old (packet_says (packet_of frame.now)) }
{
    let n = frame.len();
    if n == 0 {
        return Refusal::FRAME_EMPTY;
    }
    if Limit::FRAME < n {
        return Refusal::FRAME_LONG;
    }
    if frame[0] / 32 == MHDR::MARK {
        return read_mesh(frame, numbers, rssi, snr);
    }
    *numbers = [
        Code::LORA as u64,
        0,
        0,
        0,
        0,
        0,
        0,
        0,
        0,
        0,
        0,
        0,
        0,
        0,
        0,
        n as u64,
        0,
    ];
    *rssi = 0;
    *snr = 0;
    0
}

// ---- a body alone. The compiler takes a function that has one caller into that: so `read_body` serves reading frames alone, which then has no
// calls, and this, which says the same, those who know what they read.

fn read_part(
    mhdr: MHDR,
    has_mic: bool,
    mic: u32,
    at: u8,
    body: &[u8],
    numbers: &mut PacketNumbers,
    rssi: &mut i16,
    snr: &mut i8,
) -> u8
    ensures answer { result ≡ number_in (mesh_says (around mhdr has_mic mic (body_read at mhdr.payload_type body.now))) }
    ensures numbers { numbers.new ≡ left_by mesh_numbers numbers.old (mesh_says (around mhdr has_mic mic (body_read at mhdr.payload_type body.now))) }
    ensures rssi { rssi.new ≡ left_by mesh_rssi rssi.old (mesh_says (around mhdr has_mic mic (body_read at mhdr.payload_type body.now))) }
    ensures snr { snr.new ≡ left_by mesh_snr snr.old (mesh_says (around mhdr has_mic mic (body_read at mhdr.payload_type body.now))) }
{
    let t = mhdr.payload_type;
    match t {
        PayloadType::Uplink => match UplinkPayload::read_at(body, at) {
            UplinkRead::Refused(n) => n,
            UplinkRead::Payload(u) => {
                let m = u.metadata;
                let strength = m.rssi;
                let ratio = m.snr;
                *numbers = uplink_numbers(mhdr, has_mic, mic, u);
                *rssi = strength;
                *snr = ratio;
                0
            }
        },
        PayloadType::Downlink => match DownlinkPayload::read_at(body, at) {
            DownlinkRead::Refused(n) => n,
            DownlinkRead::Payload(u) => {
                *numbers = downlink_numbers(mhdr, has_mic, mic, u);
                *rssi = 0;
                *snr = 0;
                0
            }
        },
        PayloadType::Event => match EventPayload::read_at(body, at) {
            EventRead::Refused(n) => n,
            EventRead::Payload(u) => {
                let b = u.events;
                *numbers = stamped_numbers(
                    PayloadType::EVENT,
                    mhdr,
                    has_mic,
                    mic,
                    u.timestamp,
                    u.relay_id,
                    b,
                );
                *rssi = 0;
                *snr = 0;
                0
            }
        },
        PayloadType::Command => match CommandPayload::read_at(body, at) {
            CommandRead::Refused(n) => n,
            CommandRead::Payload(u) => {
                let b = u.commands;
                *numbers = stamped_numbers(
                    PayloadType::COMMAND,
                    mhdr,
                    has_mic,
                    mic,
                    u.timestamp,
                    u.relay_id,
                    b,
                );
                *rssi = 0;
                *snr = 0;
                0
            }
        },
    }
}

// A body alone: 29, 5, 4 with nothing changed, or 0. It has no header and no MIC: hop count 0 and none stand for them.
pub fn read_bare(
    kind: u8,
    b: &[u8],
    numbers: &mut PacketNumbers,
    rssi: &mut i16,
    snr: &mut i8,
) -> u8
    ensures answer { result ≡ number_in (mesh_says (bare_by b.now (type_read kind))) }
    ensures numbers { numbers.new ≡ left_by mesh_numbers numbers.old (mesh_says (bare_by b.now (type_read kind))) }
    ensures rssi { rssi.new ≡ left_by mesh_rssi rssi.old (mesh_says (bare_by b.now (type_read kind))) }
    ensures snr { snr.new ≡ left_by mesh_snr snr.old (mesh_says (bare_by b.now (type_read kind))) }
{
    match PayloadType::from_byte(kind) {
        TypeRead::Refused(n) => n,
        TypeRead::Kind(payload_type) => {
            let mhdr = MHDR {
                payload_type,
                hop_count: 0,
            };
            read_part(mhdr, false, 0, 0, b, numbers, rssi, snr)
        }
    }
}

// A mesh frame: 1, 5, 2, 3, 4 with nothing changed, or 0. As `read_mesh`, which has one caller too.
pub fn read_mesh_numbers(
    frame: &[u8],
    numbers: &mut PacketNumbers,
    rssi: &mut i16,
    snr: &mut i8,
) -> u8
    ensures answer { result ≡ number_in (mesh_says (mesh_of frame.now)) }
    ensures numbers { numbers.new ≡ left_by mesh_numbers numbers.old (mesh_says (mesh_of frame.now)) }
    ensures rssi { rssi.new ≡ left_by mesh_rssi rssi.old (mesh_says (mesh_of frame.now)) }
    ensures snr { snr.new ≡ left_by mesh_snr snr.old (mesh_says (mesh_of frame.now)) }
{
    let n = frame.len();
    if n == 0 {
        return Refusal::FRAME_EMPTY;
    }
    if Limit::FRAME < n {
        return Refusal::FRAME_LONG;
    }
    if n < MeshPacket::LEAST {
        return Refusal::FRAME_SHORT;
    }
    match MHDR::from_byte(frame[0]) {
        HeaderRead::Refused(k) => k,
        HeaderRead::Header(mhdr) => {
            let end = n - 4;
            let mic = be32_of(frame[end], frame[end + 1], frame[end + 2], frame[end + 3]);
            read_part(mhdr, true, mic, 1, &frame[1..end], numbers, rssi, snr)
        }
    }
}
