// Whole frames. A packet goes in as it comes out: as numbers, and rssi and snr beside them (crate `numbers`).
ghost use Rattle.std.specs.Prelude.{◌≡◌, pos};
ghost use Rattle.base.specs.Answers.{answer_of, out_of, number_in, left_by, written_says, checked_of, checked_number};
ghost use Rattle.fips197.specs.Aes.{aes};
ghost use Rattle.fields.specs.Header.{type_read};
ghost use Rattle.contents.specs.Content.{lent};
ghost use Rattle.links.specs.Write.{limited_of};
ghost use Rattle.packets.specs.Read.{packet_says, packet_of, mesh_says, mesh_of};
ghost use Rattle.packets.specs.Write.{payload_wire};
ghost use Rattle.sealing.specs.Mesh.{mesh_opened_says};
ghost use Rattle.mic.specs.Mic.{valid_says};
ghost use Rattle.hops.specs.Hops.{hop_edit, leaves};
ghost use Rattle.numbers.specs.Numbers.{bit, mesh_numbers, mesh_rssi, mesh_snr, numbers_in, rssi_in, snr_in, bare_by, mesh_from, numbers_frame};
ghost use Rattle.mesh_c.specs.Face.{as_it_is, numbers_body, numbers_signed, numbers_valid, numbers_sealed, numbers_seal, numbers_decrypted, numbers_work, numbers_decoded, signed_left, placed_left, opened_number, counts_left, opened_left, record_in};
ghost use Rattle.mesh_c.specs.inner.Known.{known_id, known_time};

use crate::field::{from_u16, from_u32};
use crate::item::{counts_of, put_length};
use base::{Checked, Refusal, Written};
use contents::Lent;
use fields::PayloadType;
use hops::set_hop_count;
use keys::Aes128Key;
use mic::{Validated, set_mic, validate_mic};
use numbers::{
    PacketNumbers, mesh_of, put_mic, put_place, read_bare, read_mesh_numbers, read_numbers,
    strange_content, to_u16, to_u32, too_wide, write_numbers,
};
use packets::{MeshRead, Payload};
use sealing::MeshOpened;

// ---- reading

// Any frame: 0, or 1, 5, 2, 4 with nothing changed.
pub fn mesh_read(frame: &[u8], numbers: &mut PacketNumbers, rssi: &mut i16, snr: &mut i8) -> u8
    ensures answer { result ≡ number_in (packet_says (packet_of frame.now)) }
    ensures numbers { numbers.new ≡ left_by numbers_in numbers.old (packet_says (packet_of frame.now)) }
    ensures rssi { rssi.new ≡ left_by rssi_in rssi.old (packet_says (packet_of frame.now)) }
    ensures snr { snr.new ≡ left_by snr_in snr.old (packet_says (packet_of frame.now)) }
{
    read_numbers(frame, numbers, rssi, snr)
}

// A mesh frame: 1, 5, 2, 3, 4.
pub fn mesh_read_mesh(frame: &[u8], numbers: &mut PacketNumbers, rssi: &mut i16, snr: &mut i8) -> u8
    ensures answer { result ≡ number_in (mesh_says (mesh_of frame.now)) }
    ensures numbers { numbers.new ≡ left_by mesh_numbers numbers.old (mesh_says (mesh_of frame.now)) }
    ensures rssi { rssi.new ≡ left_by mesh_rssi rssi.old (mesh_says (mesh_of frame.now)) }
    ensures snr { snr.new ≡ left_by mesh_snr snr.old (mesh_says (mesh_of frame.now)) }
{
    read_mesh_numbers(frame, numbers, rssi, snr)
}

// A body alone: 29, 5, 4.
pub fn mesh_read_body(
    kind: u8,
    b: &[u8],
    numbers: &mut PacketNumbers,
    rssi: &mut i16,
    snr: &mut i8,
) -> u8
    ensures answer { result ≡ number_in (mesh_says (bare_by b.now (type_read kind))) }
    ensures numbers { numbers.new ≡ left_by mesh_numbers numbers.old (mesh_says (bare_by b.now (type_read kind))) }
    ensures rssi { rssi.new ≡ left_by mesh_rssi rssi.old (mesh_says (bare_by b.now (type_read kind))) }
    ensures snr { snr.new ≡ left_by mesh_snr snr.old (mesh_says (bare_by b.now (type_read kind))) }
{
    read_bare(kind, b, numbers, rssi, snr)
}

// ---- writing

// 29, then in the order of writing; the frame's length in `length`. The slices stay apart as in `write_numbers`.
pub fn mesh_write<'a>(
    numbers: &PacketNumbers,
    rssi: i16,
    snr: i8,
    frame: &'a [u8],
    work: &'a [u8],
    kinds: &[[u8; 2]],
    spans: &[[u32; 2]],
    ids: &[u32],
    rssis: &[i16],
    snrs: &[i8],
    out: &mut [u8],
    length: &mut u64,
) -> u8
    ensures answer { result ≡ number_in (written_says (answer_of (numbers_frame (lent frame.now work.now kinds.now spans.now ids.now rssis.now snrs.now) numbers.now rssi snr) out.old)) }
    ensures out { out.new ≡ out_of (numbers_frame (lent frame.now work.now kinds.now spans.now ids.now rssis.now snrs.now) numbers.now rssi snr) out.old }
    ensures length { length.new ≡ left_by as_it_is length.old (written_says (answer_of (numbers_frame (lent frame.now work.now kinds.now spans.now ids.now rssis.now snrs.now) numbers.now rssi snr) out.old)) }
{
    put_length(
        write_numbers(
            numbers, rssi, snr, frame, work, kinds, spans, ids, rssis, snrs, out,
        ),
        length,
    )
}

fn write_payload(payload: Payload, lent: &Lent, out: &mut [u8]) -> Written
    ensures answer { result ≡ answer_of (limited_of (payload_wire lent.now payload)) out.old }
    ensures out { out.new ≡ out_of (limited_of (payload_wire lent.now payload)) out.old }
{
    match payload {
        Payload::Uplink(p) => p.write(lent.frame, out),
        Payload::Downlink(p) => p.write(lent.frame, out),
        Payload::Event(p) => p.write(lent, out),
        Payload::Command(p) => p.write(lent, out),
    }
}

fn write_alone(numbers: &PacketNumbers, rssi: i16, snr: i8, lent: &Lent, out: &mut [u8]) -> Written
    ensures answer { result ≡ answer_of (numbers_body lent.now numbers.now rssi snr) out.old }
    ensures out { out.new ≡ out_of (numbers_body lent.now numbers.now rssi snr) out.old }
{
    match mesh_of(numbers, rssi, snr) {
        MeshRead::Refused(n) => Written::Refused(n),
        MeshRead::Mesh(p) => {
            let payload = p.payload;
            write_payload(payload, lent, out)
        }
    }
}

// The body alone.
pub fn mesh_write_body(
    numbers: &PacketNumbers,
    rssi: i16,
    snr: i8,
    lent: &Lent,
    out: &mut [u8],
    length: &mut u64,
) -> u8
    ensures answer { result ≡ number_in (written_says (answer_of (numbers_body lent.now numbers.now rssi snr) out.old)) }
    ensures out { out.new ≡ out_of (numbers_body lent.now numbers.now rssi snr) out.old }
    ensures length { length.new ≡ left_by as_it_is length.old (written_says (answer_of (numbers_body lent.now numbers.now rssi snr) out.old)) }
{
    put_length(write_alone(numbers, rssi, snr, lent, out), length)
}

// ---- signing and validating

fn sign_numbers(
    numbers: &PacketNumbers,
    rssi: i16,
    snr: i8,
    key: Aes128Key,
    lent: &Lent,
) -> MeshRead
    ensures { result ≡ numbers_signed (aes key.0) lent.now numbers.now rssi snr }
{
    match mesh_of(numbers, rssi, snr) {
        MeshRead::Refused(n) => MeshRead::Refused(n),
        MeshRead::Mesh(p) => set_mic(p, key, lent),
    }
}

fn put_signed(read: MeshRead, numbers: &mut PacketNumbers) -> u8
    ensures answer { result ≡ number_in (mesh_says read) }
    ensures numbers { numbers.new ≡ signed_left numbers.old (mesh_says read) }
{
    match read {
        MeshRead::Refused(n) => n,
        MeshRead::Mesh(p) => {
            put_mic(p.mic, numbers);
            0
        }
    }
}

// The MIC that a packet has under a signing key, in place: has_mic becomes 1, and mic the MIC. What MIC it came with does not matter.
pub fn mesh_sign(numbers: &mut PacketNumbers, rssi: i16, snr: i8, key: &[u8; 16], lent: &Lent) -> u8
    ensures answer { result ≡ number_in (mesh_says (numbers_signed (aes key.now) lent.now numbers.old rssi snr)) }
    ensures numbers { numbers.new ≡ signed_left numbers.old (mesh_says (numbers_signed (aes key.now) lent.now numbers.old rssi snr)) }
{
    let read = sign_numbers(numbers, rssi, snr, Aes128Key::from_bytes(*key), lent);
    put_signed(read, numbers)
}

fn validate_numbers(
    numbers: &PacketNumbers,
    rssi: i16,
    snr: i8,
    key: Aes128Key,
    lent: &Lent,
) -> Validated
    ensures { result ≡ numbers_valid (aes key.0) lent.now numbers.now rssi snr }
{
    match mesh_of(numbers, rssi, snr) {
        MeshRead::Refused(n) => Validated::Refused(n),
        MeshRead::Mesh(p) => validate_mic(p, key, lent),
    }
}

// Whether a packet has the MIC that it should have under a signing key: 0 with 1 or 0 in `valid`, or the number with nothing changed.
pub fn mesh_validate(
    numbers: &PacketNumbers,
    rssi: i16,
    snr: i8,
    key: &[u8; 16],
    lent: &Lent,
    valid: &mut u8,
) -> u8
    ensures answer { result ≡ number_in (valid_says (numbers_valid (aes key.now) lent.now numbers.now rssi snr)) }
    ensures valid { valid.new ≡ left_by bit valid.old (valid_says (numbers_valid (aes key.now) lent.now numbers.now rssi snr)) }
{
    match validate_numbers(numbers, rssi, snr, Aes128Key::from_bytes(*key), lent) {
        Validated::Valid => {
            *valid = 1;
            0
        }
        Validated::Invalid => {
            *valid = 0;
            0
        }
        Validated::Refused(n) => n,
    }
}

// The hop edit in the received buffer: 0, or the number with no byte changed.
pub fn mesh_set_hop_count(key: &[u8; 16], frame: &mut [u8], hop_count: u8) -> u8
    ensures answer { result ≡ checked_number (checked_of (hop_edit (aes key.now) frame.old hop_count)) }
    ensures frame { frame.new ≡ leaves (hop_edit (aes key.now) frame.old hop_count) frame.old }
{
    match set_hop_count(frame, hop_count, Aes128Key::from_bytes(*key)) {
        Checked::Accepted => 0,
        Checked::Refused(n) => n,
    }
}

// ---- sealing and opening, in place: of the packet only content, start and len change. Of an uplink nothing is sealed, so its rssi and snr, which
// these calls do not take, do not count.

fn put_sealed(read: MeshRead, numbers: &mut PacketNumbers) -> u8
    ensures answer { result ≡ number_in (mesh_says read) }
    ensures numbers { numbers.new ≡ placed_left numbers.old (mesh_says read) }
{
    match read {
        MeshRead::Refused(n) => n,
        MeshRead::Mesh(p) => {
            let payload = p.payload;
            put_place(payload, numbers);
            0
        }
    }
}

fn seal_numbers(numbers: &PacketNumbers, key: Aes128Key, lent: &Lent, out: &mut [u8]) -> MeshRead
    ensures answer { result ≡ numbers_sealed key.0 lent.now numbers.now out.old }
    ensures out { out.new ≡ out_of (numbers_seal key.0 lent.now numbers.now) out.old }
{
    match mesh_of(numbers, 0, 0) {
        MeshRead::Refused(n) => MeshRead::Refused(n),
        MeshRead::Mesh(p) => sealing::mesh::encrypt(p, key, lent, out),
    }
}

// The packet with its payload sealed, which lies at the front of `out`: `out` is its frame from then on.
pub fn mesh_seal(numbers: &mut PacketNumbers, key: &[u8; 16], lent: &Lent, out: &mut [u8]) -> u8
    ensures answer { result ≡ number_in (mesh_says (numbers_sealed key.now lent.now numbers.old out.old)) }
    ensures numbers { numbers.new ≡ placed_left numbers.old (mesh_says (numbers_sealed key.now lent.now numbers.old out.old)) }
    ensures out { out.new ≡ out_of (numbers_seal key.now lent.now numbers.old) out.old }
{
    let read = seal_numbers(numbers, Aes128Key::from_bytes(*key), lent, out);
    put_sealed(read, numbers)
}

fn put_opened(o: MeshOpened, numbers: &mut PacketNumbers, counts: &mut [u64; 6]) -> u8
    ensures answer { result ≡ opened_number (mesh_opened_says o) }
    ensures numbers { numbers.new ≡ opened_left numbers.old (mesh_opened_says o) }
    ensures counts { counts.new ≡ counts_left counts.old (mesh_opened_says o) }
{
    match o {
        MeshOpened::Refused(n) => n,
        MeshOpened::AlreadyOpen => 255,
        MeshOpened::Opened { packet, opening } => {
            let payload = packet.payload;
            put_place(payload, numbers);
            *counts = counts_of(opening);
            0
        }
    }
}

fn decrypt_numbers(
    numbers: &PacketNumbers,
    key: Aes128Key,
    frame: &[u8],
    work: &mut [u8],
) -> MeshOpened
    ensures answer { result ≡ numbers_decrypted key.0 numbers.now frame.now work.old }
    ensures work { work.new ≡ numbers_work key.0 numbers.now frame.now work.old }
{
    match mesh_of(numbers, 0, 0) {
        MeshRead::Refused(n) => MeshOpened::Refused(n),
        MeshRead::Mesh(p) => sealing::mesh::decrypt(p, key, frame, work),
    }
}

// The packet with its payload opened, which lies at the front of `work`, and what was in it: 29, 22, 23, 45, 5, 21.
pub fn mesh_decrypt(
    numbers: &mut PacketNumbers,
    key: &[u8; 16],
    frame: &[u8],
    work: &mut [u8],
    counts: &mut [u64; 6],
) -> u8
    ensures answer { result ≡ opened_number (mesh_opened_says (numbers_decrypted key.now numbers.old frame.now work.old)) }
    ensures numbers { numbers.new ≡ opened_left numbers.old (mesh_opened_says (numbers_decrypted key.now numbers.old frame.now work.old)) }
    ensures work { work.new ≡ numbers_work key.now numbers.old frame.now work.old }
    ensures counts { counts.new ≡ counts_left counts.old (mesh_opened_says (numbers_decrypted key.now numbers.old frame.now work.old)) }
{
    let o = decrypt_numbers(numbers, Aes128Key::from_bytes(*key), frame, work);
    put_opened(o, numbers, counts)
}

fn decode_numbers<'a>(numbers: &PacketNumbers, frame: &'a [u8], work: &'a [u8]) -> MeshOpened
    ensures { result ≡ numbers_decoded numbers.now frame.now work.now }
{
    match mesh_of(numbers, 0, 0) {
        MeshRead::Refused(n) => MeshOpened::Refused(n),
        MeshRead::Mesh(p) => sealing::mesh::decode(p, frame, work),
    }
}

// The same of a payload that is clear as it stands: 29, 45, 5, or 255 where it is open already.
pub fn mesh_decode<'a>(
    numbers: &mut PacketNumbers,
    frame: &'a [u8],
    work: &'a [u8],
    counts: &mut [u64; 6],
) -> u8
    ensures answer { result ≡ opened_number (mesh_opened_says (numbers_decoded numbers.old frame.now work.now)) }
    ensures numbers { numbers.new ≡ opened_left numbers.old (mesh_opened_says (numbers_decoded numbers.old frame.now work.now)) }
    ensures counts { counts.new ≡ counts_left counts.old (mesh_opened_says (numbers_decoded numbers.old frame.now work.now)) }
{
    let o = decode_numbers(numbers, frame, work);
    put_opened(o, numbers, counts)
}

// ---- the duplicate record

// The id is 0 of an event and a command, the timestamp of an uplink and a downlink.
fn known_id(kind: u64, uplink_id: u16) -> u16
    ensures { result ≡ known_id kind uplink_id }
{
    if kind < PayloadType::EVENT as u64 {
        return uplink_id;
    }
    0
}

fn known_time(kind: u64, timestamp: u32) -> u32
    ensures { result ≡ known_time kind timestamp }
{
    if kind < PayloadType::EVENT as u64 {
        return 0;
    }
    timestamp
}

// What the duplicate cache knows a packet by: type, uplink id, timestamp and relay id; 29.
pub fn mesh_record(numbers: &PacketNumbers, record: &mut [u64; 4]) -> u8
    ensures answer { result ≡ number_in (mesh_says (mesh_from numbers.now (pos 0) (pos 0))) }
    ensures record { «record».new ≡ left_by record_in «record».old (mesh_says (mesh_from numbers.now (pos 0) (pos 0))) }
{
    if too_wide(numbers) {
        return Refusal::TYPE_LARGE;
    }
    if strange_content(numbers) {
        return Refusal::TYPE_LARGE;
    }
    if (PayloadType::COMMAND as u64) < numbers[0] {
        return Refusal::TYPE_LARGE;
    }
    if (PayloadType::COMMAND as u64) < numbers[1] {
        return Refusal::TYPE_LARGE;
    }
    *record = [
        numbers[1],
        from_u16(known_id(numbers[0], to_u16(numbers[6]))),
        from_u32(known_time(numbers[0], to_u32(numbers[12]))),
        from_u32(to_u32(numbers[5])),
    ];
    0
}
