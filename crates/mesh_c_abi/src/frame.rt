// Whole frames. A packet goes in as it comes out: as numbers, and rssi and snr beside them (crate `numbers`).
ghost use Rattle.std.specs.Prelude.{◌≡◌, pos};
ghost use Rattle.base.specs.Answers.{answer_of, out_of, number_in, left_by, written_says, checked_of, checked_number};
ghost use Rattle.fips197.specs.Aes.{aes};
ghost use Rattle.fields.specs.Header.{type_read};
ghost use Rattle.contents.specs.Content.{lent};
ghost use Rattle.packets.specs.Read.{packet_says, packet_of, mesh_says, mesh_of};
ghost use Rattle.sealing.specs.Mesh.{mesh_opened_says};
ghost use Rattle.mic.specs.Mic.{valid_says};
ghost use Rattle.hops.specs.Hops.{hop_edit, leaves};
ghost use Rattle.numbers.specs.Numbers.{bit, mesh_numbers, mesh_rssi, mesh_snr, numbers_in, rssi_in, snr_in, bare_by, mesh_from, numbers_frame};
ghost use Rattle.mesh_c.specs.Face.{as_it_is, numbers_body, numbers_signed, numbers_valid, numbers_sealed, numbers_seal, numbers_decrypted, numbers_work, numbers_decoded, signed_left, placed_left, opened_number, counts_left, opened_left, record_in};

use contents::Lent;
use numbers::PacketNumbers;

#[unsafe(no_mangle)]
pub extern "C" fn mesh_read(
    frame: &[u8],
    numbers: &mut PacketNumbers,
    rssi: &mut i16,
    snr: &mut i8,
) -> u8
    ensures answer { result ≡ number_in (packet_says (packet_of frame.now)) }
    ensures numbers { numbers.new ≡ left_by numbers_in numbers.old (packet_says (packet_of frame.now)) }
    ensures rssi { rssi.new ≡ left_by rssi_in rssi.old (packet_says (packet_of frame.now)) }
    ensures snr { snr.new ≡ left_by snr_in snr.old (packet_says (packet_of frame.now)) }
{
    mesh_c::mesh_read(frame, numbers, rssi, snr)
}

#[unsafe(no_mangle)]
pub extern "C" fn mesh_read_mesh(
    frame: &[u8],
    numbers: &mut PacketNumbers,
    rssi: &mut i16,
    snr: &mut i8,
) -> u8
    ensures answer { result ≡ number_in (mesh_says (mesh_of frame.now)) }
    ensures numbers { numbers.new ≡ left_by mesh_numbers numbers.old (mesh_says (mesh_of frame.now)) }
    ensures rssi { rssi.new ≡ left_by mesh_rssi rssi.old (mesh_says (mesh_of frame.now)) }
    ensures snr { snr.new ≡ left_by mesh_snr snr.old (mesh_says (mesh_of frame.now)) }
{
    mesh_c::mesh_read_mesh(frame, numbers, rssi, snr)
}

#[unsafe(no_mangle)]
pub extern "C" fn mesh_read_body(
    kind: u8,
    b: &[u8],
    numbers: &mut PacketNumbers,
    rssi: &mut i16,
    snr: &mut i8,
) -> u8
    ensures answer { result ≡ number_in (mesh_says (bare_by b.now (type_read kind))) }
    ensures numbers { numbers.new ≡ left_by mesh_numbers numbers.old (mesh_says (bare_by b.now (type_read kind))) }
    ensures rssi { rssi.new ≡ left_by mesh_rssi rssi.old (mesh_says (bare_by b.now (type_read kind))) }
    ensures snr { snr.new ≡ left_by mesh_snr snr.old (mesh_says (bare_by b.now (type_read kind))) }
{
    mesh_c::mesh_read_body(kind, b, numbers, rssi, snr)
}

#[unsafe(no_mangle)]
pub extern "C" fn mesh_write<'a>(
    numbers: &PacketNumbers,
    rssi: i16,
    snr: i8,
    frame: &'a [u8],
    work: &'a [u8],
    kinds: &[[u8; 2]],
    spans: &[[u32; 2]],
    ids: &[u32],
    rssis: &[i16],
    snrs: &[i8],
    out: &mut [u8],
    length: &mut u64,
) -> u8
    ensures answer { result ≡ number_in (written_says (answer_of (numbers_frame (lent frame.now work.now kinds.now spans.now ids.now rssis.now snrs.now) numbers.now rssi snr) out.old)) }
    ensures out { out.new ≡ out_of (numbers_frame (lent frame.now work.now kinds.now spans.now ids.now rssis.now snrs.now) numbers.now rssi snr) out.old }
    ensures length { length.new ≡ left_by as_it_is length.old (written_says (answer_of (numbers_frame (lent frame.now work.now kinds.now spans.now ids.now rssis.now snrs.now) numbers.now rssi snr) out.old)) }
{
    mesh_c::mesh_write(
        numbers, rssi, snr, frame, work, kinds, spans, ids, rssis, snrs, out, length,
    )
}

#[unsafe(no_mangle)]
pub extern "C" fn mesh_write_body<'a>(
    numbers: &PacketNumbers,
    rssi: i16,
    snr: i8,
    frame: &'a [u8],
    work: &'a [u8],
    kinds: &[[u8; 2]],
    spans: &[[u32; 2]],
    ids: &[u32],
    rssis: &[i16],
    snrs: &[i8],
    out: &mut [u8],
    length: &mut u64,
) -> u8
    ensures answer { result ≡ number_in (written_says (answer_of (numbers_body (lent frame.now work.now kinds.now spans.now ids.now rssis.now snrs.now) numbers.now rssi snr) out.old)) }
    ensures out { out.new ≡ out_of (numbers_body (lent frame.now work.now kinds.now spans.now ids.now rssis.now snrs.now) numbers.now rssi snr) out.old }
    ensures length { length.new ≡ left_by as_it_is length.old (written_says (answer_of (numbers_body (lent frame.now work.now kinds.now spans.now ids.now rssis.now snrs.now) numbers.now rssi snr) out.old)) }
{
    let lent = Lent::of(frame, work, kinds, spans, ids, rssis, snrs);
    mesh_c::mesh_write_body(numbers, rssi, snr, &lent, out, length)
}

#[unsafe(no_mangle)]
pub extern "C" fn mesh_sign<'a>(
    numbers: &mut PacketNumbers,
    rssi: i16,
    snr: i8,
    key: &[u8; 16],
    frame: &'a [u8],
    work: &'a [u8],
    kinds: &[[u8; 2]],
    spans: &[[u32; 2]],
    ids: &[u32],
    rssis: &[i16],
    snrs: &[i8],
) -> u8
    ensures answer { result ≡ number_in (mesh_says (numbers_signed (aes key.now) (lent frame.now work.now kinds.now spans.now ids.now rssis.now snrs.now) numbers.old rssi snr)) }
    ensures numbers { numbers.new ≡ signed_left numbers.old (mesh_says (numbers_signed (aes key.now) (lent frame.now work.now kinds.now spans.now ids.now rssis.now snrs.now) numbers.old rssi snr)) }
{
    let lent = Lent::of(frame, work, kinds, spans, ids, rssis, snrs);
    mesh_c::mesh_sign(numbers, rssi, snr, key, &lent)
}

#[unsafe(no_mangle)]
pub extern "C" fn mesh_validate<'a>(
    numbers: &PacketNumbers,
    rssi: i16,
    snr: i8,
    key: &[u8; 16],
    frame: &'a [u8],
    work: &'a [u8],
    kinds: &[[u8; 2]],
    spans: &[[u32; 2]],
    ids: &[u32],
    rssis: &[i16],
    snrs: &[i8],
    valid: &mut u8,
) -> u8
    ensures answer { result ≡ number_in (valid_says (numbers_valid (aes key.now) (lent frame.now work.now kinds.now spans.now ids.now rssis.now snrs.now) numbers.now rssi snr)) }
    ensures valid { valid.new ≡ left_by bit valid.old (valid_says (numbers_valid (aes key.now) (lent frame.now work.now kinds.now spans.now ids.now rssis.now snrs.now) numbers.now rssi snr)) }
{
    let lent = Lent::of(frame, work, kinds, spans, ids, rssis, snrs);
    mesh_c::mesh_validate(numbers, rssi, snr, key, &lent, valid)
}

#[unsafe(no_mangle)]
pub extern "C" fn mesh_set_hop_count(key: &[u8; 16], frame: &mut [u8], hop_count: u8) -> u8
    ensures answer { result ≡ checked_number (checked_of (hop_edit (aes key.now) frame.old hop_count)) }
    ensures frame { frame.new ≡ leaves (hop_edit (aes key.now) frame.old hop_count) frame.old }
{
    mesh_c::mesh_set_hop_count(key, frame, hop_count)
}

#[unsafe(no_mangle)]
pub extern "C" fn mesh_seal<'a>(
    numbers: &mut PacketNumbers,
    key: &[u8; 16],
    frame: &'a [u8],
    work: &'a [u8],
    kinds: &[[u8; 2]],
    spans: &[[u32; 2]],
    ids: &[u32],
    rssis: &[i16],
    snrs: &[i8],
    out: &mut [u8],
) -> u8
    ensures answer { result ≡ number_in (mesh_says (numbers_sealed key.now (lent frame.now work.now kinds.now spans.now ids.now rssis.now snrs.now) numbers.old out.old)) }
    ensures numbers { numbers.new ≡ placed_left numbers.old (mesh_says (numbers_sealed key.now (lent frame.now work.now kinds.now spans.now ids.now rssis.now snrs.now) numbers.old out.old)) }
    ensures out { out.new ≡ out_of (numbers_seal key.now (lent frame.now work.now kinds.now spans.now ids.now rssis.now snrs.now) numbers.old) out.old }
{
    let lent = Lent::of(frame, work, kinds, spans, ids, rssis, snrs);
    mesh_c::mesh_seal(numbers, key, &lent, out)
}

#[unsafe(no_mangle)]
pub extern "C" fn mesh_decrypt(
    numbers: &mut PacketNumbers,
    key: &[u8; 16],
    frame: &[u8],
    work: &mut [u8],
    counts: &mut [u64; 6],
) -> u8
    ensures answer { result ≡ opened_number (mesh_opened_says (numbers_decrypted key.now numbers.old frame.now work.old)) }
    ensures numbers { numbers.new ≡ opened_left numbers.old (mesh_opened_says (numbers_decrypted key.now numbers.old frame.now work.old)) }
    ensures work { work.new ≡ numbers_work key.now numbers.old frame.now work.old }
    ensures counts { counts.new ≡ counts_left counts.old (mesh_opened_says (numbers_decrypted key.now numbers.old frame.now work.old)) }
{
    mesh_c::mesh_decrypt(numbers, key, frame, work, counts)
}

#[unsafe(no_mangle)]
pub extern "C" fn mesh_decode<'a>(
    numbers: &mut PacketNumbers,
    frame: &'a [u8],
    work: &'a [u8],
    counts: &mut [u64; 6],
) -> u8
    ensures answer { result ≡ opened_number (mesh_opened_says (numbers_decoded numbers.old frame.now work.now)) }
    ensures numbers { numbers.new ≡ opened_left numbers.old (mesh_opened_says (numbers_decoded numbers.old frame.now work.now)) }
    ensures counts { counts.new ≡ counts_left counts.old (mesh_opened_says (numbers_decoded numbers.old frame.now work.now)) }
{
    mesh_c::mesh_decode(numbers, frame, work, counts)
}

#[unsafe(no_mangle)]
pub extern "C" fn mesh_record(numbers: &PacketNumbers, record: &mut [u64; 4]) -> u8
    ensures answer { result ≡ number_in (mesh_says (mesh_from numbers.now (pos 0) (pos 0))) }
    ensures record { «record».new ≡ left_by record_in «record».old (mesh_says (mesh_from numbers.now (pos 0) (pos 0))) }
{
    mesh_c::mesh_record(numbers, record)
}
