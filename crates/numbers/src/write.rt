// The packet that numbers stand for, written.
ghost use Rattle.std.specs.Prelude.{◌≡◌};
ghost use Rattle.base.specs.Answers.{answer_of, out_of};
ghost use Rattle.contents.specs.Content.{lent};
ghost use Rattle.links.specs.Write.{uplink_wire, prefixed, with_mic};
ghost use Rattle.numbers.specs.Numbers.{numbers_frame};

use crate::PacketNumbers;
use crate::back::{packet_of, to_type, to_u8, to_u32, too_wide, uplink_of};
use base::{Checked, Refusal, Written};
use contents::Lent;
use fields::{HeaderByte, MHDR, PayloadType, TypeRead};
use links::{UplinkPayload, write_frame};
use packets::PacketRead;

// As `UplinkPayload::write_in`. That has a caller in `packets` too, so the compiler keeps it as a call of its own, and lays the payload out in
// memory for it; this one it takes into its caller.
fn write_in(
    u: UplinkPayload,
    first: u8,
    has_mic: bool,
    mic: u32,
    src: &[u8],
    out: &mut [u8],
) -> Written
    ensures answer { result ≡ answer_of (with_mic has_mic mic (prefixed first (uplink_wire src.now u))) out.old }
    ensures bytes { out.new ≡ out_of (with_mic has_mic mic (prefixed first (uplink_wire src.now u))) out.old }
{
    let run = u.phy_payload;
    let bad = run.refusal(src.len());
    if bad != 0 {
        return Written::Refused(bad);
    }
    let h = u.head();
    let answer = h.answer;
    match answer {
        Checked::Refused(n) => Written::Refused(n),
        Checked::Accepted => {
            let b = h.bytes;
            write_frame(first, &b, run.bytes(src), has_mic, mic, out)
        }
    }
}

fn write_any(numbers: &PacketNumbers, rssi: i16, snr: i8, lent: &Lent, out: &mut [u8]) -> Written
    ensures answer { result ≡ answer_of (numbers_frame lent.now numbers.now rssi snr) out.old }
    ensures out { out.new ≡ out_of (numbers_frame lent.now numbers.now rssi snr) out.old }
{
    match packet_of(numbers, rssi, snr) {
        PacketRead::Refused(n) => Written::Refused(n),
        PacketRead::Packet(p) => p.write(lent, out),
    }
}

// 29, then in the order of writing. An uplink is written straight from its numbers: as a packet it would be built in memory and taken
// apart again. The seven slices stay apart for it: laid out as one struct before, they cost an uplink a fifth (28 ns for 23).
pub fn write_numbers<'a>(
    numbers: &PacketNumbers,
    rssi: i16,
    snr: i8,
    frame: &'a [u8],
    work: &'a [u8],
    kinds: &[[u8; 2]],
    spans: &[[u32; 2]],
    ids: &[u32],
    rssis: &[i16],
    snrs: &[i8],
    out: &mut [u8],
) -> Written
    ensures answer { result ≡ answer_of (numbers_frame (lent frame.now work.now kinds.now spans.now ids.now rssis.now snrs.now) numbers.now rssi snr) out.old }
    ensures out { out.new ≡ out_of (numbers_frame (lent frame.now work.now kinds.now spans.now ids.now rssis.now snrs.now) numbers.now rssi snr) out.old }
{
    if numbers[0] != PayloadType::UPLINK as u64 {
        let lent = Lent::of(frame, work, kinds, spans, ids, rssis, snrs);
        return write_any(numbers, rssi, snr, &lent, out);
    }
    if too_wide(numbers) {
        return Written::Refused(Refusal::TYPE_LARGE);
    }
    match to_type(numbers[1]) {
        TypeRead::Refused(n) => Written::Refused(n),
        TypeRead::Kind(payload_type) => {
            let mhdr = MHDR {
                payload_type,
                hop_count: to_u8(numbers[2]),
            };
            match mhdr.to_byte() {
                HeaderByte::Refused(n) => Written::Refused(n),
                HeaderByte::Byte(b) => write_in(
                    uplink_of(numbers, rssi, snr),
                    b,
                    numbers[3] != 0,
                    to_u32(numbers[4]),
                    frame,
                    out,
                ),
            }
        }
    }
}
