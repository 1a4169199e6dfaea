// The text of a frame: of a mesh frame its fields in brackets, of a LoRa frame its length, and of any other the refusal's number. The
// fixed words are byte strings.
ghost use Rattle.std.specs.Prelude.{◌≡◌, length, ◌+◌, ◌≤◌};
ghost use Rattle.base.specs.Answers.{bytes, answer_of, out_of};
ghost use Rattle.wire.specs.Lay.{put};
ghost use Rattle.dump.specs.Dump.{label_of, four_text, odd_text, with_number, refused_text, line_of, link_text, stamped_text, mesh_text, frame_text};

use crate::digits::{put_decimal, width};
use base::{Refusal, Written};
use fields::PayloadType;
use packets::{MeshPacket, Packet, PacketRead, Payload};
use wire::{be32_bytes, put_all, write_hex};

// A word and a number, or 21.
fn write_counted(word: &[u8], n: u32, out: &mut [u8]) -> Written
    requires { length word.now ≤ 8 }
    ensures answer { result ≡ answer_of (bytes (with_number word.now n)) out.old }
    ensures bytes { out.new ≡ out_of (bytes (with_number word.now n)) out.old }
{
    let a = word.len();
    let b = a + width(n);
    if out.len() < b {
        return Written::Refused(Refusal::OUTPUT_SHORT);
    }
    put_all(word, out, 0);
    put_decimal(n, out, a);
    Written::Bytes(b)
}

// `refused` and the number, or 21.
pub fn write_refused(n: u8, out: &mut [u8]) -> Written
    ensures answer { result ≡ answer_of (bytes (refused_text n)) out.old }
    ensures bytes { out.new ≡ out_of (bytes (refused_text n)) out.old }
{
    write_counted(b"refused ", n as u32, out)
}

// How a mesh frame's text begins, by the header's type.
#[tactic(auto, unfolding(crate::specs::Dump::label_of))]
fn label(t: PayloadType) -> &'static [u8]
    ensures value { result.now ≡ label_of t }
    ensures upper_bound { length result.now ≤ 21 }
{
    match t {
        PayloadType::Uplink => b"[Uplink hop_count: ",
        PayloadType::Downlink => b"[Downlink hop_count: ",
        PayloadType::Event => b"[Event hop_count: ",
        PayloadType::Command => b"[Command hop_count: ",
    }
}

// Four bytes, kept as one number, in hex.
fn put_four(n: u32, out: &mut [u8], at: usize)
    ensures { out.new ≡ put out.old at (four_text n) }
{
    write_hex(&be32_bytes(n), out, at)
}

// Odd bits are told where there are some, and no more than two.
#[tactic(auto, unfolding(crate::specs::Dump::odd_text))]
fn odd_text(odd: u8) -> &'static [u8]
    ensures value { result.now ≡ odd_text odd }
    ensures upper_bound { length result.now ≤ 7 }
{
    match odd {
        1 => b" odd: 1",
        2 => b" odd: 2",
        3 => b" odd: 3",
        _ => b"",
    }
}

// Label and hop count, a word and its number, the relay id and what follows it, odd bits, one after the other, and last the closing bracket;
// or 21.
fn write_line(
    t: PayloadType,
    hops: u32,
    word: &[u8],
    n: u32,
    relay: u32,
    tail: &[u8],
    odd: u8,
    out: &mut [u8],
) -> Written
    requires { length word.now + length tail.now ≤ 64 }
    ensures answer { result ≡ answer_of (bytes (line_of t hops word.now n relay tail.now odd)) out.old }
    ensures bytes { out.new ≡ out_of (bytes (line_of t hops word.now n relay tail.now odd)) out.old }
{
    let label = label(t);
    let a = label.len();
    let b = a + width(hops);
    let c = b + word.len();
    let d = c + width(n);
    let e = d + 12;
    let f = e + 8;
    let g = f + tail.len();
    let told = odd_text(odd);
    let h = g + told.len();
    let end = h + 1;
    if out.len() < end {
        return Written::Refused(Refusal::OUTPUT_SHORT);
    }
    put_all(label, out, 0);
    put_decimal(hops, out, a);
    put_all(word, out, b);
    put_decimal(n, out, c);
    put_all(b", relay_id: ", out, d);
    put_four(relay, out, e);
    put_all(tail, out, f);
    put_all(told, out, g);
    put_all(b"]", out, h);
    Written::Bytes(end)
}

// Uplinks and downlinks.
fn write_link(
    t: PayloadType,
    hops: u8,
    id: u16,
    relay: u32,
    has_mic: bool,
    mic: u32,
    odd: u8,
    out: &mut [u8],
) -> Written
    ensures answer { result ≡ answer_of (bytes (link_text t hops id relay has_mic mic odd)) out.old }
    ensures bytes { out.new ≡ out_of (bytes (link_text t hops id relay has_mic mic odd)) out.old }
{
    if !has_mic {
        return write_line(
            t,
            hops as u32,
            b", uplink_id: ",
            id as u32,
            relay,
            b", mic: ",
            odd,
            out,
        );
    }
    let mut tail = [0u8; 15];
    put_all(b", mic: ", &mut tail, 0);
    put_four(mic, &mut tail, 7);
    write_line(
        t,
        hops as u32,
        b", uplink_id: ",
        id as u32,
        relay,
        &tail,
        odd,
        out,
    )
}

// Events and commands.
fn write_stamped(t: PayloadType, hops: u8, timestamp: u32, relay: u32, out: &mut [u8]) -> Written
    ensures answer { result ≡ answer_of (bytes (stamped_text t hops timestamp relay)) out.old }
    ensures bytes { out.new ≡ out_of (bytes (stamped_text t hops timestamp relay)) out.old }
{
    write_line(
        t,
        hops as u32,
        b", timestamp: ",
        timestamp,
        relay,
        b"",
        0,
        out,
    )
}

// The text of a packet in hand (the Rust's Display), or 21. The label goes by the header, the fields by the payload, as in the Rust.
#[inline(always)]
#[tactic(auto, unfolding(crate::specs::Dump::mesh_text))]
pub fn write_text(packet: MeshPacket, out: &mut [u8]) -> Written
    ensures answer { result ≡ answer_of (bytes (mesh_text packet)) out.old }
    ensures bytes { out.new ≡ out_of (bytes (mesh_text packet)) out.old }
{
    let mhdr = packet.mhdr;
    let t = mhdr.payload_type;
    let hops = mhdr.hop_count;
    let has = packet.has_mic;
    let mic = packet.mic;
    let payload = packet.payload;
    match payload {
        Payload::Uplink(u) => {
            let m = u.metadata;
            write_link(t, hops, m.uplink_id, u.relay_id, has, mic, m.odd, out)
        }
        Payload::Downlink(d) => {
            write_link(t, hops, d.metadata.uplink_id, d.relay_id, has, mic, 0, out)
        }
        Payload::Event(e) => write_stamped(t, hops, e.timestamp, e.relay_id, out),
        Payload::Command(c) => write_stamped(t, hops, c.timestamp, c.relay_id, out),
    }
}

// The text of a frame at the front of out, or 21.
pub fn dump_frame(frame: &[u8], out: &mut [u8]) -> Written
    ensures answer { result ≡ answer_of (bytes (frame_text frame.now)) out.old }
    ensures bytes { out.new ≡ out_of (bytes (frame_text frame.now)) out.old }
{
    match Packet::from_slice(frame) {
        PacketRead::Refused(n) => write_refused(n, out),
        PacketRead::Packet(p) => match p {
            Packet::Lora(run) => write_counted(b"lora ", run.len as u32, out),
            Packet::Mesh(m) => write_text(m, out),
        },
    }
}
