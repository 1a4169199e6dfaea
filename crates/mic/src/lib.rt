// A packet signed and validated. The message goes to CMAC in pieces, as it would be written; nothing of it is laid out.
#![tactic(auto)]

ghost use Rattle.std.specs.Prelude.{◌≡◌, ◌∷◌, ◌++◌, take};
ghost use Rattle.base.specs.Answers.{bytes};
ghost use Rattle.wire.specs.Number.{be_of};
ghost use Rattle.fips197.specs.Aes.{aes};
ghost use Rattle.contents.specs.Content.{content_wire};
ghost use Rattle.links.specs.Write.{prefixed, uplink_wire, downlink_wire, headed_by};
ghost use Rattle.mic.specs.Mic.{fitting, signed_of, set_mic, validate_mic};
ghost use Rattle.mic.specs.inner.Made.{made_of};

mod absorb;

use absorb::absorb_content;
use base::{Checked, Limit, Refusal};
use cipher::prepare;
use cmac::{absorb, finish};
use cmac_chain::Mac;
use contents::{Content, Lent};
use fields::HeaderByte;
use keys::Aes128Key;
use links::{DownlinkPayload, UplinkPayload};
use packets::{MeshPacket, MeshRead, Payload};
use wire::be32_of;

#[derive(Clone, Copy)]
pub enum Validated {
    Valid,
    Invalid,
    Refused(u8),
}

#[derive(Clone, Copy)]
enum Made {
    Mic(u32),
    Refused(u8),
}

// The first four bytes of a tag.
fn number(tag: [u8; 16]) -> u32
    ensures { result ≡ be_of (take 4 tag) }
{
    be32_of(tag[0], tag[1], tag[2], tag[3])
}

// A head and a run behind the header byte, or 5.
fn sign_run(key: Aes128Key, first: u8, head: &[u8], payload: &[u8]) -> Made
    ensures { result ≡ made_of (aes key.0) (fitting (bytes (first ∷ (head.now ++ payload.now)))) }
{
    if Limit::BODY < head.len() + payload.len() {
        return Made::Refused(Refusal::FRAME_LONG);
    }
    let e = prepare(key);
    let byte = [first];
    let m = absorb(absorb(Mac::start(), &e, &byte), &e, head);
    let all = absorb(m, &e, payload);
    Made::Mic(number(finish(all, &e)))
}

fn sign_uplink(p: UplinkPayload, key: Aes128Key, first: u8, frame: &[u8]) -> Made
    ensures { result ≡ made_of (aes key.0) (fitting (prefixed first (uplink_wire frame.now p))) }
{
    let run = p.phy_payload;
    let bad = run.refusal(frame.len());
    if bad != 0 {
        return Made::Refused(bad);
    }
    let h = p.head();
    let answer = h.answer;
    match answer {
        Checked::Refused(n) => Made::Refused(n),
        Checked::Accepted => {
            let b = h.bytes;
            sign_run(key, first, &b, run.bytes(frame))
        }
    }
}

fn sign_downlink(p: DownlinkPayload, key: Aes128Key, first: u8, frame: &[u8]) -> Made
    ensures { result ≡ made_of (aes key.0) (fitting (prefixed first (downlink_wire frame.now p))) }
{
    let run = p.phy_payload;
    let bad = run.refusal(frame.len());
    if bad != 0 {
        return Made::Refused(bad);
    }
    let h = p.head();
    let answer = h.answer;
    match answer {
        Checked::Refused(n) => Made::Refused(n),
        Checked::Accepted => {
            let b = h.bytes;
            sign_run(key, first, &b, run.bytes(frame))
        }
    }
}

// A head and an event's or a command's content behind the header byte: 29, 45, path entries, 19, 20, 5.
fn sign_content(
    key: Aes128Key,
    first: u8,
    head: &[u8],
    content: Content,
    is_event: bool,
    lent: &Lent,
) -> Made
    ensures { result ≡ made_of (aes key.0) (fitting (prefixed first (headed_by head.now (content_wire is_event lent.now content)))) }
{
    let bad = content.refusal(is_event, lent);
    if bad != 0 {
        return Made::Refused(bad);
    }
    let n = content.size(is_event, lent);
    if Limit::FRAME < n {
        return Made::Refused(Refusal::FRAME_LONG);
    }
    if Limit::BODY < head.len() + n {
        return Made::Refused(Refusal::FRAME_LONG);
    }
    let e = prepare(key);
    let byte = [first];
    let m = absorb(absorb(Mac::start(), &e, &byte), &e, head);
    let all = absorb_content(m, &e, content, is_event, lent);
    Made::Mic(number(finish(all, &e)))
}

// 29, 6, 7, 45, body fields, 19, 20, 5.
fn make(p: MeshPacket, key: Aes128Key, lent: &Lent) -> Made
    ensures { result ≡ made_of (aes key.0) (signed_of lent.now p) }
{
    let mhdr = p.mhdr;
    let payload = p.payload;
    let strange = payload.kinds_refusal(lent);
    if strange != 0 {
        return Made::Refused(strange);
    }
    match mhdr.to_byte() {
        HeaderByte::Refused(n) => Made::Refused(n),
        HeaderByte::Byte(b) => match payload {
            Payload::Uplink(u) => sign_uplink(u, key, b, lent.frame),
            Payload::Downlink(u) => sign_downlink(u, key, b, lent.frame),
            Payload::Event(u) => {
                let head = u.head();
                let content = u.events;
                sign_content(key, b, &head, content, true, lent)
            }
            Payload::Command(u) => {
                let head = u.head();
                let content = u.commands;
                sign_content(key, b, &head, content, false, lent)
            }
        },
    }
}

// The packet with the MIC that its header and body have under a signing key. What is lent holds its payload, as when it is written.
pub fn set_mic(p: MeshPacket, key: Aes128Key, lent: &Lent) -> MeshRead
    ensures { result ≡ set_mic (aes key.0) lent.now p }
{
    let mhdr = p.mhdr;
    let payload = p.payload;
    match make(p, key, lent) {
        Made::Refused(n) => MeshRead::Refused(n),
        Made::Mic(mic) => MeshRead::Mesh(MeshPacket {
            mhdr,
            payload,
            has_mic: true,
            mic,
        }),
    }
}

// 29, 27, then as signing.
pub fn validate_mic(p: MeshPacket, key: Aes128Key, lent: &Lent) -> Validated
    ensures { result ≡ validate_mic (aes key.0) lent.now p }
{
    let payload = p.payload;
    let strange = payload.kinds_refusal(lent);
    if strange != 0 {
        return Validated::Refused(strange);
    }
    if !p.has_mic {
        return Validated::Refused(Refusal::MIC_MISSING);
    }
    match make(p, key, lent) {
        Made::Refused(n) => Validated::Refused(n),
        Made::Mic(mic) => {
            if p.mic == mic {
                Validated::Valid
            } else {
                Validated::Invalid
            }
        }
    }
}
