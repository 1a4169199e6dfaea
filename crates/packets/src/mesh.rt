// A mesh frame: header byte, body, four bytes of MIC. The MIC is its four bytes as one number, and a flag beside it says whether there is
// one. A header's type and the payload's kind are two things, as in the Rust: the header byte goes by the header, the body by the payload.
ghost use Rattle.std.specs.Prelude.{◌≡◌};
ghost use Rattle.base.specs.Answers.{answer_of, out_of};
ghost use Rattle.packets.specs.Read.{payload_at, mesh_of};
ghost use Rattle.packets.specs.Write.{payload_kinds, mesh_frame};

use base::{Limit, Refusal, Written};
use contents::Lent;
use events::{CommandPayload, CommandRead, EventPayload, EventRead};
use fields::{HeaderByte, HeaderRead, MHDR, PayloadType};
use links::{DownlinkPayload, DownlinkRead, UplinkPayload, UplinkRead};
use wire::be32_of;

#[derive(Clone, Copy)]
pub enum Payload {
    Uplink(UplinkPayload),
    Downlink(DownlinkPayload),
    Event(EventPayload),
    Command(CommandPayload),
}

#[derive(Clone, Copy)]
pub enum PayloadRead {
    Payload(Payload),
    Refused(u8),
}

#[derive(Clone, Copy)]
pub struct MeshPacket {
    pub mhdr: MHDR,
    pub payload: Payload,
    pub has_mic: bool,
    pub mic: u32,
}

#[derive(Clone, Copy)]
pub enum MeshRead {
    Mesh(MeshPacket),
    Refused(u8),
}

// The body, which lies in its frame from byte 1 on, by the reader of its type.
fn read_body(t: PayloadType, b: &[u8]) -> PayloadRead
    ensures { result ≡ payload_at t b.now }
{
    match t {
        PayloadType::Uplink => match UplinkPayload::read_at(b, 1) {
            UplinkRead::Payload(p) => PayloadRead::Payload(Payload::Uplink(p)),
            UplinkRead::Refused(n) => PayloadRead::Refused(n),
        },
        PayloadType::Downlink => match DownlinkPayload::read_at(b, 1) {
            DownlinkRead::Payload(p) => PayloadRead::Payload(Payload::Downlink(p)),
            DownlinkRead::Refused(n) => PayloadRead::Refused(n),
        },
        PayloadType::Event => match EventPayload::read_at(b, 1) {
            EventRead::Payload(p) => PayloadRead::Payload(Payload::Event(p)),
            EventRead::Refused(n) => PayloadRead::Refused(n),
        },
        PayloadType::Command => match CommandPayload::read_at(b, 1) {
            CommandRead::Payload(p) => PayloadRead::Payload(Payload::Command(p)),
            CommandRead::Refused(n) => PayloadRead::Refused(n),
        },
    }
}

impl Payload {
    // 29 where a composed item's kind is none, or is no value in a command; otherwise 0.
    #[tactic(auto, unfolding(crate::specs::Write::payload_kinds))]
    pub fn kinds_refusal(self, lent: &Lent) -> u8
        ensures { result ≡ payload_kinds lent.now.lists.kinds lent.now.lists.spans self }
    {
        match self {
            Payload::Uplink(_) => 0,
            Payload::Downlink(_) => 0,
            Payload::Event(p) => {
                let b = p.events;
                b.kinds_refusal(true, &lent.lists)
            }
            Payload::Command(p) => {
                let b = p.commands;
                b.kinds_refusal(false, &lent.lists)
            }
        }
    }
}

impl MeshPacket {
    // Header byte and MIC.
    pub const LEAST: usize = 5;

    pub fn from_slice(frame: &[u8]) -> MeshRead
        ensures { result ≡ mesh_of frame.now }
    {
        let n = frame.len();
        if n == 0 {
            return MeshRead::Refused(Refusal::FRAME_EMPTY);
        }
        if Limit::FRAME < n {
            return MeshRead::Refused(Refusal::FRAME_LONG);
        }
        if n < MeshPacket::LEAST {
            return MeshRead::Refused(Refusal::FRAME_SHORT);
        }
        match MHDR::from_byte(frame[0]) {
            HeaderRead::Refused(k) => MeshRead::Refused(k),
            HeaderRead::Header(mhdr) => {
                let end = n - 4;
                let t = mhdr.payload_type;
                match read_body(t, &frame[1..end]) {
                    PayloadRead::Refused(k) => MeshRead::Refused(k),
                    PayloadRead::Payload(payload) => MeshRead::Mesh(MeshPacket {
                        mhdr,
                        payload,
                        has_mic: true,
                        mic: be32_of(frame[end], frame[end + 1], frame[end + 2], frame[end + 3]),
                    }),
                }
            }
        }
    }

    // What is lent holds the payload: runs in the frame or the work buffer, composed items in the lists. 29, 6, 7, 45, body fields, 19, 20,
    // 27, 5, 21.
    pub fn write(self, lent: &Lent, out: &mut [u8]) -> Written
        ensures answer { result ≡ answer_of (mesh_frame lent.now self) out.old }
        ensures bytes { out.new ≡ out_of (mesh_frame lent.now self) out.old }
    {
        let mhdr = self.mhdr;
        let payload = self.payload;
        let has_mic = self.has_mic;
        let mic = self.mic;
        let strange = payload.kinds_refusal(lent);
        if strange != 0 {
            return Written::Refused(strange);
        }
        match mhdr.to_byte() {
            HeaderByte::Refused(n) => Written::Refused(n),
            HeaderByte::Byte(b) => match payload {
                Payload::Uplink(p) => p.write_in(b, has_mic, mic, lent.frame, out),
                Payload::Downlink(p) => p.write_in(b, has_mic, mic, lent.frame, out),
                Payload::Event(p) => p.write_in(b, has_mic, mic, lent, out),
                Payload::Command(p) => p.write_in(b, has_mic, mic, lent, out),
            },
        }
    }
}
