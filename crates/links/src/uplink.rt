// Uplink bodies: metadata, relay id, and the LoRa payload as a run.
ghost use Rattle.std.specs.Prelude.{◌≡◌};
ghost use Rattle.base.specs.Answers.{answer_of, out_of, checked_of, bytes_or};
ghost use Rattle.links.specs.Read.{uplink_at};
ghost use Rattle.links.specs.Write.{uplink_head, uplink_wire, limited_of, prefixed, with_mic};

use crate::emit::{write_body, write_frame};
use base::{Checked, Limit, Refusal, Written};
use fields::UplinkMetadata;
use wire::{Run, be32_bytes, be32_of};

#[derive(Clone, Copy)]
pub struct UplinkPayload {
    pub metadata: UplinkMetadata,
    pub relay_id: u32,
    pub phy_payload: Run,
}

#[derive(Clone, Copy)]
pub enum UplinkRead {
    Payload(UplinkPayload),
    Refused(u8),
}

#[derive(Clone, Copy)]
pub struct UplinkHead {
    pub answer: Checked,
    pub bytes: [u8; 9],
}

impl UplinkPayload {
    // The shortest body: metadata and relay id.
    pub const LEAST: usize = UplinkMetadata::LENGTH + 4;

    // A body that lies in its frame from byte `at` on.
    pub fn read_at(b: &[u8], at: u8) -> UplinkRead
        ensures { result ≡ uplink_at at b.now }
    {
        if Limit::BODY < b.len() {
            return UplinkRead::Refused(Refusal::FRAME_LONG);
        }
        if b.len() < UplinkPayload::LEAST {
            return UplinkRead::Refused(Refusal::BODY_SHORT);
        }
        UplinkRead::Payload(UplinkPayload {
            metadata: UplinkMetadata::from_bytes([b[0], b[1], b[2], b[3], b[4]]),
            relay_id: be32_of(b[5], b[6], b[7], b[8]),
            phy_payload: Run {
                start: UplinkPayload::LEAST + at as usize,
                len: b.len() - UplinkPayload::LEAST,
            },
        })
    }

    pub fn from_slice(b: &[u8]) -> UplinkRead
        ensures { result ≡ uplink_at 0 b.now }
    {
        UplinkPayload::read_at(b, 0)
    }

    // All that comes before the LoRa payload.
    pub fn head(self) -> UplinkHead
        ensures answer_value { result.answer ≡ checked_of (uplink_head self) }
        ensures bytes_value { result.bytes ≡ bytes_or 9 (uplink_head self) }
    {
        let m = self.metadata.to_bytes();
        let answer = m.answer;
        match answer {
            Checked::Refused(n) => UplinkHead {
                answer: Checked::Refused(n),
                bytes: [0u8; 9],
            },
            Checked::Accepted => {
                let b = m.bytes;
                let r = be32_bytes(self.relay_id);
                UplinkHead {
                    answer: Checked::Accepted,
                    bytes: [b[0], b[1], b[2], b[3], b[4], r[0], r[1], r[2], r[3]],
                }
            }
        }
    }

    // The body: 45, 8 to 13, 5, 21.
    pub fn write(self, src: &[u8], out: &mut [u8]) -> Written
        ensures answer { result ≡ answer_of (limited_of (uplink_wire src.now self)) out.old }
        ensures bytes { out.new ≡ out_of (limited_of (uplink_wire src.now self)) out.old }
    {
        let run = self.phy_payload;
        let bad = run.refusal(src.len());
        if bad != 0 {
            return Written::Refused(bad);
        }
        let h = self.head();
        let answer = h.answer;
        match answer {
            Checked::Refused(n) => Written::Refused(n),
            Checked::Accepted => {
                let b = h.bytes;
                write_body(&b, run.bytes(src), out)
            }
        }
    }

    // The frame around it, behind its header byte: 45, 8 to 13, 27, 5, 21.
    pub fn write_in(self, first: u8, has_mic: bool, mic: u32, src: &[u8], out: &mut [u8]) -> Written
        ensures answer { result ≡ answer_of (with_mic has_mic mic (prefixed first (uplink_wire src.now self))) out.old }
        ensures bytes { out.new ≡ out_of (with_mic has_mic mic (prefixed first (uplink_wire src.now self))) out.old }
    {
        let run = self.phy_payload;
        let bad = run.refusal(src.len());
        if bad != 0 {
            return Written::Refused(bad);
        }
        let h = self.head();
        let answer = h.answer;
        match answer {
            Checked::Refused(n) => Written::Refused(n),
            Checked::Accepted => {
                let b = h.bytes;
                write_frame(first, &b, run.bytes(src), has_mic, mic, out)
            }
        }
    }
}
