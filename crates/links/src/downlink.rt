// Downlink bodies: metadata, relay id, and the LoRa payload as a run.
ghost use Rattle.std.specs.Prelude.{◌≡◌};
ghost use Rattle.base.specs.Answers.{answer_of, out_of, checked_of, bytes_or};
ghost use Rattle.links.specs.Read.{downlink_at};
ghost use Rattle.links.specs.Write.{downlink_head, downlink_wire, limited_of, prefixed, with_mic};

use crate::emit::{write_body, write_frame};
use base::{Checked, Limit, Refusal, Written};
use fields::DownlinkMetadata;
use wire::{Run, be32_bytes, be32_of};

#[derive(Clone, Copy)]
pub struct DownlinkPayload {
    pub metadata: DownlinkMetadata,
    pub relay_id: u32,
    pub phy_payload: Run,
}

#[derive(Clone, Copy)]
pub enum DownlinkRead {
    Payload(DownlinkPayload),
    Refused(u8),
}

#[derive(Clone, Copy)]
pub struct DownlinkHead {
    pub answer: Checked,
    pub bytes: [u8; 10],
}

impl DownlinkPayload {
    // The shortest body.
    pub const LEAST: usize = DownlinkMetadata::LENGTH + 4;

    // A body that lies in its frame from byte `at` on.
    pub fn read_at(b: &[u8], at: u8) -> DownlinkRead
        ensures { result ≡ downlink_at at b.now }
    {
        if Limit::BODY < b.len() {
            return DownlinkRead::Refused(Refusal::FRAME_LONG);
        }
        if b.len() < DownlinkPayload::LEAST {
            return DownlinkRead::Refused(Refusal::BODY_SHORT);
        }
        DownlinkRead::Payload(DownlinkPayload {
            metadata: DownlinkMetadata::from_bytes([b[0], b[1], b[2], b[3], b[4], b[5]]),
            relay_id: be32_of(b[6], b[7], b[8], b[9]),
            phy_payload: Run {
                start: DownlinkPayload::LEAST + at as usize,
                len: b.len() - DownlinkPayload::LEAST,
            },
        })
    }

    pub fn from_slice(b: &[u8]) -> DownlinkRead
        ensures { result ≡ downlink_at 0 b.now }
    {
        DownlinkPayload::read_at(b, 0)
    }

    // All that comes before the LoRa payload.
    pub fn head(self) -> DownlinkHead
        ensures answer_value { result.answer ≡ checked_of (downlink_head self) }
        ensures bytes_value { result.bytes ≡ bytes_or 10 (downlink_head self) }
    {
        let m = self.metadata.to_bytes();
        let answer = m.answer;
        match answer {
            Checked::Refused(n) => DownlinkHead {
                answer: Checked::Refused(n),
                bytes: [0u8; 10],
            },
            Checked::Accepted => {
                let b = m.bytes;
                let r = be32_bytes(self.relay_id);
                DownlinkHead {
                    answer: Checked::Accepted,
                    bytes: [b[0], b[1], b[2], b[3], b[4], b[5], r[0], r[1], r[2], r[3]],
                }
            }
        }
    }

    // The body: 45, 8, 9, 14 to 18, 38, 5, 21.
    pub fn write(self, src: &[u8], out: &mut [u8]) -> Written
        ensures answer { result ≡ answer_of (limited_of (downlink_wire src.now self)) out.old }
        ensures bytes { out.new ≡ out_of (limited_of (downlink_wire src.now self)) out.old }
    {
        let run = self.phy_payload;
        let bad = run.refusal(src.len());
        if bad != 0 {
            return Written::Refused(bad);
        }
        let h = self.head();
        let answer = h.answer;
        match answer {
            Checked::Refused(n) => Written::Refused(n),
            Checked::Accepted => {
                let b = h.bytes;
                write_body(&b, run.bytes(src), out)
            }
        }
    }

    // The frame around it, behind its header byte: 45, 8, 9, 14 to 18, 38, 27, 5, 21.
    pub fn write_in(self, first: u8, has_mic: bool, mic: u32, src: &[u8], out: &mut [u8]) -> Written
        ensures answer { result ≡ answer_of (with_mic has_mic mic (prefixed first (downlink_wire src.now self))) out.old }
        ensures bytes { out.new ≡ out_of (with_mic has_mic mic (prefixed first (downlink_wire src.now self))) out.old }
    {
        let run = self.phy_payload;
        let bad = run.refusal(src.len());
        if bad != 0 {
            return Written::Refused(bad);
        }
        let h = self.head();
        let answer = h.answer;
        match answer {
            Checked::Refused(n) => Written::Refused(n),
            Checked::Accepted => {
                let b = h.bytes;
                write_frame(first, &b, run.bytes(src), has_mic, mic, out)
            }
        }
    }
}
