// Any frame: a mesh frame where the first three bits are 111, and otherwise a LoRa frame, which is kept as it is.
ghost use Rattle.std.specs.Prelude.{◌≡◌};
ghost use Rattle.base.specs.Answers.{answer_of, out_of};
ghost use Rattle.packets.specs.Read.{packet_of};
ghost use Rattle.packets.specs.Write.{lora_frame, packet_frame};

use crate::mesh::{MeshPacket, MeshRead};
use base::{Limit, Refusal, Written};
use contents::Lent;
use fields::MHDR;
use wire::{Run, emit};

#[derive(Clone, Copy)]
pub enum Packet {
    Mesh(MeshPacket),
    Lora(Run),
}

#[derive(Clone, Copy)]
pub enum PacketRead {
    Packet(Packet),
    Refused(u8),
}

// A LoRa frame of the run's bytes: 45, 5, 21.
fn write_lora(run: Run, src: &[u8], out: &mut [u8]) -> Written
    ensures answer { result ≡ answer_of (lora_frame src.now run) out.old }
    ensures bytes { out.new ≡ out_of (lora_frame src.now run) out.old }
{
    let bad = run.refusal(src.len());
    if bad != 0 {
        return Written::Refused(bad);
    }
    if Limit::FRAME < run.len {
        return Written::Refused(Refusal::FRAME_LONG);
    }
    emit(run.bytes(src), out)
}

impl Packet {
    // It never answers 3: what is no mesh frame is a LoRa frame.
    pub fn from_slice(b: &[u8]) -> PacketRead
        ensures { result ≡ packet_of b.now }
    {
        let n = b.len();
        if n == 0 {
            return PacketRead::Refused(Refusal::FRAME_EMPTY);
        }
        if Limit::FRAME < n {
            return PacketRead::Refused(Refusal::FRAME_LONG);
        }
        if b[0] / 32 == MHDR::MARK {
            return match MeshPacket::from_slice(b) {
                MeshRead::Refused(k) => PacketRead::Refused(k),
                MeshRead::Mesh(p) => PacketRead::Packet(Packet::Mesh(p)),
            };
        }
        PacketRead::Packet(Packet::Lora(Run { start: 0, len: n }))
    }

    #[tactic(auto, unfolding(crate::specs::Write::packet_frame))]
    pub fn write(self, lent: &Lent, out: &mut [u8]) -> Written
        ensures answer { result ≡ answer_of (packet_frame lent.now self) out.old }
        ensures bytes { out.new ≡ out_of (packet_frame lent.now self) out.old }
    {
        match self {
            Packet::Mesh(p) => p.write(lent, out),
            Packet::Lora(run) => write_lora(run, lent.frame, out),
        }
    }
}
