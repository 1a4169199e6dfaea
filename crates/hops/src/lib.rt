// The hop edit, in the received buffer: header byte, an uplink's odd bits and the MIC are rewritten where they stand.
#![tactic(auto)]

ghost use Rattle.std.specs.Prelude.{◌≡◌, ◌≤◌, length, take};
ghost use Rattle.base.specs.Answers.{checked_of};
ghost use Rattle.fips197.specs.Aes.{aes};
ghost use Rattle.mic.specs.Mic.{mic_of};
ghost use Rattle.hops.specs.Hops.{hop_edit, leaves, recounted};
ghost use Rattle.hops.specs.inner.Steps.{is_uplink, mic_at, renewed, mic_laid, rewritten};

use base::Checked;
use cmac::cmac;
use fields::{HeaderByte, MHDR, PayloadType};
use keys::Aes128Key;
use packets::{MeshPacket, MeshRead};
use wire::{be32_bytes, be32_of, put_all};

fn is_uplink(t: PayloadType) -> bool
    ensures { result ≡ is_uplink t }
{
    match t {
        PayloadType::Uplink => true,
        PayloadType::Downlink => false,
        PayloadType::Event => false,
        PayloadType::Command => false,
    }
}

// The header with another count.
fn recounted(h: MHDR, hop_count: u8) -> MHDR
    ensures { result ≡ recounted h hop_count }
{
    let payload_type = h.payload_type;
    MHDR {
        payload_type,
        hop_count,
    }
}

// Where the MIC begins.
fn mic_at(frame: &[u8]) -> usize
    ensures { result ≡ mic_at frame.now }
{
    if frame.len() < 4 {
        return 0;
    }
    frame.len() - 4
}

// The header byte, and of an uplink the odd bits, which become 0.
fn renew(frame: &mut [u8], first: u8, up: bool)
    requires { 5 ≤ length frame.old }
    ensures { frame.new ≡ renewed first up frame.old }
{
    frame[0] = first;
    if up {
        frame[4] = frame[4] % 64;
    }
}

// The MIC over all that stands before a place.
fn mic_of(frame: &[u8], end: usize, key: Aes128Key) -> u32
    requires { end ≤ length frame.now }
    ensures { result ≡ mic_of (aes key.0) (take end frame.now) }
{
    let tag = cmac(key, &frame[..end]);
    be32_of(tag[0], tag[1], tag[2], tag[3])
}

fn lay_mic(frame: &mut [u8], end: usize, key: Aes128Key)
    requires { end ≤ length frame.old }
    ensures { frame.new ≡ mic_laid (aes key.0) end frame.old }
{
    let mic = be32_bytes(mic_of(frame, end, key));
    put_all(&mic, frame, end);
}

// All that changes, in a frame with a header byte before its MIC. It is signed last, as it stands from now on.
fn rewrite(frame: &mut [u8], first: u8, up: bool, key: Aes128Key)
    ensures { frame.new ≡ rewritten (aes key.0) first up (mic_at frame.old) frame.old }
{
    let end = mic_at(frame);
    if 0 < end {
        renew(frame, first, up);
        lay_mic(frame, end, key);
    }
}

// The reading order, then 6, 7. A refusal changes no byte.
pub fn set_hop_count(frame: &mut [u8], hop_count: u8, key: Aes128Key) -> Checked
    ensures answer { result ≡ checked_of (hop_edit (aes key.0) frame.old hop_count) }
    ensures bytes { frame.new ≡ leaves (hop_edit (aes key.0) frame.old hop_count) frame.old }
{
    match MeshPacket::from_slice(frame) {
        MeshRead::Refused(n) => Checked::Refused(n),
        MeshRead::Mesh(p) => {
            let received = p.mhdr;
            match recounted(received, hop_count).to_byte() {
                HeaderByte::Refused(n) => Checked::Refused(n),
                HeaderByte::Byte(first) => {
                    let t = received.payload_type;
                    rewrite(frame, first, is_uplink(t), key);
                    Checked::Accepted
                }
            }
        }
    }
}
