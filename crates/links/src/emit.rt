// Writing what is good: a head and a payload, for a body, and with the header byte before them and the MIC behind for a frame.
ghost use Rattle.std.specs.Prelude.{◌≡◌, ◌∷◌, ◌++◌, ◌+◌, ◌≤◌, length};
ghost use Rattle.base.specs.Answers.{bytes, answer_of, out_of};
ghost use Rattle.links.specs.Write.{limited, with_mic};

use base::{Limit, Refusal, Written};
use wire::{be32_bytes, put_all};

// Four runs one after the other at the front of out, or 21.
fn emit(a: &[u8], b: &[u8], c: &[u8], d: &[u8], out: &mut [u8]) -> Written
    requires { length a.now + length b.now + length c.now + length d.now ≤ 8192 }
    ensures answer { result ≡ answer_of (bytes (a.now ++ b.now ++ c.now ++ d.now)) out.old }
    ensures bytes { out.new ≡ out_of (bytes (a.now ++ b.now ++ c.now ++ d.now)) out.old }
{
    let p = a.len();
    let q = p + b.len();
    let r = q + c.len();
    let n = r + d.len();
    if out.len() < n {
        return Written::Refused(Refusal::OUTPUT_SHORT);
    }
    put_all(a, out, 0);
    put_all(b, out, p);
    put_all(c, out, q);
    put_all(d, out, r);
    Written::Bytes(n)
}

// A body: 5 where its frame would be too long, then 21.
pub fn write_body(head: &[u8], payload: &[u8], out: &mut [u8]) -> Written
    ensures answer { result ≡ answer_of (limited (head.now ++ payload.now)) out.old }
    ensures bytes { out.new ≡ out_of (limited (head.now ++ payload.now)) out.old }
{
    if Limit::BODY < head.len() + payload.len() {
        return Written::Refused(Refusal::FRAME_LONG);
    }
    let none = [0u8; 0];
    emit(&none, head, payload, &none, out)
}

// A frame: 27 without a MIC, then 5, then 21.
pub fn write_frame(
    first: u8,
    head: &[u8],
    payload: &[u8],
    has_mic: bool,
    mic: u32,
    out: &mut [u8],
) -> Written
    ensures answer { result ≡ answer_of (with_mic has_mic mic (bytes (first ∷ (head.now ++ payload.now)))) out.old }
    ensures bytes { out.new ≡ out_of (with_mic has_mic mic (bytes (first ∷ (head.now ++ payload.now)))) out.old }
{
    if !has_mic {
        return Written::Refused(Refusal::MIC_MISSING);
    }
    if Limit::BODY < head.len() + payload.len() {
        return Written::Refused(Refusal::FRAME_LONG);
    }
    let byte = [first];
    let last = be32_bytes(mic);
    emit(&byte, head, payload, &last, out)
}
