// Bytes laid into a lent buffer. A run that does not fit changes nothing, so every store is total.
ghost use Rattle.std.specs.Prelude.{◌≡◌};
ghost use Rattle.base.specs.Answers.{bytes, answer_of, out_of};
ghost use Rattle.wire.specs.Lay.{put};

use base::{Refusal, Written};

// The bytes of src from a place of out on.
#[tactic(auto, using(crate::proofs::Laws::Lay::put_none, crate::proofs::Laws::Lay::laying_done))]
pub fn put_all(src: &[u8], out: &mut [u8], at: usize)
    ensures { out.new ≡ put out.old at src.now }
{
    if out.len() < at || out.len() - at < src.len() {
        return;
    }
    // No copy_from_slice: it calls memmove, and the archive needs memcpy and memset alone (docs/LINKING.md).
    for (i, &b) in src.iter().enumerate() {
        out[at + i] = b;
    }
}

// All of src at the front of out, or 21.
pub fn emit(src: &[u8], out: &mut [u8]) -> Written
    ensures answer { result ≡ answer_of (bytes src.now) out.old }
    ensures bytes { out.new ≡ out_of (bytes src.now) out.old }
{
    if out.len() < src.len() {
        return Written::Refused(Refusal::OUTPUT_SHORT);
    }
    put_all(src, out, 0);
    Written::Bytes(src.len())
}
