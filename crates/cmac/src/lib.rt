// AES-CMAC (RFC 4493), of a whole message or of one that comes in pieces, which may end anywhere.
#![tactic(auto)]

ghost use Rattle.std.specs.Prelude.{◌≡◌};
ghost use mathlib.Core.List.{foldl};
ghost use Rattle.fips197.specs.Aes.{aes};
ghost use Rattle.cipher.specs.inner.Words.{enciphered};
ghost use Rattle.cmac_chain.specs.Cmac.{k1, k2, tag};
ghost use Rattle.cmac_chain.specs.inner.State.{absorb1, finished};

use cipher::{Cipher, encipher, prepare};
use cmac_chain::{Mac, add, double};
use keys::Aes128Key;

// Section 2.3's K1, for a last block that is whole.
#[tactic(auto, unfolding(cmac_chain::specs::Cmac::k1, cmac_chain::specs::Cmac::zeros))]
pub fn subkey1(e: &Cipher) -> [u8; 16]
    ensures { result ≡ k1 (enciphered e.now) }
{
    double(encipher(e, [0u8; 16]))
}

// Section 2.3's K2, for a last block that is padded.
#[tactic(auto, unfolding(cmac_chain::specs::Cmac::k2))]
pub fn subkey2(e: &Cipher) -> [u8; 16]
    ensures { result ≡ k2 (enciphered e.now) }
{
    double(subkey1(e))
}

// The next bytes of the message. A full block stays in hand until more bytes come, as it may be the last.
pub fn absorb(m: Mac, e: &Cipher, s: &[u8]) -> Mac
    ensures { result ≡ foldl (absorb1 (enciphered e.now)) m s.now }
{
    let (head, rest) = s.split_at(s.len().min(16usize.saturating_sub(m.count)));
    let mut a = m.fill(head);
    for block in rest.chunks(16) {
        a = Mac {
            x: add(encipher(e, a.x), block),
            count: block.len(),
        };
    }
    a
}

// The tag of all that was absorbed. It works out only the subkey that it uses.
pub fn finish(m: Mac, e: &Cipher) -> [u8; 16]
    ensures { result ≡ finished (enciphered e.now) m }
{
    let count = m.count;
    let mut x = m.x;
    if count < 16 {
        x[count] ^= 0x80;
        let k2 = subkey2(e);
        return encipher(e, add(x, &k2));
    }
    let k1 = subkey1(e);
    encipher(e, add(x, &k1))
}

// The tag of `s`, by section 2.4 over the cipher that is lent.
pub fn tag(e: &Cipher, s: &[u8]) -> [u8; 16]
    ensures { result ≡ tag (enciphered e.now) s.now }
{
    finish(absorb(Mac::start(), e, s), e)
}

// The same under a key, over the cipher of FIPS 197.
pub fn cmac(key: Aes128Key, s: &[u8]) -> [u8; 16]
    ensures { result ≡ tag (aes key.0) s.now }
{
    let e = prepare(key);
    tag(&e, s)
}
