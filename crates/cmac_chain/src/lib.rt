// What CMAC (RFC 4493) does beside its cipher: the doubling that makes subkeys, and bytes added to the block in hand. It calls no cipher, and
// what is proved of it holds for any.
#![tactic(auto)]

ghost use Rattle.std.specs.Prelude.{◌≡◌, ◌+◌, ◌*◌, ◌/◌, ◌%◌, take};
ghost use mathlib.Core.List.{foldl};
ghost use Rattle.base.specs.Lists.{added};
ghost use Rattle.cmac_chain.specs.Cmac.{shl, shifted, doubled};
ghost use Rattle.cmac_chain.specs.inner.State.{begun, fill1};

use std::array;

// A byte of a block that is shifted left by a bit: `b` is the byte after `a`.
fn shl(a: u8, b: u8) -> u8
    ensures { result ≡ shl a b }
{
    a % 128 * 2 + b / 128
}

fn shift(l: [u8; 16]) -> [u8; 16]
    ensures { result ≡ shifted l }
{
    array::from_fn(move |i| shl(l[i], if i < 15 { l[i + 1] } else { 0 }))
}

// Section 2.3, steps 2 and 3: what makes K1 of the enciphered zeros, and K2 of K1.
pub fn double(l: [u8; 16]) -> [u8; 16]
    ensures { result ≡ doubled l }
{
    let mut s = shift(l);
    if 128 <= l[0] {
        s[15] ^= 0x87;
    }
    s
}

// The first 16 bytes of `s`, or as many as it has, added to `x`.
pub fn add(x: [u8; 16], s: &[u8]) -> [u8; 16]
    ensures { result ≡ added x (take 16 s.now) }
{
    // By index: of what a `zip` over `iter_mut` has written nothing is known after it.
    let mut y = x;
    for i in 0..s.len().min(16) {
        y[i] ^= s[i];
    }
    y
}

// A tag that is being made: the chain's block with the bytes of the block in hand added to it, and their count. Any value is one: a count
// over 16 is taken as a full block.
#[derive(Clone, Copy)]
pub struct Mac {
    pub x: [u8; 16],
    pub count: usize,
}

impl Mac {
    #[tactic(auto, unfolding(crate::specs::inner::State::begun, crate::specs::Cmac::zeros))]
    pub fn start() -> Mac
        ensures { result ≡ begun }
    {
        Mac {
            x: [0u8; 16],
            count: 0,
        }
    }

    // Bytes of `s` into the block in hand, until it is full or they end.
    pub fn fill(self, s: &[u8]) -> Mac
        ensures { result ≡ foldl fill1 self s.now }
    {
        // A `fold` over a step for one byte took half as long again for the tag of a block.
        let room = 16usize.saturating_sub(self.count);
        let mut m = self;
        for b in &s[..s.len().min(room)] {
            m.x[m.count] ^= *b;
            m.count += 1;
        }
        m
    }
}
