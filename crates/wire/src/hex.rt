// Hex text: read in either case, written in lower case.
ghost use Rattle.std.specs.Prelude.{◌≡◌, ◌%◌};
ghost use Rattle.wire.specs.Hex.{nibble_of, digit_of, pair_of, all_hex, unhex, hex_text};
ghost use Rattle.wire.specs.Lay.{put};

// The value of a digit, or 16 where the byte is none.
#[tactic(auto, unfolding(crate::specs::Hex::nibble_of))]
pub fn nibble(b: u8) -> u8
    ensures { result ≡ nibble_of b }
{
    match b {
        b'0'..=b'9' => b - b'0',
        b'A'..=b'F' => b - b'A' + 10,
        b'a'..=b'f' => b - b'a' + 10,
        _ => 16,
    }
}

// The digit of a byte's low four bits.
#[tactic(auto, unfolding(crate::specs::Hex::digit_of))]
pub fn digit(n: u8) -> u8
    ensures { result ≡ digit_of (n % 16) }
{
    let d = n % 16;
    if d < 10 { b'0' + d } else { b'a' + (d - 10) }
}

// The byte of two digits.
#[tactic(auto, unfolding(crate::specs::Hex::pair_of))]
fn pair(a: u8, b: u8) -> u8
    ensures { result ≡ pair_of a b }
{
    nibble(a) % 16 * 16 + nibble(b) % 16
}

// Whether every byte is a hex digit.
pub fn is_hex(s: &[u8]) -> bool
    ensures { result ≡ all_hex s.now }
{
    s.iter().all(|b| b.is_ascii_hexdigit())
}

// The bytes that pairs of digits stand for, at the front of out; an odd last digit is left over.
#[tactic(auto, using(crate::proofs::Laws::Lay::put_none, crate::proofs::Laws::Lay::laying_done, crate::proofs::Laws::Hex::unhex_length))]
pub fn read_hex(s: &[u8], out: &mut [u8])
    ensures { out.new ≡ put out.old 0 (unhex s.now) }
{
    let (pairs, _) = s.as_chunks::<2>();
    if out.len() < pairs.len() {
        return;
    }
    for (i, &[a, b]) in pairs.iter().enumerate() {
        out[i] = pair(a, b);
    }
}

// Two digits for each byte of src, from a place of out on.
#[tactic(auto, using(crate::proofs::Laws::Lay::put_none, crate::proofs::Laws::Lay::laying_done, crate::proofs::Laws::Hex::hex_length))]
pub fn write_hex(src: &[u8], out: &mut [u8], at: usize)
    ensures { out.new ≡ put out.old at (hex_text src.now) }
{
    if out.len() < at || (out.len() - at) / 2 < src.len() {
        return;
    }
    for (i, &b) in src.iter().enumerate() {
        out[at + 2 * i] = digit(b / 16);
        out[at + 2 * i + 1] = digit(b);
    }
}
