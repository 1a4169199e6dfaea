// Big-endian numbers of two, three and four bytes, each by std at its width: three bytes lie in a u32.
#![tactic(auto, unfolding(crate::specs::Number::be_more, crate::specs::Number::be_of, crate::specs::Number::be_bytes))]

ghost use Rattle.std.specs.Prelude.{◌≡◌, [], ◌∷◌};
ghost use Rattle.wire.specs.Number.{be_of, be_bytes};

pub fn be16_of(a: u8, b: u8) -> u16
    ensures { result ≡ be_of (a ∷ b ∷ []) }
{
    u16::from_be_bytes([a, b])
}

pub fn be24_of(a: u8, b: u8, c: u8) -> u32
    ensures { result ≡ be_of (a ∷ b ∷ c ∷ []) }
{
    u32::from_be_bytes([0, a, b, c])
}

pub fn be32_of(a: u8, b: u8, c: u8, d: u8) -> u32
    ensures { result ≡ be_of (a ∷ b ∷ c ∷ d ∷ []) }
{
    u32::from_be_bytes([a, b, c, d])
}

pub fn be16_bytes(v: u16) -> [u8; 2]
    ensures { result ≡ be_bytes 2 v }
{
    v.to_be_bytes()
}

// The low three bytes.
pub fn be24_bytes(v: u32) -> [u8; 3]
    ensures { result ≡ be_bytes 3 v }
{
    let [_, a, b, c] = v.to_be_bytes();
    [a, b, c]
}

pub fn be32_bytes(v: u32) -> [u8; 4]
    ensures { result ≡ be_bytes 4 v }
{
    v.to_be_bytes()
}
