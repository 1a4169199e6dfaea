// A part of a slice at a place and length; 45 where it runs outside. A part of no bytes is empty whatever its place.
ghost use Rattle.std.specs.Prelude.{◌≡◌};
ghost use Rattle.wire.specs.Part.{reach_of, part_of};

use base::Refusal;

#[derive(Clone, Copy)]
pub enum Reach {
    Inside,
    Refused(u8),
}

// Whether a place and a length lie in a buffer of n bytes.
pub fn reaches(n: usize, start: usize, len: usize) -> Reach
    ensures { result ≡ reach_of n start len }
{
    if len == 0 {
        return Reach::Inside;
    }
    if n < start {
        return Reach::Refused(Refusal::OUTSIDE);
    }
    if n - start < len {
        return Reach::Refused(Refusal::OUTSIDE);
    }
    Reach::Inside
}

// The part itself, and nothing where `reaches` refuses.
pub fn part(s: &[u8], start: usize, len: usize) -> &[u8]
    ensures { result.now ≡ part_of s.now start len }
{
    if s.len() < start {
        return &s[..0];
    }
    if s.len() - start < len {
        return &s[..0];
    }
    &s[start..start + len]
}
