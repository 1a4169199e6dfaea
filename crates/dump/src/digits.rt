// A number in decimal, without leading zeros.
ghost use Rattle.std.specs.Prelude.{◌≡◌, ◌≤◌, length};
ghost use Rattle.wire.specs.Lay.{put};
ghost use Rattle.dump.specs.Dump.{decimal};
ghost use Rattle.dump.specs.inner.Digits.{digits_of};

use wire::{part, put_all};

// The digits stand at the end of the array, from `start` on: they are found from the last to the first, and no u32 has more than ten.
#[derive(Clone, Copy)]
struct Digits {
    bytes: [u8; 10],
    start: usize,
}

fn digits_of(n: u32) -> Digits
    ensures { result ≡ digits_of n }
{
    let mut bytes = [0u8; 10];
    let mut at: usize = 9;
    let mut rest = n;
    // a `for` over the places would need an answer for more than ten digits, which no u32 has
    while 10 <= rest {
        bytes[at] = b'0' + (rest % 10) as u8;
        at -= 1;
        rest /= 10;
    }
    bytes[at] = b'0' + rest as u8;
    Digits { bytes, start: at }
}

// How many digits n has.
pub fn width(n: u32) -> usize
    ensures value { result ≡ length (decimal n) }
    ensures upper_bound { result ≤ 10 }
{
    let d = digits_of(n);
    10 - d.start
}

// The digits of n from a place of out on.
pub fn put_decimal(n: u32, out: &mut [u8], at: usize)
    ensures { out.new ≡ put out.old at (decimal n) }
{
    let d = digits_of(n);
    let digits = d.bytes;
    put_all(part(&digits, d.start, 10 - d.start), out, at)
}
