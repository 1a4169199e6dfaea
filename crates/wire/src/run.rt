// Where a run of bytes lies: a place and a length in a lent slice.
ghost use Rattle.std.specs.Prelude.{◌≡◌, length};
ghost use Rattle.wire.specs.Part.{part_of};
ghost use Rattle.wire.specs.Run.{run_refusal};

use crate::parts::{Reach, part, reaches};

#[derive(Clone, Copy)]
pub struct Run {
    pub start: usize,
    pub len: usize,
}

impl Run {
    // 45 where the run does not lie in a slice of n bytes, and otherwise 0.
    pub fn refusal(self, n: usize) -> u8
        ensures { result ≡ run_refusal n self }
    {
        match reaches(n, self.start, self.len) {
            Reach::Inside => 0,
            Reach::Refused(k) => k,
        }
    }

    // Its bytes, and nothing where it does not lie in the slice.
    pub fn bytes(self, src: &[u8]) -> &[u8]
        ensures { result.now ≡ part_of src.now self.start self.len }
    {
        part(src, self.start, self.len)
    }

    // Both in one call: the bytes, and 0 or 45 in the lent number.
    pub fn part<'a>(self, src: &'a [u8], refused: &mut u8) -> &'a [u8]
        ensures part { result.now ≡ part_of src.now self.start self.len }
        ensures number { refused.new ≡ run_refusal (length src.now) self }
    {
        *refused = self.refusal(src.len());
        self.bytes(src)
    }
}
