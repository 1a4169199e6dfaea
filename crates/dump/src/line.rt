// The text of a line of hex: 30 before anything else, and otherwise the text of its frame.
ghost use Rattle.std.specs.Prelude.{◌≡◌};
ghost use Rattle.base.specs.Answers.{bytes, answer_of, out_of};
ghost use Rattle.dump.specs.Dump.{bad_hex, line_text};

use crate::frame::{dump_frame, write_refused};
use base::{Limit, Refusal, Written};
use wire::{is_hex, part, read_hex};

// An odd count of digits, or a byte that is none.
#[tactic(auto, unfolding(crate::specs::Dump::bad_hex))]
fn bad_hex(line: &[u8]) -> bool
    ensures { result ≡ bad_hex line.now }
{
    line.len() % 2 != 0 || !is_hex(line)
}

// A frame of more than 8,192 bytes is refused unread, so an array of that many holds every one that is read.
pub fn dump_line(line: &[u8], out: &mut [u8]) -> Written
    ensures answer { result ≡ answer_of (bytes (line_text line.now)) out.old }
    ensures bytes { out.new ≡ out_of (bytes (line_text line.now)) out.old }
{
    let bad = bad_hex(line);
    let n = line.len() / 2;
    if bad {
        return write_refused(Refusal::LINE_DIGITS, out);
    }
    // before the array, which would take most of the time of a line of nothing
    if n == 0 {
        return write_refused(Refusal::FRAME_EMPTY, out);
    }
    if Limit::FRAME < n {
        return write_refused(Refusal::FRAME_LONG, out);
    }
    let mut frame = [0u8; Limit::FRAME];
    read_hex(line, &mut frame);
    dump_frame(part(&frame, 0, n), out)
}
