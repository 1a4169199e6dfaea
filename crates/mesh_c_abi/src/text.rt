// What mesh-dump prints of one line of hex, or of one frame; and the text of a packet in hand.
ghost use Rattle.std.specs.Prelude.{◌≡◌};
ghost use Rattle.base.specs.Answers.{answer_of, out_of, bytes, number_in, left_by, written_says};
ghost use Rattle.dump.specs.Dump.{line_text, frame_text};
ghost use Rattle.mesh_c.specs.Face.{as_it_is, numbers_text};

use numbers::PacketNumbers;

#[unsafe(no_mangle)]
pub extern "C" fn mesh_dump_line(line: &[u8], out: &mut [u8], length: &mut u64) -> u8
    ensures answer { result ≡ number_in (written_says (answer_of (bytes (line_text line.now)) out.old)) }
    ensures out { out.new ≡ out_of (bytes (line_text line.now)) out.old }
    ensures length { length.new ≡ left_by as_it_is length.old (written_says (answer_of (bytes (line_text line.now)) out.old)) }
{
    mesh_c::mesh_dump_line(line, out, length)
}

#[unsafe(no_mangle)]
pub extern "C" fn mesh_dump_frame(frame: &[u8], out: &mut [u8], length: &mut u64) -> u8
    ensures answer { result ≡ number_in (written_says (answer_of (bytes (frame_text frame.now)) out.old)) }
    ensures out { out.new ≡ out_of (bytes (frame_text frame.now)) out.old }
    ensures length { length.new ≡ left_by as_it_is length.old (written_says (answer_of (bytes (frame_text frame.now)) out.old)) }
{
    mesh_c::mesh_dump_frame(frame, out, length)
}

#[unsafe(no_mangle)]
pub extern "C" fn mesh_text(numbers: &PacketNumbers, out: &mut [u8], length: &mut u64) -> u8
    ensures answer { result ≡ number_in (written_says (answer_of (numbers_text numbers.now) out.old)) }
    ensures out { out.new ≡ out_of (numbers_text numbers.now) out.old }
    ensures length { length.new ≡ left_by as_it_is length.old (written_says (answer_of (numbers_text numbers.now) out.old)) }
{
    mesh_c::mesh_text(numbers, out, length)
}
