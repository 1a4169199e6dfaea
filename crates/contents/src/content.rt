// A content as numbers, and its payload as a part of whichever of two lent slices holds it.
ghost use Rattle.std.specs.Prelude.{◌≡◌, length};
ghost use Rattle.wire.specs.Run.{run_refusal, run_bytes};
ghost use Rattle.contents.specs.Content.{content_of, held_in, payload_of};

use items::Item;
use wire::Run;

// Which of the two lent slices.
#[derive(Clone, Copy)]
pub enum Held {
    Frame,
    Work,
}

#[derive(Clone, Copy)]
pub enum Content {
    Empty,
    // It lies in the frame.
    Sealed(Run),
    // Clear bytes, of which the kept items count.
    Open { held: Held, run: Run },
    // So many items that a caller composes of lent lists; their values lie in the work buffer.
    Items(usize),
}

pub fn held_in<'a>(held: Held, frame: &'a [u8], work: &'a [u8]) -> &'a [u8]
    ensures { result.now ≡ held_in held frame.now work.now }
{
    match held {
        Held::Frame => frame,
        Held::Work => work,
    }
}

impl Content {
    // The shortest body of an event or a command.
    pub const LEAST: usize = 8;

    // What is read after the relay id, n bytes of it from a place on.
    pub fn of(start: usize, n: usize) -> Content
        ensures { result ≡ content_of start n }
    {
        if n == 0 {
            Content::Empty
        } else {
            Content::Sealed(Run { start, len: n })
        }
    }

    // The payload's bytes as they lie, and none where they run outside; composed items lie nowhere yet.
    #[tactic(auto, unfolding(crate::specs::Content::payload_of))]
    pub fn payload<'a>(self, frame: &'a [u8], work: &'a [u8]) -> &'a [u8]
        ensures { result.now ≡ payload_of self frame.now work.now }
    {
        match self {
            Content::Empty => &work[..0],
            Content::Sealed(run) => run.bytes(frame),
            Content::Open { held, run } => run.bytes(held_in(held, frame, work)),
            Content::Items(_) => &work[..0],
        }
    }

    // An item's value as a part of whichever slice holds the payload, and 0 or 45 in the lent number.
    pub fn value<'a>(
        self,
        item: Item,
        frame: &'a [u8],
        work: &'a [u8],
        refused: &mut u8,
    ) -> &'a [u8]
        ensures part { result.now ≡ run_bytes (payload_of self frame.now work.now) item.value }
        ensures number { refused.new ≡ run_refusal (length (payload_of self frame.now work.now)) item.value }
    {
        let run = item.value;
        run.part(self.payload(frame, work), refused)
    }
}
