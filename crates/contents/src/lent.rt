// All that is lent to write a packet: its frame, and the lists that items are composed of. Values of composed items, and an opened payload, lie in
// the work buffer, which is the lists' bytes.
ghost use Rattle.std.specs.Prelude.{◌≡◌};
ghost use Rattle.contents.specs.Content.{held_in, work, lent};

use crate::content::{Held, held_in};
use composed_items::Lists;
use heartbeats::Paths;
use std::marker::Model;

#[derive(Drop)]
pub struct Lent<'a> {
    pub frame: &'a [u8],
    pub lists: Lists<'a>,
}

// In a clause the lists themselves.
impl<'a> Model for Lent<'a> {
    ghost use Rattle.contents.specs.Content.{Lent, framed};

    ghost Value = { Lent };

    ghost view = { λ l. framed l.frame.now l.lists };
}

impl<'a> Lent<'a> {
    // The slice that holds an opened payload.
    pub fn held(&self, held: Held) -> &'a [u8]
        ensures { result.now ≡ held_in held self.now.frame (work self.now) }
    {
        held_in(held, self.frame, self.lists.src)
    }

    // Of the slices that C lends.
    pub fn of(
        frame: &'a [u8],
        work: &'a [u8],
        kinds: &'a [[u8; 2]],
        spans: &'a [[u32; 2]],
        ids: &'a [u32],
        rssis: &'a [i16],
        snrs: &'a [i8],
    ) -> Lent<'a>
        ensures { result ≡ lent frame.now work.now kinds.now spans.now ids.now rssis.now snrs.now }
    {
        Lent {
            frame,
            lists: Lists {
                kinds,
                spans,
                entries: Paths { ids, rssis, snrs },
                src: work,
            },
        }
    }
}
