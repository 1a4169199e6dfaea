// Items that a caller composes, in lent lists: judged pass by pass over the whole list, measured, and laid into a lent buffer. One alone is in
// `one`.
#![tactic(auto)]

ghost use Rattle.std.specs.Prelude.{◌≡◌, ℕ, min, length};
ghost use Rattle.base.specs.Lists.{first_of, joined};
ghost use Rattle.wire.specs.Lay.{put};
ghost use Rattle.wire.specs.Run.{run_at};
ghost use Rattle.fields.specs.Path.{six_of};
ghost use Rattle.heartbeats.specs.Paths.{path_run};
ghost use Rattle.kept_items.specs.Kept.{headed};
ghost use Rattle.composed_items.specs.Composed.{tag_of, item_count, item_in, items_in, is_path, bad_kind, outside_of, bad_path, long_of, uneven_of, kinds_refusal, verdict_of, item_wire, composed_bytes};
ghost use Rattle.composed_items.specs.inner.Passes.{capped, total_of};
ghost use Rattle.composed_items.specs.declared.Composed.{Composed as Item};

mod one;

use base::{Limit, Refusal, least};
use heartbeats::{Paths, held};
use items::{ItemKind, is_beat};
use kept_items::{low_byte, put_item};
pub use one::{encode_command, encode_event, write_item};
use std::marker::Model;
use wire::{Run, put_all};

// One item, as it stands in the lists, with the tag that it is written with.
#[derive(Clone, Copy)]
pub struct Composed {
    pub kind: u8,
    pub tag: u8,
    pub place: u32,
    pub len: u32,
}

// Of each item kind and tag, and place and length; the entries of paths; and the bytes of values.
#[derive(Drop)]
pub struct Lists<'a> {
    pub kinds: &'a [[u8; 2]],
    pub spans: &'a [[u32; 2]],
    pub entries: Paths<'a>,
    pub src: &'a [u8],
}

// In a clause the lists themselves.
impl<'a> Model for Lists<'a> {
    ghost use Rattle.composed_items.specs.Composed.{Lists};

    ghost Value = { Lists };

    ghost view = { λ l. record { kinds = l.kinds.now; spans = l.spans.now; entries = l.entries; src = l.src.now } };
}

// A sum, unless it is over what it may be at most.
#[derive(Clone, Copy)]
enum Total {
    Sum(usize),
    Over,
}

// A heartbeat's and a path's is 0.
#[tactic(auto, unfolding(crate::specs::Composed::tag_of))]
pub(crate) fn tag_of(kind: u8, tag: u8) -> u8
    ensures { result ≡ tag_of kind tag }
{
    if kind == ItemKind::PROPRIETARY {
        return tag;
    }
    0
}

impl Composed {
    // Where its value lies, or which entries its path has.
    pub fn run(self) -> Run
        ensures { result ≡ run_at self.place self.len }
    {
        Run {
            start: self.place as usize,
            len: self.len as usize,
        }
    }

    // A command has no path.
    pub fn is_path(self, is_event: bool) -> bool
        ensures { result ≡ is_path is_event self }
    {
        is_event && self.kind == ItemKind::PATH
    }

    // 29: its kind is none, or is no value in a command.
    #[tactic(auto, unfolding(crate::specs::Composed::bad_kind))]
    fn bad_kind(self, is_event: bool) -> u8
        ensures { result ≡ bad_kind is_event self }
    {
        match self.kind {
            ItemKind::PROPRIETARY => 0,
            ItemKind::HEARTBEAT | ItemKind::PATH if is_event => 0,
            _ => Refusal::TYPE_LARGE,
        }
    }

    // 19: its path has too many entries, or its value too many bytes.
    #[tactic(auto, unfolding(crate::specs::Composed::long_of))]
    fn long(self, is_event: bool) -> u8
        ensures { result ≡ long_of is_event self }
    {
        let n = self.run().len;
        if self.is_path(is_event) {
            if Limit::PATH < n {
                return Refusal::ITEM_LONG;
            }
            return 0;
        }
        if Limit::ITEM < n {
            return Refusal::ITEM_LONG;
        }
        0
    }

    // 20: a heartbeat in bytes, whose length is no multiple of an entry's.
    #[tactic(auto, unfolding(crate::specs::Composed::uneven_of, items::specs::Items::bad_beat))]
    fn uneven(self, is_event: bool) -> u8
        ensures { result ≡ uneven_of is_event self }
    {
        if self.is_path(is_event) {
            return 0;
        }
        if is_beat(is_event, self.tag) && self.run().len % Limit::ENTRY != 0 {
            return Refusal::HEARTBEAT_LENGTH;
        }
        0
    }
}

impl Lists<'_> {
    // ---- the items
    pub fn item_count(&self, count: usize) -> usize
        ensures { result ≡ min count (item_count self.now) }
    {
        least(count, least(self.kinds.len(), self.spans.len()))
    }

    // An item as it stands in the lists; beyond a list's end stand zeros.
    pub fn item_at(&self, i: usize) -> Composed
        ensures { result ≡ item_in self.now i }
    {
        let kind = self.kinds.get(i).copied().unwrap_or([0; 2]);
        let span = self.spans.get(i).copied().unwrap_or([0; 2]);
        Composed {
            kind: kind[0],
            tag: tag_of(kind[0], kind[1]),
            place: span[0],
            len: span[1],
        }
    }

    // ---- what is wrong with them

    // One pass: the first number that is not 0 of what `fault` finds of each of `count` items, or 0.
    fn first<F: Fn(Composed) -> u8>(&self, count: usize, fault: F) -> u8
        requires { F.IsAlwaysCallable fault }
        ensures { (f : Item → ℕ) → ((it : Item) (r : ℕ) → F.post fault it r → r ≡ f it) → result ≡ first_of f (items_in self.now count) }
    {
        for i in 0..self.item_count(count) {
            let r = fault(self.item_at(i));
            if r != 0 {
                return r;
            }
        }
        0
    }

    // 45: its value lies outside the bytes, or its path outside the entries.
    #[tactic(auto, unfolding(crate::specs::Composed::outside_of))]
    fn outside(&self, is_event: bool, it: Composed) -> u8
        ensures { result ≡ outside_of is_event self.now it }
    {
        if it.is_path(is_event) {
            return it.run().refusal(self.entries.count());
        }
        it.run().refusal(self.src.len())
    }

    // 10 to 13: an entry of its path cannot be written.
    #[tactic(auto, unfolding(crate::specs::Composed::bad_path))]
    fn bad_path(&self, is_event: bool, it: Composed) -> u8
        ensures { result ≡ bad_path is_event self.now it }
    {
        if it.is_path(is_event) {
            return self.entries.bad_run(it.run());
        }
        0
    }

    // 29 where one of `count` items has a kind that is none, or, in a command, is no value; otherwise 0.
    pub fn kinds_refusal(&self, is_event: bool, count: usize) -> u8
        ensures { result ≡ kinds_refusal is_event self.now.kinds self.now.spans count }
    {
        self.first(count, |it| it.bad_kind(is_event))
    }

    // The first refusal of `count` items, or 0: each pass is over all of them before the next begins.
    pub fn verdict(&self, is_event: bool, count: usize) -> u8
        ensures { result ≡ verdict_of is_event self.now count }
    {
        let strange = self.kinds_refusal(is_event, count);
        if strange != 0 {
            return strange;
        }
        if self.item_count(count) < count {
            return Refusal::OUTSIDE;
        }
        let outside = self.first(count, |it| self.outside(is_event, it));
        if outside != 0 {
            return outside;
        }
        let bad = self.first(count, |it| self.bad_path(is_event, it));
        if bad != 0 {
            return bad;
        }
        let long = self.first(count, |it| it.long(is_event));
        if long != 0 {
            return long;
        }
        self.first(count, |it| it.uneven(is_event))
    }

    // ---- sizes
    fn item_size(&self, is_event: bool, it: Composed) -> usize
        ensures { result ≡ length (item_wire is_event self.now it) }
    {
        if it.is_path(is_event) {
            return 2 + Limit::ENTRY * held(self.entries.count(), it.run());
        }
        2 + held(self.src.len(), it.run())
    }

    fn sum_up(&self, most: usize, is_event: bool, count: usize) -> Total
        ensures { result ≡ total_of most (length (composed_bytes is_event self.now count)) }
    {
        let mut sum: usize = 0;
        for i in 0..self.item_count(count) {
            let more = self.item_size(is_event, self.item_at(i));
            if most - sum < more {
                return Total::Over;
            }
            sum += more;
        }
        Total::Sum(sum)
    }

    // How many bytes `count` items are; 8,193 stands for any larger number.
    pub fn size(&self, is_event: bool, count: usize) -> usize
        ensures { result ≡ capped (length (composed_bytes is_event self.now count)) }
    {
        match self.sum_up(Limit::FRAME, is_event, count) {
            Total::Sum(n) => n,
            Total::Over => Limit::FRAME + 1,
        }
    }

    // ---- bytes

    // A path: a head with tag 0, then its entries.
    fn lay_path(&self, run: Run, out: &mut [u8], at: usize)
        ensures { out.new ≡ put out.old at (headed 0 (joined six_of (path_run self.now.entries run.start run.len))) }
    {
        let n = held(self.entries.count(), run);
        if out.len() < at {
            return;
        }
        let room = out.len() - at;
        if room < 2 {
            return;
        }
        if (room - 2) / Limit::ENTRY < n {
            return;
        }
        let head = [0u8, low_byte(Limit::ENTRY * n)];
        put_all(&head, out, at);
        self.entries.put(run, out, at + 2);
    }

    fn lay_item(&self, is_event: bool, it: Composed, out: &mut [u8], at: usize)
        ensures { out.new ≡ put out.old at (item_wire is_event self.now it) }
    {
        if it.is_path(is_event) {
            self.lay_path(it.run(), out, at);
        } else {
            put_item(
                is_beat(is_event, it.tag),
                it.tag,
                it.run().bytes(self.src),
                out,
                at,
            );
        }
    }

    // The items' bytes, where all of them fit.
    pub fn put(&self, is_event: bool, count: usize, out: &mut [u8], at: usize)
        ensures { out.new ≡ put out.old at (composed_bytes is_event self.now count) }
    {
        if out.len() < at {
            return;
        }
        let told = self.sum_up(out.len() - at, is_event, count);
        let Total::Sum(_) = told else {
            return;
        };
        let mut o: usize = 0;
        for i in 0..self.item_count(count) {
            let it = self.item_at(i);
            self.lay_item(is_event, it, out, at + o);
            o += self.item_size(is_event, it);
        }
    }
}
