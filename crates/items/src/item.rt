// One item at a time, at a place in the payload that the caller keeps.
ghost use Rattle.std.specs.Prelude.{◌≡◌, ◌≤◌, ◌-◌, length};
ghost use Rattle.std.specs.Iterator.{at_most};
ghost use Rattle.std.proofs.Math.Bool as Bool;
ghost use Rattle.items.specs.Items.{is_beat, kind_of, kind_code, bad_beat, cut_at, item_at, bare_item_at, sealed_item, type_of, goes_on_to};

use base::{Limit, Refusal, wide};
use wire::Run;

// The Rust's Event and Command are each one of these with a Vec inside.
#[derive(Clone, Copy)]
pub enum ItemKind {
    Encrypted,
    Heartbeat,
    Proprietary,
}

// An item as numbers; its value lies in the payload.
#[derive(Clone, Copy)]
pub struct Item {
    pub kind: ItemKind,
    pub tag: u8,
    pub value: Run,
}

// What stands at a place, and the place behind it: whoever goes on from there comes to the end.
#[derive(Clone, Copy)]
pub enum ItemRead {
    Kept { item: Item, next: usize },
    // A heartbeat whose length is no multiple of 6.
    Skipped { item: Item, next: usize },
    // The payload's end cuts a header or a value: the tail, nothing of which is kept.
    Cut { tail: Run, next: usize },
    End { next: usize },
    Refused(u8),
}

#[derive(Clone, Copy)]
pub struct Event;

#[derive(Clone, Copy)]
pub struct Command;

// A heartbeat: tag 0 of an event.
pub fn is_beat(is_event: bool, tag: u8) -> bool
    ensures { result ≡ is_beat is_event tag }
{
    if is_event {
        return tag == 0;
    }
    false
}

fn kind_of(is_event: bool, tag: u8) -> ItemKind
    ensures { result ≡ kind_of is_event tag }
{
    if is_beat(is_event, tag) {
        return ItemKind::Heartbeat;
    }
    ItemKind::Proprietary
}

fn bad_beat(is_event: bool, tag: u8, n: usize) -> bool
    ensures { result ≡ bad_beat is_event tag n }
{
    if is_beat(is_event, tag) {
        return n % Limit::ENTRY != 0;
    }
    false
}

// What the end of a payload of n bytes cuts: all from a place on.
fn cut_at(n: usize, at: usize) -> ItemRead
    requires { at ≤ n }
    ensures { result ≡ cut_at n at }
{
    ItemRead::Cut {
        tail: Run {
            start: at,
            len: n - at,
        },
        next: n,
    }
}

// For the crates above, which have their own limits: a payload of any length.
pub fn next_item(payload: &[u8], at: usize, is_event: bool) -> ItemRead
    ensures { result ≡ item_at is_event payload.now at }
{
    let n = payload.len();
    if n <= at {
        return ItemRead::End { next: n };
    }
    if n - at < 2 {
        return cut_at(n, at);
    }
    let tag = payload[at];
    let size = payload[at + 1];
    let len = wide(size);
    if n - at - 2 < len {
        return cut_at(n, at);
    }
    let next = at + 2 + len;
    let item = Item {
        kind: kind_of(is_event, tag),
        tag,
        value: Run { start: at + 2, len },
    };
    if bad_beat(is_event, tag, len) {
        return ItemRead::Skipped { item, next };
    }
    ItemRead::Kept { item, next }
}

// The items of a payload from a place on, one after the other. A cut tail comes last.
#[derive(Drop)]
pub struct Items<'a> {
    pub payload: &'a [u8],
    pub at: usize,
    pub is_event: bool,
}

impl<'a> Iterator for Items<'a> {
    type Item = ItemRead;

    ghost next_gives = { λ s r t. goes_on_to s.is_event s.payload.now s.at r t.is_event t.payload.now t.at };

    ghost remaining = { λ s. at_most (length s.payload.now - s.at) };

    fn next(&mut self) -> Option<ItemRead> {
        let read = next_item(self.payload, self.at, self.is_event);
        match read {
            ItemRead::Kept { item: _, next }
            | ItemRead::Skipped { item: _, next }
            | ItemRead::Cut { tail: _, next } => {
                self.at = next;
                Some(read)
            }
            ItemRead::End { next: _ } | ItemRead::Refused(_) => None,
        }
    }
}

impl ItemKind {
    // The kinds as numbers, of items that are read and of those that a caller composes: a heartbeat in bytes, any other value in bytes, and a
    // path in lists of its entries, which is a heartbeat that was not read.
    pub const HEARTBEAT: u8 = 1;

    pub const PROPRIETARY: u8 = 2;

    pub const PATH: u8 = 3;

    // 0 of a sealed run, which no list has.
    pub fn to_byte(self) -> u8
        ensures { result ≡ kind_code self }
    {
        match self {
            ItemKind::Encrypted => 0,
            ItemKind::Heartbeat => ItemKind::HEARTBEAT,
            ItemKind::Proprietary => ItemKind::PROPRIETARY,
        }
    }
}

// An event's calls and a command's differ in one truth value: a trait over the two would take it as a constant with a ghost member beside it,
// and be no shorter.
impl Event {
    // The item of an event's payload at a place: 5 where the payload is too long for any frame.
    pub fn decode(payload: &[u8], at: usize) -> ItemRead
        ensures { result ≡ bare_item_at Bool.true payload.now at }
    {
        if Limit::PAYLOAD < payload.len() {
            return ItemRead::Refused(Refusal::FRAME_LONG);
        }
        next_item(payload, at, true)
    }
}

impl Command {
    // Of a command's: it has no heartbeat, and tag 0 is an ordinary item.
    pub fn decode(payload: &[u8], at: usize) -> ItemRead
        ensures { result ≡ bare_item_at Bool.false payload.now at }
    {
        if Limit::PAYLOAD < payload.len() {
            return ItemRead::Refused(Refusal::FRAME_LONG);
        }
        next_item(payload, at, false)
    }
}

impl Item {
    // A sealed run as one item.
    pub fn sealed(run: Run) -> Item
        ensures { result ≡ sealed_item run }
    {
        Item {
            kind: ItemKind::Encrypted,
            tag: 0,
            value: run,
        }
    }

    pub fn get_type(self) -> u8
        ensures { result ≡ type_of self }
    {
        let kind = self.kind;
        match kind {
            ItemKind::Encrypted => 0,
            ItemKind::Heartbeat => self.tag,
            ItemKind::Proprietary => self.tag,
        }
    }
}
