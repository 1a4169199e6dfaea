// What is signed of an event's or a command's content, absorbed by CMAC a piece at a time, as it would be written; nothing is laid out.
ghost use Rattle.std.specs.Prelude.{◌≡◌, true as yes};
ghost use mathlib.Core.List.{foldl};
ghost use Rattle.base.specs.Lists.{Bytes, imap, joined};
ghost use Rattle.cipher.specs.inner.Words.{enciphered};
ghost use Rattle.cmac_chain.specs.inner.State.{absorb1};
ghost use Rattle.fields.specs.Path.{six_of};
ghost use Rattle.kept_items.specs.Kept.{headed, fixed, item_bytes, open_bytes};
ghost use Rattle.heartbeats.specs.Paths.{path_run};
ghost use Rattle.composed_items.specs.Composed.{item_wire, composed_bytes};
ghost use Rattle.contents.specs.Content.{content_bytes};

use base::Limit;
use cipher::Cipher;
use cmac::absorb;
use cmac_chain::Mac;
use composed_items::{Composed, Lists};
use contents::{Content, Lent};
use heartbeats::{Paths, held};
use items::{ItemRead, is_beat, next_item};
use kept_items::low_byte;
use wire::Run;

// A heartbeat's value, an entry at a time; less than an entry is left over as it is.
fn absorb_beat(m: Mac, e: &Cipher, value: &[u8]) -> Mac
    ensures { result ≡ foldl (absorb1 (enciphered e.now)) m (imap (fixed yes) 0 value.now) }
{
    let mut a = m;
    let mut i: usize = 0;
    while Limit::ENTRY <= value.len() - i {
        let six = [
            value[i],
            value[i + 1],
            value[i + 2],
            value[i + 3],
            value[i + 4],
            value[i + 5] % 64,
        ];
        let b = absorb(a, e, &six);
        a = b;
        i += Limit::ENTRY;
    }
    absorb(a, e, &value[i..])
}

// One item: its two head bytes, then its value.
fn absorb_item(m: Mac, e: &Cipher, beat: bool, tag: u8, value: &[u8]) -> Mac
    ensures state { result ≡ foldl (absorb1 (enciphered e.now)) m (item_bytes beat tag value.now) }
    ensures bytes { Bytes (item_bytes beat tag value.now) }
{
    let head = [tag, low_byte(value.len())];
    let a = absorb(m, e, &head);
    if beat {
        return absorb_beat(a, e, value);
    }
    absorb(a, e, value)
}

// The kept items of an open payload.
fn absorb_kept(m: Mac, e: &Cipher, is_event: bool, payload: &[u8]) -> Mac
    ensures state { result ≡ foldl (absorb1 (enciphered e.now)) m (open_bytes is_event payload.now) }
    ensures bytes { Bytes (open_bytes is_event payload.now) }
{
    let mut a = m;
    let mut p: usize = 0;
    loop {
        match next_item(payload, p, is_event) {
            ItemRead::Kept { item, next } => {
                let run = item.value;
                let tag = item.tag;
                let b = absorb_item(a, e, is_beat(is_event, tag), tag, run.bytes(payload));
                a = b;
                p = next;
            }
            ItemRead::Skipped { item: _, next } => {
                p = next;
            }
            ItemRead::Cut { tail: _, next: _ } => return a,
            ItemRead::End { next: _ } => return a,
            ItemRead::Refused(_) => return a,
        }
    }
}

// A sealed run as it lies.
fn absorb_sealed(m: Mac, e: &Cipher, payload: &[u8]) -> Mac
    ensures state { result ≡ foldl (absorb1 (enciphered e.now)) m payload.now }
    ensures bytes { Bytes payload.now }
{
    absorb(m, e, payload)
}

// A path: a head with tag 0, then each entry's six bytes.
fn absorb_path(m: Mac, e: &Cipher, run: Run, entries: &Paths) -> Mac
    ensures { result ≡ foldl (absorb1 (enciphered e.now)) m (headed 0 (joined six_of (path_run entries.now run.start run.len))) }
{
    let n = held(entries.count(), run);
    // the same low byte, and a product that cannot be too large
    let head = [0u8, low_byte(Limit::ENTRY * (n % 256))];
    let mut a = absorb(m, e, &head);
    for i in 0..n {
        let made = entries.entry(run.start + i);
        let six = made.bytes;
        let b = absorb(a, e, &six);
        a = b;
    }
    a
}

// One item that a caller composes.
fn absorb_one(m: Mac, e: &Cipher, is_event: bool, it: Composed, lists: &Lists) -> Mac
    ensures state { result ≡ foldl (absorb1 (enciphered e.now)) m (item_wire is_event lists.now it) }
    ensures bytes { Bytes (item_wire is_event lists.now it) }
{
    if it.is_path(is_event) {
        return absorb_path(m, e, it.run(), &lists.entries);
    }
    absorb_item(
        m,
        e,
        is_beat(is_event, it.tag),
        it.tag,
        it.run().bytes(lists.src),
    )
}

// All of them.
fn absorb_composed(m: Mac, e: &Cipher, is_event: bool, count: usize, lists: &Lists) -> Mac
    ensures state { result ≡ foldl (absorb1 (enciphered e.now)) m (composed_bytes is_event lists.now count) }
    ensures bytes { Bytes (composed_bytes is_event lists.now count) }
{
    let mut a = m;
    for i in 0..lists.item_count(count) {
        let b = absorb_one(a, e, is_event, lists.item_at(i), lists);
        a = b;
    }
    a
}

// A content: a sealed run as it lies, open or composed items one after another. That they are bytes is told by whatever has them as a slice of
// bytes: of the lists that a struct lends no proof knows it.
#[tactic(auto, using(base::proofs::Bytes::none_lt), unfolding(contents::specs::Content::content_bytes))]
pub(crate) fn absorb_content(
    m: Mac,
    e: &Cipher,
    content: Content,
    is_event: bool,
    lent: &Lent,
) -> Mac
    ensures state { result ≡ foldl (absorb1 (enciphered e.now)) m (content_bytes is_event lent.now content) }
    ensures bytes { Bytes (content_bytes is_event lent.now content) }
{
    match content {
        Content::Empty => m,
        Content::Sealed(run) => absorb_sealed(m, e, run.bytes(lent.frame)),
        Content::Open { held, run } => absorb_kept(m, e, is_event, run.bytes(lent.held(held))),
        Content::Items(n) => absorb_composed(m, e, is_event, n, &lent.lists),
    }
}
