// A content as it is written: its first refusal, its length and its bytes.
ghost use Rattle.std.specs.Prelude.{◌≡◌, length};
ghost use Rattle.wire.specs.Lay.{put};
ghost use Rattle.composed_items.specs.inner.Passes.{capped};
ghost use Rattle.contents.specs.Content.{content_kinds, content_refusal, content_bytes};

use crate::content::Content;
use crate::lent::Lent;
use base::Limit;
use composed_items::Lists;
use items::count_items;
use kept_items::put_kept;
use wire::put_all;

fn cap(n: usize) -> usize
    ensures { result ≡ capped n }
{
    if Limit::FRAME < n {
        Limit::FRAME + 1
    } else {
        n
    }
}

impl Content {
    // 29 where a composed item's kind is none, or is no value in a command; otherwise 0.
    #[tactic(auto, unfolding(crate::specs::Content::content_kinds))]
    pub fn kinds_refusal(self, is_event: bool, lists: &Lists) -> u8
        ensures { result ≡ content_kinds is_event lists.now.kinds lists.now.spans self }
    {
        match self {
            Content::Empty => 0,
            Content::Sealed(_) => 0,
            Content::Open { held: _, run: _ } => 0,
            Content::Items(n) => lists.kinds_refusal(is_event, n),
        }
    }

    // 29, 45, the first bad path entry, 19 or 20, and otherwise 0.
    #[tactic(auto, unfolding(crate::specs::Content::content_refusal))]
    pub fn refusal(self, is_event: bool, lent: &Lent) -> u8
        ensures { result ≡ content_refusal is_event lent.now self }
    {
        match self {
            Content::Empty => 0,
            Content::Sealed(run) => run.refusal(lent.frame.len()),
            Content::Open { held, run } => run.refusal(lent.held(held).len()),
            Content::Items(n) => lent.lists.verdict(is_event, n),
        }
    }

    // How many bytes; 8,193 stands for any more than 8,192.
    #[tactic(auto, using(kept_items::proofs::Laws::told), unfolding(crate::specs::Content::content_bytes))]
    pub fn size(self, is_event: bool, lent: &Lent) -> usize
        ensures { result ≡ capped (length (content_bytes is_event lent.now self)) }
    {
        match self {
            Content::Empty => 0,
            Content::Sealed(run) => cap(run.bytes(lent.frame).len()),
            Content::Open { held, run } => {
                let told = count_items(run.bytes(lent.held(held)), is_event);
                cap(told.kept_bytes)
            }
            Content::Items(n) => lent.lists.size(is_event, n),
        }
    }

    // The bytes at a place, where they fit.
    #[tactic(auto, using(wire::proofs::Laws::Lay::put_nil), unfolding(crate::specs::Content::content_bytes))]
    pub fn put(self, is_event: bool, lent: &Lent, out: &mut [u8], at: usize)
        ensures { out.new ≡ put out.old at (content_bytes is_event lent.now self) }
    {
        match self {
            Content::Empty => {}
            Content::Sealed(run) => put_all(run.bytes(lent.frame), out, at),
            Content::Open { held, run } => put_kept(is_event, run.bytes(lent.held(held)), out, at),
            Content::Items(n) => lent.lists.put(is_event, n, out, at),
        }
    }
}
