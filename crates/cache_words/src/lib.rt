// The cache of crate `cache` in a lent array of words, in place, for callers that cannot hold its struct. specs/inner/Packed.antt has the layout.
#![tactic(auto)]

ghost use Rattle.std.specs.Prelude.{◌≡◌, ◌<◌, ◌≤◌, [], ◌∷◌};
ghost use Rattle.cache_words.specs.inner.Packed.{clear_answer, clear_words, is_below, stored_at, Ready, pushed_words, adds_answer, adds_words, add_answer, add_words};

use base::{Checked, Limit, Refusal, least};
use cache::{CacheAnswer, PayloadCache};

// Size, length and next place, then 64 heads, 64 timestamps, 64 relay ids.
pub type Words = [u32; WORDS];

const HEADS: usize = 3;

const TIMES: usize = HEADS + Limit::CACHE;

const RELAYS: usize = TIMES + Limit::CACHE;

const WORDS: usize = RELAYS + Limit::CACHE;

// A cache without records; 24 for a size of 0 or over 64, and the words as they were.
#[tactic(auto, unfolding(crate::specs::inner::Packed::clear_answer, crate::specs::inner::Packed::clear_words, crate::specs::inner::Packed::cleared_words))]
pub fn clear(words: &mut Words, size: u32) -> Checked
    ensures answer { result ≡ clear_answer size }
    ensures words { words.new ≡ clear_words size words.old }
{
    if !(Limit::CACHE_LEAST..=Limit::CACHE).contains(&(size as usize)) {
        return Checked::Refused(Refusal::CACHE_SIZE);
    }
    *words = [0; WORDS];
    words[0] = size;
    Checked::Accepted
}

// Whether one of the first n places holds these three. It looks through all of them and does not branch on what it finds, so that the
// compiler compares several places at once: at 64 places that takes half the time, or less, of nested tests that leave at a hit.
#[tactic(auto, unfolding(crate::specs::inner::Packed::is_below, crate::specs::inner::Packed::is_at))]
fn is_below(words: &Words, head: u32, time: u32, relay: u32, n: usize) -> bool
    requires { n ≤ 64 }
    ensures { result ≡ is_below words.now (head ∷ time ∷ relay ∷ []) n }
{
    let mut found = false;
    for i in 0..n {
        found |= (words[RELAYS + i] == relay)
            & (words[TIMES + i] == time)
            & (words[HEADS + i] == head);
    }
    found
}

fn store(words: &mut Words, at: usize, p: [u32; 3])
    requires { at < 64 }
    ensures { words.new ≡ stored_at words.old p at }
{
    words[HEADS + at] = p[0];
    words[TIMES + at] = p[1];
    words[RELAYS + at] = p[2];
}

// p at the next place, in a cache that has n records.
#[tactic(auto, unfolding(crate::specs::inner::Packed::pushed_words))]
fn push(words: &mut Words, p: [u32; 3], size: usize, n: usize)
    requires { Ready words.old size n }
    ensures { words.new ≡ pushed_words words.old p }
{
    let at = words[2] as usize % size;
    store(words, at, p);
    words[1] = least(n + 1, size) as u32;
    words[2] = ((at + 1) % size) as u32;
}

// A record that is there changes nothing; any other takes the next place, which is the oldest's where the cache is full. By its three words, for a
// caller that has its numbers and no record.
#[tactic(auto, unfolding(crate::specs::inner::Packed::adds_answer, crate::specs::inner::Packed::adds_words))]
pub fn add_words(words: &mut Words, head: u32, time: u32, relay: u32) -> CacheAnswer
    ensures answer { result ≡ adds_answer words.old (head ∷ time ∷ relay ∷ []) }
    ensures words { words.new ≡ adds_words words.old (head ∷ time ∷ relay ∷ []) }
{
    let size = words[0] as usize;
    if !(Limit::CACHE_LEAST..=Limit::CACHE).contains(&size) {
        return CacheAnswer::Refused(Refusal::CACHE_SIZE);
    }
    let n = least(words[1] as usize, size);
    if is_below(words, head, time, relay, n) {
        return CacheAnswer::Seen;
    }
    push(words, [head, time, relay], size, n);
    CacheAnswer::New
}

#[tactic(auto, unfolding(cache::specs::Cache::pack_of))]
pub fn add(words: &mut Words, r: PayloadCache) -> CacheAnswer
    ensures answer { result ≡ add_answer words.old r }
    ensures words { words.new ≡ add_words words.old r }
{
    let p = r.pack();
    add_words(words, p[0], p[1], p[2])
}
