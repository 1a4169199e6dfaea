// The cache of the last records: a ring of at most 64. Every value of its numbers has a meaning, so that no call has a `requires`: a size
// of 0 or over 64 is refused, a length counts up to the size, and the next place is taken modulo the size. An array with a length beside, since
// it lies in fixed memory and is copied.
ghost use Rattle.std.specs.Prelude.{◌≡◌, take};
ghost use Rattle.std.specs.List.{list_any};
ghost use Rattle.cache.specs.Cache.{same_record};
ghost use Rattle.cache.specs.inner.Ring.{empty_ring, new_of, refused_by, added_of};

use crate::record::PayloadCache;
use base::{Checked, Limit, Refusal, least};
use fields::PayloadType;

#[derive(Clone, Copy)]
pub struct Cache {
    slots: [PayloadCache; Limit::CACHE],
    size: usize,
    len: usize,
    next: usize,
}

// What a new cache answers; where its size is refused, a cache of size 0 stands beside it.
#[derive(Clone, Copy)]
pub struct CacheNew {
    pub answer: Checked,
    pub cache: Cache,
}

#[derive(Clone, Copy)]
pub enum CacheAnswer {
    New,
    Seen,
    Refused(u8),
}

#[derive(Clone, Copy)]
pub struct Added {
    pub answer: CacheAnswer,
    pub cache: Cache,
}

// A ring without records.
fn empty(size: usize) -> Cache
    ensures { result ≡ empty_ring size }
{
    let none = PayloadCache {
        p_type: PayloadType::Uplink,
        uplink_id: 0,
        timestamp: 0,
        relay_id: 0,
    };
    let slots = [none; Limit::CACHE];
    Cache {
        slots,
        size,
        len: 0,
        next: 0,
    }
}

// 24, and the cache as it was.
fn refuse_size(cache: Cache) -> Added
    ensures { result ≡ refused_by cache }
{
    Added {
        answer: CacheAnswer::Refused(Refusal::CACHE_SIZE),
        cache,
    }
}

impl Cache {
    #[tactic(auto, unfolding(crate::specs::inner::Ring::new_of))]
    pub fn new(size: usize) -> CacheNew
        ensures { result ≡ new_of size }
    {
        if !(Limit::CACHE_LEAST..=Limit::CACHE).contains(&size) {
            return CacheNew {
                answer: Checked::Refused(Refusal::CACHE_SIZE),
                cache: empty(0),
            };
        }
        CacheNew {
            answer: Checked::Accepted,
            cache: empty(size),
        }
    }

    // Whether one of the first n records is r.
    fn holds(&self, r: PayloadCache, n: usize) -> bool
        ensures { result ≡ list_any (λ s. same_record s r) (take n self.now.slots) }
    {
        self.slots.iter().take(n).any(|s| s.same(r))
    }

    // A record that is there changes nothing; any other takes the next place, which is the oldest's where the ring is full.
    #[tactic(auto, unfolding(crate::specs::inner::Ring::added_of))]
    pub fn added(self, r: PayloadCache) -> Added
        ensures { result ≡ added_of self r }
    {
        let size = self.size;
        if !(Limit::CACHE_LEAST..=Limit::CACHE).contains(&size) {
            return refuse_size(self);
        }
        let n = least(self.len, size);
        if self.holds(r, n) {
            return Added {
                answer: CacheAnswer::Seen,
                cache: self,
            };
        }
        let at = self.next % size;
        let mut slots = self.slots;
        slots[at] = r;
        let len = least(n + 1, size);
        let next = (at + 1) % size;
        Added {
            answer: CacheAnswer::New,
            cache: Cache {
                slots,
                size,
                len,
                next,
            },
        }
    }

    // The same, in place.
    pub fn add(&mut self, r: PayloadCache) -> CacheAnswer
        ensures answer { result ≡ (added_of self.old r).answer }
        ensures cache { self.new ≡ (added_of self.old r).cache }
    {
        let a = Cache::added(*self, r);
        *self = a.cache;
        a.answer
    }
}
