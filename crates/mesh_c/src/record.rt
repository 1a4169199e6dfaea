// The duplicate cache, in 195 words that the caller holds.
ghost use Rattle.std.specs.Prelude.{◌≡◌};
ghost use Rattle.base.specs.Answers.{number_in, left_by, checked_number};
ghost use Rattle.numbers.specs.Numbers.{bit};
ghost use Rattle.cache.specs.Cache.{add_says};
ghost use Rattle.cache_words.specs.inner.Packed.{clear_answer, clear_words};
ghost use Rattle.mesh_c.specs.Face.{cache_answer, cache_words};
ghost use Rattle.mesh_c.specs.inner.Known.{head_of};

use base::{Checked, Refusal};
use cache::CacheAnswer;
use cache_words::Words;
use fields::{PayloadType, RelayId, Timestamp};
use numbers::to_u32;

// An empty cache of the last `size` records: 0, or 24 with the words as they were.
pub fn mesh_cache_clear(words: &mut Words, size: u32) -> u8
    ensures answer { result ≡ checked_number (clear_answer size) }
    ensures words { words.new ≡ clear_words size words.old }
{
    match cache_words::clear(words, size) {
        Checked::Accepted => 0,
        Checked::Refused(n) => n,
    }
}

// Type and uplink id share a word of the cache.
fn head_word(p_type: u64, uplink_id: u64) -> u32
    ensures { result ≡ head_of p_type uplink_id }
{
    (p_type % 4 * 65536 + uplink_id % 65536) as u32
}

// A record added: 0 with 1 in `is_new` where it is new and 0 where it is one of the last, or 29, 24 with nothing changed. Its numbers go straight into
// the cache's words: a record would be built in memory and taken apart again.
pub fn mesh_cache_add(words: &mut Words, record: &[u64; 4], is_new: &mut u8) -> u8
    ensures answer { result ≡ number_in (add_says (cache_answer words.old «record».now)) }
    ensures words { words.new ≡ cache_words words.old «record».now }
    ensures is_new { is_new.new ≡ left_by bit is_new.old (add_says (cache_answer words.old «record».now)) }
{
    if 65535 < record[1] {
        return Refusal::TYPE_LARGE;
    }
    if (Timestamp::MOST as u64) < record[2] {
        return Refusal::TYPE_LARGE;
    }
    if (RelayId::MOST as u64) < record[3] {
        return Refusal::TYPE_LARGE;
    }
    if (PayloadType::MOST as u64) < record[0] {
        return Refusal::TYPE_LARGE;
    }
    match cache_words::add_words(
        words,
        head_word(record[0], record[1]),
        to_u32(record[2]),
        to_u32(record[3]),
    ) {
        CacheAnswer::New => {
            *is_new = 1;
            0
        }
        CacheAnswer::Seen => {
            *is_new = 0;
            0
        }
        CacheAnswer::Refused(n) => n,
    }
}
