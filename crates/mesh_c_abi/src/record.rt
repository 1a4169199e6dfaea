// The duplicate cache, in 195 words that the caller holds.
ghost use Rattle.std.specs.Prelude.{◌≡◌};
ghost use Rattle.base.specs.Answers.{number_in, left_by, checked_number};
ghost use Rattle.numbers.specs.Numbers.{bit};
ghost use Rattle.cache.specs.Cache.{add_says};
ghost use Rattle.cache_words.specs.inner.Packed.{clear_answer, clear_words};
ghost use Rattle.mesh_c.specs.Face.{cache_answer, cache_words};

use cache_words::Words;

#[unsafe(no_mangle)]
pub extern "C" fn mesh_cache_clear(words: &mut Words, size: u32) -> u8
    ensures answer { result ≡ checked_number (clear_answer size) }
    ensures words { words.new ≡ clear_words size words.old }
{
    mesh_c::mesh_cache_clear(words, size)
}

#[unsafe(no_mangle)]
pub extern "C" fn mesh_cache_add(words: &mut Words, record: &[u64; 4], is_new: &mut u8) -> u8
    ensures answer { result ≡ number_in (add_says (cache_answer words.old «record».now)) }
    ensures words { words.new ≡ cache_words words.old «record».now }
    ensures is_new { is_new.new ≡ left_by bit is_new.old (add_says (cache_answer words.old «record».now)) }
{
    mesh_c::mesh_cache_add(words, record, is_new)
}
