// What lends a record or a list of records, by value around it: each is one call.
ghost use Rattle.std.specs.Prelude.{◌≡◌};
ghost use Rattle.base.specs.Answers.{answer_of, out_of};
ghost use Rattle.cache.specs.inner.Ring.{added_of};
ghost use Rattle.heartbeats.specs.Heartbeat.{beat_of, path_after, beat_wire};

use base::Written;
use cache::{Added, Cache, PayloadCache};
use fields::RelayPath;
use heartbeats::{HeartbeatPayload, HeartbeatRead};

// What reading a heartbeat's value answers, and the list after it.
#[derive(Clone, Copy)]
pub struct ListRead {
    pub answer: HeartbeatRead,
    pub list: [RelayPath; 3],
}

pub(crate) fn add_once(cache: Cache, r: PayloadCache) -> Added
    ensures { result ≡ added_of cache r }
{
    let mut kept = cache;
    let answer = kept.add(r);
    Added {
        answer,
        cache: kept,
    }
}

pub(crate) fn read_three(b: &[u8], list: [RelayPath; 3]) -> ListRead
    ensures answer { result.answer ≡ beat_of b.now 3 }
    ensures list { result.list ≡ path_after b.now list }
{
    let mut path = list;
    let answer = HeartbeatPayload::from_slice(b, &mut path);
    ListRead { answer, list: path }
}

pub(crate) fn write_two(list: [RelayPath; 2], out: &mut [u8]) -> Written
    ensures answer { result ≡ answer_of (beat_wire list) out.old }
    ensures bytes { out.new ≡ out_of (beat_wire list) out.old }
{
    let path = list;
    HeartbeatPayload::write(&path, out)
}
