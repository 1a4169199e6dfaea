// Heartbeats. `first_bad`, `from_slice` and `write` go over a lent list of records: each is one loop, and what a turn does stands in a function
// of its own.
ghost use Rattle.std.specs.Prelude.{◌≡◌, ◌+◌, ◌*◌, ◌≤◌, length};
ghost use Rattle.base.specs.Lists.{or_else, first_of};
ghost use Rattle.base.specs.Answers.{answer_of, out_of};
ghost use Rattle.wire.specs.Lay.{put};
ghost use Rattle.heartbeats.specs.Heartbeat.{entry_at, length_refusal, beat_of, path_after, entry_read, beat_wire};
ghost use Rattle.fields.specs.Path.{bad_entry, six_of};
ghost use Rattle.heartbeats.specs.inner.Steps.{count_of, beat_verdict, places_of};

use base::{Checked, Limit, Refusal, Written};
use fields::RelayPath;

// How many entries its path has. They lie in a lent list.
#[derive(Clone, Copy)]
pub struct HeartbeatPayload {
    pub entries: usize,
}

#[derive(Clone, Copy)]
pub enum HeartbeatRead {
    Heartbeat(HeartbeatPayload),
    Refused(u8),
}

#[derive(Clone, Copy)]
pub enum PathRead {
    Entry(RelayPath),
    Refused(u8),
}

// The number for which a value of this length has no entries, or 0.
fn bad_length(n: usize) -> u8
    ensures { result ≡ length_refusal n }
{
    if Limit::ITEM < n {
        return Refusal::ITEM_LONG;
    }
    if 0 < n % Limit::ENTRY {
        return Refusal::HEARTBEAT_LENGTH;
    }
    0
}

// Entry i, which lies in the value.
fn entry_at(b: &[u8], i: usize) -> RelayPath
    requires { i * 6 + 6 ≤ length b.now }
    ensures { result ≡ entry_at b.now i }
{
    let k = i * Limit::ENTRY;
    RelayPath::from_bytes([b[k], b[k + 1], b[k + 2], b[k + 3], b[k + 4], b[k + 5]])
}

// How many entries are to be read.
fn count_of(r: HeartbeatRead) -> usize
    ensures { result ≡ count_of r }
{
    match r {
        HeartbeatRead::Refused(_) => 0,
        HeartbeatRead::Heartbeat(h) => h.entries,
    }
}

// The number for which an entry cannot be written, or 0.
fn bad_entry(p: RelayPath) -> u8
    ensures { result ≡ bad_entry p }
{
    let b = p.to_bytes();
    let answer = b.answer;
    match answer {
        Checked::Accepted => 0,
        Checked::Refused(n) => n,
    }
}

// The same after others, the first of which counts.
fn bad_after(bad: u8, p: RelayPath) -> u8
    ensures { result ≡ or_else bad (bad_entry p) }
{
    if bad == 0 { bad_entry(p) } else { bad }
}

// The first bad entry's number, or 0.
fn first_bad(relay_path: &[RelayPath]) -> u8
    ensures { result ≡ first_of bad_entry relay_path.now }
{
    let n = relay_path.len();
    let mut bad = 0;
    let mut i = 0;
    while i < n {
        bad = bad_after(bad, relay_path[i]);
        i += 1;
    }
    bad
}

// What writing n entries answers.
fn verdict(bad: u8, n: usize, room: usize) -> Written
    ensures { result ≡ beat_verdict bad n room }
{
    if bad != 0 {
        return Written::Refused(bad);
    }
    if Limit::PATH < n {
        return Written::Refused(Refusal::ITEM_LONG);
    }
    if room < n * Limit::ENTRY {
        return Written::Refused(Refusal::OUTPUT_SHORT);
    }
    Written::Bytes(n * Limit::ENTRY)
}

// How many entries are to be written.
fn places_of(w: Written) -> usize
    ensures { result ≡ places_of w }
{
    match w {
        Written::Refused(_) => 0,
        Written::Bytes(n) => n / Limit::ENTRY,
    }
}

// Entry i, which has room.
fn put_entry(out: &mut [u8], i: usize, p: RelayPath)
    requires { i * 6 + 6 ≤ length out.old }
    ensures { out.new ≡ put out.old (i * 6) (six_of p) }
{
    let b = p.to_bytes().bytes;
    let k = i * Limit::ENTRY;
    out[k] = b[0];
    out[k + 1] = b[1];
    out[k + 2] = b[2];
    out[k + 3] = b[3];
    out[k + 4] = b[4];
    out[k + 5] = b[5];
}

impl HeartbeatPayload {
    // What reading a value into a list of so many places answers.
    pub fn check(b: &[u8], places: usize) -> HeartbeatRead
        ensures { result ≡ beat_of b.now places }
    {
        let n = b.len();
        let refusal = bad_length(n);
        if refusal != 0 {
            return HeartbeatRead::Refused(refusal);
        }
        if places < n / Limit::ENTRY {
            return HeartbeatRead::Refused(Refusal::OUTPUT_SHORT);
        }
        HeartbeatRead::Heartbeat(HeartbeatPayload {
            entries: n / Limit::ENTRY,
        })
    }

    // Entry i of a value, without a list. A value that `check` refuses for its length has none.
    pub fn entry(b: &[u8], i: usize) -> PathRead
        ensures { result ≡ entry_read b.now i }
    {
        let none = bad_length(b.len());
        if none != 0 {
            return PathRead::Refused(none);
        }
        if b.len() / Limit::ENTRY <= i {
            return PathRead::Refused(Refusal::OUTSIDE);
        }
        PathRead::Entry(entry_at(b, i))
    }

    // All entries of a value, into the front of the list.
    pub fn from_slice(b: &[u8], relay_path: &mut [RelayPath]) -> HeartbeatRead
        ensures answer { result ≡ beat_of b.now (length relay_path.old) }
        ensures records { relay_path.new ≡ path_after b.now relay_path.old }
    {
        let read = HeartbeatPayload::check(b, relay_path.len());
        let n = count_of(read);
        let mut i = 0;
        while i < n {
            relay_path[i] = entry_at(b, i);
            i += 1;
        }
        read
    }

    // All entries of the list, into the front of the output. Nothing is stored before every refusal is known.
    pub fn write(relay_path: &[RelayPath], out: &mut [u8]) -> Written
        ensures answer { result ≡ answer_of (beat_wire relay_path.now) out.old }
        ensures bytes { out.new ≡ out_of (beat_wire relay_path.now) out.old }
    {
        let answer = verdict(first_bad(relay_path), relay_path.len(), out.len());
        let n = places_of(answer);
        let mut i = 0;
        while i < n {
            put_entry(out, i, relay_path[i]);
            i += 1;
        }
        answer
    }
}
