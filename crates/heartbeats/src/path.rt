// Path entries in three lent lists of numbers, which C can lend. The shortest list counts.
ghost use Rattle.std.specs.Prelude.{◌≡◌};
ghost use Rattle.base.specs.Lists.{first_of, joined};
ghost use Rattle.base.specs.Answers.{answer_of, out_of};
ghost use Rattle.wire.specs.Lay.{put};
ghost use Rattle.fields.specs.Path.{path_bytes, bad_entry, six_of};
ghost use Rattle.heartbeats.specs.Heartbeat.{beat_wire};
ghost use Rattle.heartbeats.specs.Paths.{path_count, path_at, paths_in, path_run, held_of};

use base::{Checked, Limit, Refusal, Written, least};
use fields::{PathBytes, RelayPath};
use std::marker::Model;
use wire::{Run, put_all};

#[derive(Drop)]
pub struct Paths<'a> {
    pub ids: &'a [u32],
    pub rssis: &'a [i16],
    pub snrs: &'a [i8],
}

// In a clause the three lists.
impl<'a> Model for Paths<'a> {
    ghost use Rattle.heartbeats.specs.Paths.{PathLists, paths};

    ghost Value = { PathLists };

    ghost view = { λ p. paths p.ids.now p.rssis.now p.snrs.now };
}

// How many of a run there are in a list of n: all, or none where it runs outside.
pub fn held(n: usize, run: Run) -> usize
    ensures { result ≡ held_of n run.start run.len }
{
    if run.refusal(n) == 0 {
        return run.len;
    }
    0
}

impl Paths<'_> {
    pub fn count(&self) -> usize
        ensures { result ≡ path_count self.now }
    {
        least(self.ids.len(), least(self.rssis.len(), self.snrs.len()))
    }

    // An entry as it is written, or why it is not; beyond a list's end stands 0.
    pub fn entry(&self, i: usize) -> PathBytes
        ensures { result ≡ path_bytes (path_at self.now i) }
    {
        let p = RelayPath {
            relay_id: self.ids.get(i).copied().unwrap_or(0),
            rssi: self.rssis.get(i).copied().unwrap_or(0),
            snr: self.snrs.get(i).copied().unwrap_or(0),
            odd: 0,
        };
        p.to_bytes()
    }

    // The number of a run's first bad entry, or 0.
    pub fn bad_run(&self, run: Run) -> u8
        ensures { result ≡ first_of bad_entry (path_run self.now run.start run.len) }
    {
        for i in 0..held(self.count(), run) {
            let made = self.entry(run.start + i);
            let answer = made.answer;
            match answer {
                Checked::Accepted => {}
                Checked::Refused(r) => return r,
            }
        }
        0
    }

    // The bytes of a run's entries, where all of them fit. Taken into its caller, which saves instructions and stack.
    #[inline(always)]
    pub fn put(&self, run: Run, out: &mut [u8], at: usize)
        ensures { out.new ≡ put out.old at (joined six_of (path_run self.now run.start run.len)) }
    {
        let n = held(self.count(), run);
        if out.len() < at {
            return;
        }
        if (out.len() - at) / Limit::ENTRY < n {
            return;
        }
        for i in 0..n {
            let made = self.entry(run.start + i);
            let six = made.bytes;
            put_all(&six, out, at + Limit::ENTRY * i);
        }
    }

    // A heartbeat's value: all entries, into the front of the output. Nothing is stored before every refusal is known.
    pub fn write(&self, out: &mut [u8]) -> Written
        ensures answer { result ≡ answer_of (beat_wire (paths_in self.now)) out.old }
        ensures bytes { out.new ≡ out_of (beat_wire (paths_in self.now)) out.old }
    {
        let n = self.count();
        let all = Run { start: 0, len: n };
        let bad = self.bad_run(all);
        if bad != 0 {
            return Written::Refused(bad);
        }
        if Limit::PATH < n {
            return Written::Refused(Refusal::ITEM_LONG);
        }
        if out.len() < n * Limit::ENTRY {
            return Written::Refused(Refusal::OUTPUT_SHORT);
        }
        self.put(all, out, 0);
        Written::Bytes(n * Limit::ENTRY)
    }
}
