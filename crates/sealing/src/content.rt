// A content sealed: what is written of it, with the key stream added, at the front of the output. And opened: the clear bytes go into the lent
// work buffer, or are read in the frame as it stands, and are counted.
ghost use Rattle.std.specs.Prelude.{◌≡◌};
ghost use Rattle.base.specs.Answers.{answer_of, out_of};
ghost use Rattle.sealing.specs.Open.{open_refusal, nothing_in, opened_as, opened_by, seal_wire, read_sealed, refuse_open, tell_open, decrypt_of, work_after, decode_of};
ghost use Rattle.sealing.specs.Seal.{content_seal};

use base::{Limit, Refusal, Written};
use cipher::prepare;
use contents::{Content, Held, Lent, held_in};
use items::{Opening, count_items};
use key_stream::{add_stream, encrypt_events_commands};
use keys::Aes128Key;
use wire::Run;

#[derive(Clone, Copy)]
pub enum Opened {
    Opened { content: Content, opening: Opening },
    // It was open before; nothing is counted.
    AlreadyOpen,
    Refused(u8),
}

// 22 and 23 count the items that an open payload keeps.
fn open_refusal(kept: usize) -> u8
    ensures { result ≡ open_refusal kept }
{
    if 1 < kept {
        return Refusal::OPEN_MANY;
    }
    if kept == 1 {
        return Refusal::OPEN_ONE;
    }
    0
}

impl Opened {
    // Of a payload that has no items.
    fn none() -> Opened
        ensures { result ≡ nothing_in }
    {
        Opened::Opened {
            content: Content::Empty,
            opening: Opening::none(),
        }
    }

    // One that keeps nothing is empty from now on.
    fn by(held: Held, run: Run, opening: Opening) -> Opened
        ensures { result ≡ opened_as held run opening }
    {
        if opening.kept == 0 {
            return Opened::Opened {
                content: Content::Empty,
                opening,
            };
        }
        Opened::Opened {
            content: Content::Open { held, run },
            opening,
        }
    }
}

// A sealed run, opened into the work buffer: 45, 5, 21.
fn open_sealed(
    run: Run,
    key: Aes128Key,
    is_event: bool,
    relay_id: u32,
    timestamp: u32,
    frame: &[u8],
    work: &mut [u8],
) -> Opened
    ensures answer { result ≡ opened_by is_event (seal_wire key.0 is_event relay_id timestamp frame.now run) work.old }
    ensures work { work.new ≡ out_of (seal_wire key.0 is_event relay_id timestamp frame.now run) work.old }
{
    let bad = run.refusal(frame.len());
    if bad != 0 {
        return Opened::Refused(bad);
    }
    match encrypt_events_commands(key, !is_event, relay_id, timestamp, run.bytes(frame), work) {
        Written::Refused(n) => Opened::Refused(n),
        Written::Bytes(n) => {
            let run = Run { start: 0, len: n };
            Opened::by(Held::Work, run, count_items(run.bytes(work), is_event))
        }
    }
}

// A sealed run, read in the frame as it stands: 45, 5.
fn read_sealed(run: Run, is_event: bool, frame: &[u8]) -> Opened
    ensures { result ≡ read_sealed is_event frame.now run }
{
    let bad = run.refusal(frame.len());
    if bad != 0 {
        return Opened::Refused(bad);
    }
    if Limit::PAYLOAD < run.len {
        return Opened::Refused(Refusal::FRAME_LONG);
    }
    Opened::by(Held::Frame, run, count_items(run.bytes(frame), is_event))
}

// Open items are not opened again, unless there are none.
fn refuse_open(kept: usize, outside: u8) -> Opened
    ensures { result ≡ refuse_open kept outside }
{
    let bad = open_refusal(kept);
    if bad != 0 {
        return Opened::Refused(bad);
    }
    if outside != 0 {
        return Opened::Refused(outside);
    }
    Opened::none()
}

// And are only told to be open.
fn tell_open(kept: usize, outside: u8) -> Opened
    ensures { result ≡ tell_open kept outside }
{
    if outside != 0 {
        return Opened::AlreadyOpen;
    }
    if kept == 0 {
        return Opened::none();
    }
    Opened::AlreadyOpen
}

// 22, 23, 45, 5, 21.
pub fn decrypt(
    content: Content,
    key: Aes128Key,
    is_event: bool,
    relay_id: u32,
    timestamp: u32,
    frame: &[u8],
    work: &mut [u8],
) -> Opened
    ensures answer { result ≡ decrypt_of key.0 is_event relay_id timestamp content frame.now work.old }
    ensures work { work.new ≡ work_after key.0 is_event relay_id timestamp content frame.now work.old }
{
    match content {
        Content::Empty => Opened::none(),
        Content::Sealed(run) => open_sealed(run, key, is_event, relay_id, timestamp, frame, work),
        Content::Open { held, run } => {
            let s = held_in(held, frame, work);
            let told = count_items(run.bytes(s), is_event);
            refuse_open(told.kept, run.refusal(s.len()))
        }
        Content::Items(n) => refuse_open(n, 0),
    }
}

// If sealed: 45, 5.
pub fn decode<'a>(content: Content, is_event: bool, frame: &'a [u8], work: &'a [u8]) -> Opened
    ensures { result ≡ decode_of is_event content frame.now work.now }
{
    match content {
        Content::Empty => Opened::none(),
        Content::Sealed(run) => read_sealed(run, is_event, frame),
        Content::Open { held, run } => {
            let s = held_in(held, frame, work);
            let told = count_items(run.bytes(s), is_event);
            tell_open(told.kept, run.refusal(s.len()))
        }
        Content::Items(n) => tell_open(n, 0),
    }
}

// At the front of out: 29, 45, path entries, 19, 20, 5, 21.
pub(crate) fn encrypt(
    content: Content,
    key: Aes128Key,
    is_event: bool,
    relay_id: u32,
    timestamp: u32,
    lent: &Lent,
    out: &mut [u8],
) -> Written
    ensures answer { result ≡ answer_of (content_seal key.0 is_event relay_id timestamp lent.now content) out.old }
    ensures bytes { out.new ≡ out_of (content_seal key.0 is_event relay_id timestamp lent.now content) out.old }
{
    let bad = content.refusal(is_event, lent);
    if bad != 0 {
        return Written::Refused(bad);
    }
    let n = content.size(is_event, lent);
    if Limit::PAYLOAD < n {
        return Written::Refused(Refusal::FRAME_LONG);
    }
    if out.len() < n {
        return Written::Refused(Refusal::OUTPUT_SHORT);
    }
    content.put(is_event, lent, out, 0);
    let e = prepare(key);
    add_stream(&e, is_event, relay_id, timestamp, &mut out[..n]);
    Written::Bytes(n)
}
