// An event sealed and opened.
ghost use Rattle.std.specs.Prelude.{◌≡◌, Bool};
ghost use Rattle.base.specs.Answers.{answer_of, out_of};
ghost use Rattle.sealing.specs.Open.{decrypt_of, work_after, decode_of};
ghost use Rattle.sealing.specs.Seal.{event_seal, event_sealed, event_opened};

use crate::content;
use crate::content::Opened;
use base::Written;
use contents::{Content, Lent};
use events::{EventPayload, EventRead};
use items::Opening;
use keys::Aes128Key;

// What opening answers: the payload from now on, and what was in it.
#[derive(Clone, Copy)]
pub enum EventOpened {
    Opened {
        payload: EventPayload,
        opening: Opening,
    },
    AlreadyOpen,
    Refused(u8),
}

// Sealed at the front of out, where it lies from then on: 29, 45, path entries, 19, 20, 5, 21.
pub fn encrypt(payload: EventPayload, key: Aes128Key, lent: &Lent, out: &mut [u8]) -> EventRead
    ensures answer { result ≡ event_sealed payload (answer_of (event_seal key.0 lent.now payload) out.old) }
    ensures bytes { out.new ≡ out_of (event_seal key.0 lent.now payload) out.old }
{
    let events = payload.events;
    match content::encrypt(
        events,
        key,
        true,
        payload.relay_id,
        payload.timestamp,
        lent,
        out,
    ) {
        Written::Refused(n) => EventRead::Refused(n),
        Written::Bytes(n) => EventRead::Payload(EventPayload {
            timestamp: payload.timestamp,
            relay_id: payload.relay_id,
            events: Content::of(0, n),
        }),
    }
}

fn opened(payload: EventPayload, o: Opened) -> EventOpened
    ensures { result ≡ event_opened payload o }
{
    match o {
        Opened::Refused(n) => EventOpened::Refused(n),
        Opened::AlreadyOpen => EventOpened::AlreadyOpen,
        Opened::Opened { content, opening } => EventOpened::Opened {
            payload: EventPayload {
                timestamp: payload.timestamp,
                relay_id: payload.relay_id,
                events: content,
            },
            opening,
        },
    }
}

// The clear bytes go into the work buffer: 22, 23, 45, 5, 21.
pub fn decrypt(payload: EventPayload, key: Aes128Key, frame: &[u8], work: &mut [u8]) -> EventOpened
    ensures answer { result ≡ event_opened payload (decrypt_of key.0 Bool.true payload.relay_id payload.timestamp payload.events frame.now work.old) }
    ensures work { work.new ≡ work_after key.0 Bool.true payload.relay_id payload.timestamp payload.events frame.now work.old }
{
    let events = payload.events;
    opened(
        payload,
        content::decrypt(
            events,
            key,
            true,
            payload.relay_id,
            payload.timestamp,
            frame,
            work,
        ),
    )
}

// The frame is read as it stands; if sealed: 45, 5.
pub fn decode<'a>(payload: EventPayload, frame: &'a [u8], work: &'a [u8]) -> EventOpened
    ensures { result ≡ event_opened payload (decode_of Bool.true payload.events frame.now work.now) }
{
    let events = payload.events;
    opened(payload, content::decode(events, true, frame, work))
}
