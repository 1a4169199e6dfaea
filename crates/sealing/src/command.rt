// A command sealed and opened.
ghost use Rattle.std.specs.Prelude.{◌≡◌, Bool};
ghost use Rattle.base.specs.Answers.{answer_of, out_of};
ghost use Rattle.sealing.specs.Open.{decrypt_of, work_after, decode_of};
ghost use Rattle.sealing.specs.Seal.{command_seal, command_sealed, command_opened};

use crate::content;
use crate::content::Opened;
use base::Written;
use contents::{Content, Lent};
use events::{CommandPayload, CommandRead};
use items::Opening;
use keys::Aes128Key;

// What opening answers: the payload from now on, and what was in it.
#[derive(Clone, Copy)]
pub enum CommandOpened {
    Opened {
        payload: CommandPayload,
        opening: Opening,
    },
    AlreadyOpen,
    Refused(u8),
}

// Sealed at the front of out, where it lies from then on: 29, 45, path entries, 19, 20, 5, 21.
pub fn encrypt(payload: CommandPayload, key: Aes128Key, lent: &Lent, out: &mut [u8]) -> CommandRead
    ensures answer { result ≡ command_sealed payload (answer_of (command_seal key.0 lent.now payload) out.old) }
    ensures bytes { out.new ≡ out_of (command_seal key.0 lent.now payload) out.old }
{
    let commands = payload.commands;
    match content::encrypt(
        commands,
        key,
        false,
        payload.relay_id,
        payload.timestamp,
        lent,
        out,
    ) {
        Written::Refused(n) => CommandRead::Refused(n),
        Written::Bytes(n) => CommandRead::Payload(CommandPayload {
            timestamp: payload.timestamp,
            relay_id: payload.relay_id,
            commands: Content::of(0, n),
        }),
    }
}

fn opened(payload: CommandPayload, o: Opened) -> CommandOpened
    ensures { result ≡ command_opened payload o }
{
    match o {
        Opened::Refused(n) => CommandOpened::Refused(n),
        Opened::AlreadyOpen => CommandOpened::AlreadyOpen,
        Opened::Opened { content, opening } => CommandOpened::Opened {
            payload: CommandPayload {
                timestamp: payload.timestamp,
                relay_id: payload.relay_id,
                commands: content,
            },
            opening,
        },
    }
}

// The clear bytes go into the work buffer: 22, 23, 45, 5, 21.
pub fn decrypt(
    payload: CommandPayload,
    key: Aes128Key,
    frame: &[u8],
    work: &mut [u8],
) -> CommandOpened
    ensures answer { result ≡ command_opened payload (decrypt_of key.0 Bool.false payload.relay_id payload.timestamp payload.commands frame.now work.old) }
    ensures work { work.new ≡ work_after key.0 Bool.false payload.relay_id payload.timestamp payload.commands frame.now work.old }
{
    let commands = payload.commands;
    opened(
        payload,
        content::decrypt(
            commands,
            key,
            false,
            payload.relay_id,
            payload.timestamp,
            frame,
            work,
        ),
    )
}

// The frame is read as it stands; if sealed: 45, 5.
pub fn decode<'a>(payload: CommandPayload, frame: &'a [u8], work: &'a [u8]) -> CommandOpened
    ensures { result ≡ command_opened payload (decode_of Bool.false payload.commands frame.now work.now) }
{
    let commands = payload.commands;
    opened(payload, content::decode(commands, false, frame, work))
}
