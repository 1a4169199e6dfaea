// A mesh packet sealed and opened: its event or command, and nothing of an uplink or a downlink.
ghost use Rattle.std.specs.Prelude.{◌≡◌};
ghost use Rattle.base.specs.Answers.{out_of};
ghost use Rattle.packets.specs.Read.{carrying};
ghost use Rattle.sealing.specs.Mesh.{nothing_to_open, seal_of, mesh_sealed, of_event_opened, of_command_opened, mesh_decrypted, mesh_work, mesh_decoded};

use crate::command::CommandOpened;
use crate::event::EventOpened;
use crate::{command, event};
use contents::Lent;
use events::{CommandRead, EventRead};
use items::Opening;
use keys::Aes128Key;
use packets::{MeshPacket, MeshRead, Payload};

// What opening answers: the packet from now on, and what was in it.
#[derive(Clone, Copy)]
pub enum MeshOpened {
    Opened {
        packet: MeshPacket,
        opening: Opening,
    },
    AlreadyOpen,
    Refused(u8),
}

// The packet with another payload.
fn carrying(packet: MeshPacket, payload: Payload) -> MeshPacket
    ensures { result ≡ carrying packet payload }
{
    let mhdr = packet.mhdr;
    let has_mic = packet.has_mic;
    let mic = packet.mic;
    MeshPacket {
        mhdr,
        payload,
        has_mic,
        mic,
    }
}

// An event's or a command's payload, sealed at the front of out: 29, 45, path entries, 19, 20, 5, 21. Of an uplink or a downlink nothing.
pub fn encrypt(packet: MeshPacket, key: Aes128Key, lent: &Lent, out: &mut [u8]) -> MeshRead
    ensures answer { result ≡ mesh_sealed key.0 lent.now packet packet.payload out.old }
    ensures bytes { out.new ≡ out_of (seal_of key.0 lent.now packet.payload) out.old }
{
    let payload = packet.payload;
    match payload {
        Payload::Uplink(_) => MeshRead::Mesh(packet),
        Payload::Downlink(_) => MeshRead::Mesh(packet),
        Payload::Event(p) => match event::encrypt(p, key, lent, out) {
            EventRead::Payload(q) => MeshRead::Mesh(carrying(packet, Payload::Event(q))),
            EventRead::Refused(n) => MeshRead::Refused(n),
        },
        Payload::Command(p) => match command::encrypt(p, key, lent, out) {
            CommandRead::Payload(q) => MeshRead::Mesh(carrying(packet, Payload::Command(q))),
            CommandRead::Refused(n) => MeshRead::Refused(n),
        },
    }
}

fn of_event(packet: MeshPacket, o: EventOpened) -> MeshOpened
    ensures { result ≡ of_event_opened packet o }
{
    match o {
        EventOpened::Refused(n) => MeshOpened::Refused(n),
        EventOpened::AlreadyOpen => MeshOpened::AlreadyOpen,
        EventOpened::Opened { payload, opening } => MeshOpened::Opened {
            packet: carrying(packet, Payload::Event(payload)),
            opening,
        },
    }
}

fn of_command(packet: MeshPacket, o: CommandOpened) -> MeshOpened
    ensures { result ≡ of_command_opened packet o }
{
    match o {
        CommandOpened::Refused(n) => MeshOpened::Refused(n),
        CommandOpened::AlreadyOpen => MeshOpened::AlreadyOpen,
        CommandOpened::Opened { payload, opening } => MeshOpened::Opened {
            packet: carrying(packet, Payload::Command(payload)),
            opening,
        },
    }
}

fn as_it_is(packet: MeshPacket) -> MeshOpened
    ensures { result ≡ nothing_to_open packet }
{
    MeshOpened::Opened {
        packet,
        opening: Opening::none(),
    }
}

// 22, 23, 45, 5, 21.
pub fn decrypt(packet: MeshPacket, key: Aes128Key, frame: &[u8], work: &mut [u8]) -> MeshOpened
    ensures answer { result ≡ mesh_decrypted key.0 packet packet.payload frame.now work.old }
    ensures work { work.new ≡ mesh_work key.0 packet.payload frame.now work.old }
{
    let payload = packet.payload;
    match payload {
        Payload::Uplink(_) => as_it_is(packet),
        Payload::Downlink(_) => as_it_is(packet),
        Payload::Event(p) => of_event(packet, event::decrypt(p, key, frame, work)),
        Payload::Command(p) => of_command(packet, command::decrypt(p, key, frame, work)),
    }
}

// If sealed: 45, 5.
pub fn decode<'a>(packet: MeshPacket, frame: &'a [u8], work: &'a [u8]) -> MeshOpened
    ensures { result ≡ mesh_decoded packet packet.payload frame.now work.now }
{
    let payload = packet.payload;
    match payload {
        Payload::Uplink(_) => as_it_is(packet),
        Payload::Downlink(_) => as_it_is(packet),
        Payload::Event(p) => of_event(packet, event::decode(p, frame, work)),
        Payload::Command(p) => of_command(packet, command::decode(p, frame, work)),
    }
}
