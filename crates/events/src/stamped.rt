// Event and command bodies: timestamp, relay id, and what follows them.
ghost use Rattle.std.specs.Prelude.{◌≡◌};
ghost use Rattle.base.specs.Answers.{answer_of, out_of};
ghost use Rattle.links.specs.Write.{limited_of, prefixed, with_mic};
ghost use Rattle.events.specs.Read.{stamped_at, event_at, command_at};
ghost use Rattle.events.specs.Write.{stamp, stamped_of_event, stamped_of_command, event_wire, command_wire, stamped_wire};

use base::{Limit, Refusal, Written};
use contents::{Content, Lent};
use wire::{be32_bytes, be32_of, put_all};

#[derive(Clone, Copy)]
pub struct EventPayload {
    pub timestamp: u32,
    pub relay_id: u32,
    pub events: Content,
}

#[derive(Clone, Copy)]
pub enum EventRead {
    Payload(EventPayload),
    Refused(u8),
}

#[derive(Clone, Copy)]
pub struct CommandPayload {
    pub timestamp: u32,
    pub relay_id: u32,
    pub commands: Content,
}

#[derive(Clone, Copy)]
pub enum CommandRead {
    Payload(CommandPayload),
    Refused(u8),
}

// What the two have in common.
#[derive(Clone, Copy)]
struct Stamped {
    timestamp: u32,
    relay_id: u32,
    content: Content,
}

#[derive(Clone, Copy)]
enum StampedRead {
    Stamped(Stamped),
    Refused(u8),
}

impl Stamped {
    fn read_at(b: &[u8], at: u8) -> StampedRead
        ensures { result ≡ stamped_at at b.now }
    {
        if Limit::BODY < b.len() {
            return StampedRead::Refused(Refusal::FRAME_LONG);
        }
        if b.len() < Content::LEAST {
            return StampedRead::Refused(Refusal::BODY_SHORT);
        }
        StampedRead::Stamped(Stamped {
            timestamp: be32_of(b[0], b[1], b[2], b[3]),
            relay_id: be32_of(b[4], b[5], b[6], b[7]),
            content: Content::of(Content::LEAST + at as usize, b.len() - Content::LEAST),
        })
    }

    fn head(self) -> [u8; 8]
        ensures { result ≡ stamp self.timestamp self.relay_id }
    {
        let t = be32_bytes(self.timestamp);
        let r = be32_bytes(self.relay_id);
        [t[0], t[1], t[2], t[3], r[0], r[1], r[2], r[3]]
    }

    fn write(self, is_event: bool, lent: &Lent, out: &mut [u8]) -> Written
        ensures answer { result ≡ answer_of (limited_of (stamped_wire is_event lent.now self)) out.old }
        ensures bytes { out.new ≡ out_of (limited_of (stamped_wire is_event lent.now self)) out.old }
    {
        let content = self.content;
        let bad = content.refusal(is_event, lent);
        if bad != 0 {
            return Written::Refused(bad);
        }
        let n = content.size(is_event, lent);
        if Limit::PAYLOAD < n {
            return Written::Refused(Refusal::FRAME_LONG);
        }
        if out.len() < 8 + n {
            return Written::Refused(Refusal::OUTPUT_SHORT);
        }
        let h = self.head();
        put_all(&h, out, 0);
        content.put(is_event, lent, out, 8);
        Written::Bytes(8 + n)
    }

    fn write_in(
        self,
        is_event: bool,
        first: u8,
        has_mic: bool,
        mic: u32,
        lent: &Lent,
        out: &mut [u8],
    ) -> Written
        ensures answer { result ≡ answer_of (with_mic has_mic mic (prefixed first (stamped_wire is_event lent.now self))) out.old }
        ensures bytes { out.new ≡ out_of (with_mic has_mic mic (prefixed first (stamped_wire is_event lent.now self))) out.old }
    {
        let content = self.content;
        let bad = content.refusal(is_event, lent);
        if bad != 0 {
            return Written::Refused(bad);
        }
        if !has_mic {
            return Written::Refused(Refusal::MIC_MISSING);
        }
        let n = content.size(is_event, lent);
        if Limit::PAYLOAD < n {
            return Written::Refused(Refusal::FRAME_LONG);
        }
        if out.len() < 13 + n {
            return Written::Refused(Refusal::OUTPUT_SHORT);
        }
        let byte = [first];
        let h = self.head();
        let last = be32_bytes(mic);
        put_all(&byte, out, 0);
        put_all(&h, out, 1);
        content.put(is_event, lent, out, 9);
        put_all(&last, out, 9 + n);
        Written::Bytes(13 + n)
    }
}

impl EventPayload {
    // A body that lies in its frame from byte `at` on.
    pub fn read_at(b: &[u8], at: u8) -> EventRead
        ensures { result ≡ event_at at b.now }
    {
        match Stamped::read_at(b, at) {
            StampedRead::Refused(n) => EventRead::Refused(n),
            StampedRead::Stamped(s) => {
                let events = s.content;
                EventRead::Payload(EventPayload {
                    timestamp: s.timestamp,
                    relay_id: s.relay_id,
                    events,
                })
            }
        }
    }

    pub fn from_slice(b: &[u8]) -> EventRead
        ensures { result ≡ event_at 0 b.now }
    {
        EventPayload::read_at(b, 0)
    }

    fn stamped(self) -> Stamped
        ensures { result ≡ stamped_of_event self }
    {
        let content = self.events;
        Stamped {
            timestamp: self.timestamp,
            relay_id: self.relay_id,
            content,
        }
    }

    // All that comes before the items.
    pub fn head(self) -> [u8; 8]
        ensures { result ≡ stamp self.timestamp self.relay_id }
    {
        self.stamped().head()
    }

    // The body: 45, path entries, 19, 20, 5, 21.
    pub fn write(self, lent: &Lent, out: &mut [u8]) -> Written
        ensures answer { result ≡ answer_of (limited_of (event_wire lent.now self)) out.old }
        ensures bytes { out.new ≡ out_of (limited_of (event_wire lent.now self)) out.old }
    {
        self.stamped().write(true, lent, out)
    }

    // The frame around it, behind its header byte: 45, path entries, 19, 20, 27, 5, 21.
    pub fn write_in(
        self,
        first: u8,
        has_mic: bool,
        mic: u32,
        lent: &Lent,
        out: &mut [u8],
    ) -> Written
        ensures answer { result ≡ answer_of (with_mic has_mic mic (prefixed first (event_wire lent.now self))) out.old }
        ensures bytes { out.new ≡ out_of (with_mic has_mic mic (prefixed first (event_wire lent.now self))) out.old }
    {
        self.stamped()
            .write_in(true, first, has_mic, mic, lent, out)
    }
}

impl CommandPayload {
    // A body that lies in its frame from byte `at` on.
    pub fn read_at(b: &[u8], at: u8) -> CommandRead
        ensures { result ≡ command_at at b.now }
    {
        match Stamped::read_at(b, at) {
            StampedRead::Refused(n) => CommandRead::Refused(n),
            StampedRead::Stamped(s) => {
                let commands = s.content;
                CommandRead::Payload(CommandPayload {
                    timestamp: s.timestamp,
                    relay_id: s.relay_id,
                    commands,
                })
            }
        }
    }

    pub fn from_slice(b: &[u8]) -> CommandRead
        ensures { result ≡ command_at 0 b.now }
    {
        CommandPayload::read_at(b, 0)
    }

    fn stamped(self) -> Stamped
        ensures { result ≡ stamped_of_command self }
    {
        let content = self.commands;
        Stamped {
            timestamp: self.timestamp,
            relay_id: self.relay_id,
            content,
        }
    }

    // All that comes before the items.
    pub fn head(self) -> [u8; 8]
        ensures { result ≡ stamp self.timestamp self.relay_id }
    {
        self.stamped().head()
    }

    // The body: 45, path entries, 19, 20, 5, 21.
    pub fn write(self, lent: &Lent, out: &mut [u8]) -> Written
        ensures answer { result ≡ answer_of (limited_of (command_wire lent.now self)) out.old }
        ensures bytes { out.new ≡ out_of (limited_of (command_wire lent.now self)) out.old }
    {
        self.stamped().write(false, lent, out)
    }

    // The frame around it, behind its header byte: 45, path entries, 19, 20, 27, 5, 21.
    pub fn write_in(
        self,
        first: u8,
        has_mic: bool,
        mic: u32,
        lent: &Lent,
        out: &mut [u8],
    ) -> Written
        ensures answer { result ≡ answer_of (with_mic has_mic mic (prefixed first (command_wire lent.now self))) out.old }
        ensures bytes { out.new ≡ out_of (with_mic has_mic mic (prefixed first (command_wire lent.now self))) out.old }
    {
        self.stamped()
            .write_in(false, first, has_mic, mic, lent, out)
    }
}
