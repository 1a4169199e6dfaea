// Calls the forms that the rules name and that no other program reaches: the cache's `add` in place, a heartbeat's path into and from a
// lent list of records, and an item's value as a part of what holds it. And what the layers above have no use for: an item alone, a packet's
// record and its plain struct, the least and largest values, numbers of two bytes. It prints a line for each; the gate compares with the file
// stdout.
#![tactic(auto)]

mod lent;

use base::{Checked, Written};
use cache::{Cache, CacheAnswer, PayloadCache};
use cache_words::Words;
use composed_items::{encode_command, encode_event};
use contents::{Content, Held};
use events::{CommandPayload, CommandRead, EventPayload, EventRead};
use fields::{
    Channel, Dr, Frequency, Mic, PayloadType, RelayId, RelayPath, Timestamp, TxPower, UplinkId,
};
use heartbeats::{HeartbeatPayload, HeartbeatRead, PathRead};
use items::{Event, Item, ItemKind, ItemRead};
use links::{DownlinkPayload, DownlinkRead, UplinkPayload, UplinkRead};
use packets::{MeshPacket, MeshRead};
use std::io;
use wire::{Run, be16_bytes, be16_of, part, write_hex};

// Bytes in hex, 32 of them at most.
fn hex(rt: &impl Print, label: &str, bytes: &[u8]) -> io::Result<()> {
    print!(rt; "{label}")?;
    let mut text = [0u8; 64];
    write_hex(bytes, &mut text, 0);
    rt.write_all(part(&text, 0, 2 * bytes.len()))
}

// ---- the cache, in place: P12's records, and a cache whose size was refused
fn record(id: u16) -> PayloadCache {
    PayloadCache {
        p_type: PayloadType::Uplink,
        uplink_id: id,
        timestamp: 0,
        relay_id: 0x0a0b0c0d,
    }
}

fn answer(rt: &impl Print, a: CacheAnswer) -> io::Result<()> {
    match a {
        CacheAnswer::New => print!(rt; " yes"),
        CacheAnswer::Seen => print!(rt; " no"),
        CacheAnswer::Refused(n) => print!(rt; " refused {n}"),
    }
}

fn add(rt: &impl Print, c: Cache, id: u16) -> io::Result<Cache> {
    let told = lent::add_once(c, record(id));
    let a = told.answer;
    answer(rt, a)?;
    Ok(told.cache)
}

// Which of the three records a cache would not take for new, asked of a copy.
fn holds(rt: &impl Print, label: &str, c: Cache) -> io::Result<()> {
    print!(rt; "{label}")?;
    for id in 1..=3 {
        let a = c.added(record(id)).answer;
        answer(rt, a)?;
    }
    println!(rt)
}

fn p12(rt: &impl Print) -> io::Result<()> {
    print!(rt; "P12 in place            ")?;
    let c0 = Cache::new(2).cache;
    let c1 = add(rt, c0, 1)?;
    let c2 = add(rt, c1, 2)?;
    let c3 = add(rt, c2, 1)?;
    let c4 = add(rt, c3, 3)?;
    let c5 = add(rt, c4, 1)?;
    let c6 = add(rt, c5, 2)?;
    println!(rt)?;
    holds(rt, "new after A B           ", c2)?;
    holds(rt, "new after A B A         ", c3)?;
    holds(rt, "new after A B A C       ", c4)?;
    holds(rt, "new after A B A C A B   ", c6)
}

// The same in the words that C lends, by records.
fn p12_in_words(rt: &impl Print) -> io::Result<()> {
    print!(rt; "P12 in words            ")?;
    let mut words: Words = [0; 195];
    match cache_words::clear(&mut words, 2) {
        Checked::Accepted => {}
        Checked::Refused(n) => print!(rt; " refused {n}")?,
    }
    for id in [1, 2, 1, 3, 1, 2] {
        answer(rt, cache_words::add(&mut words, record(id)))?;
    }
    println!(rt)
}

fn refused_size(rt: &impl Print, label: &str, size: usize) -> io::Result<()> {
    print!(rt; "{label}")?;
    let made = Cache::new(size);
    let told = made.answer;
    match told {
        Checked::Accepted => print!(rt; " accepted")?,
        Checked::Refused(n) => print!(rt; " refused {n}")?,
    }
    let c = add(rt, made.cache, 1)?;
    holds(rt, "", c)
}

// ---- a heartbeat's path, in a list of records; each record is printed as its six bytes
fn entry(rt: &impl Print, p: RelayPath) -> io::Result<()> {
    hex(rt, " ", &p.to_bytes().bytes)
}

fn unused() -> RelayPath {
    RelayPath {
        relay_id: 0xffffffff,
        rssi: -1,
        snr: -1,
        odd: 0,
    }
}

fn reads(rt: &impl Print, label: &str, b: &[u8]) -> io::Result<[RelayPath; 3]> {
    print!(rt; "{label}")?;
    let none = unused();
    let read = lent::read_three(b, [none; 3]);
    let answer = read.answer;
    match answer {
        HeartbeatRead::Heartbeat(h) => print!(rt; "entries {}", h.entries)?,
        HeartbeatRead::Refused(n) => print!(rt; "refused {n}")?,
    }
    let list = read.list;
    for p in list {
        entry(rt, p)?;
    }
    println!(rt)?;
    Ok(list)
}

// One entry of a value, without a list.
fn one(rt: &impl Print, label: &str, b: &[u8], i: usize) -> io::Result<()> {
    print!(rt; "{label}")?;
    match HeartbeatPayload::entry(b, i) {
        PathRead::Entry(p) => entry(rt, p)?,
        PathRead::Refused(n) => print!(rt; " refused {n}")?,
    }
    println!(rt)
}

fn entries(rt: &impl Print) -> io::Result<()> {
    let two = b"\x0a\x0b\x0c\x0d\x50\xc7\x01\x02\x03\x04\xff\x20";
    one(rt, "entry 1 of 12 bytes     ", two, 1)?;
    one(rt, "entry 2 of 12 bytes     ", two, 2)?;
    one(rt, "entry 0 of 5 bytes      ", &[1u8; 5], 0)?;
    one(rt, "entry 0 of 7 bytes      ", &[1u8; 7], 0)?;
    one(rt, "entry 1 of 7 bytes      ", &[1u8; 7], 1)?;
    one(rt, "entry 49 of 300 bytes   ", &[1u8; 300], 49)
}

fn writes(rt: &impl Print, label: &str, list: [RelayPath; 2], out: &mut [u8]) -> io::Result<()> {
    print!(rt; "{label}")?;
    match lent::write_two(list, out) {
        Written::Bytes(n) => print!(rt; "bytes {n}")?,
        Written::Refused(n) => print!(rt; "refused {n}")?,
    }
    hex(rt, " ", out)?;
    println!(rt)
}

fn paths(rt: &impl Print) -> io::Result<()> {
    let two = reads(
        rt,
        "path of 12 bytes         ",
        b"\x0a\x0b\x0c\x0d\x50\xc7\x01\x02\x03\x04\xff\x20",
    )?;
    reads(rt, "path of 0 bytes          ", b"")?;
    reads(rt, "path of 7 bytes          ", &[1u8; 7])?;
    reads(rt, "path of 24 bytes         ", &[1u8; 24])?;
    reads(rt, "path of 256 bytes        ", &[1u8; 256])?;
    reads(rt, "path of 258 bytes        ", &[1u8; 258])?;
    let list = [two[0], two[1]];
    writes(rt, "written into 14 bytes    ", list, &mut [0xeeu8; 14])?;
    writes(rt, "written into 12 bytes    ", list, &mut [0xeeu8; 12])?;
    writes(rt, "written into 11 bytes    ", list, &mut [0xeeu8; 11])?;
    let loud = RelayPath {
        relay_id: 1,
        rssi: 1,
        snr: 0,
        odd: 0,
    };
    writes(
        rt,
        "with an rssi of 1        ",
        [two[0], loud],
        &mut [0xeeu8; 12],
    )
}

// ---- an item's value
fn value<'a>(
    rt: &impl Print,
    label: &str,
    content: Content,
    item: Item,
    frame: &'a [u8],
    work: &'a [u8],
) -> io::Result<()> {
    let mut refused = 0u8;
    hex(rt, label, content.value(item, frame, work, &mut refused))?;
    if refused != 0 {
        print!(rt; "refused {refused}")?;
    }
    println!(rt)
}

// The first item of a content's payload.
fn first<'a>(
    rt: &impl Print,
    label: &str,
    content: Content,
    frame: &'a [u8],
    work: &'a [u8],
) -> io::Result<()> {
    match Event::decode(content.payload(frame, work), 0) {
        ItemRead::Kept { item, next: _ } => value(rt, label, content, item, frame, work),
        _ => println!(rt; "no item"),
    }
}

fn values(rt: &impl Print) -> io::Result<()> {
    let frame = b"\xee\x01\x02\xaa\xbb\xee";
    let work = b"\x05\x03\x01\x02\x03";
    let in_frame = Content::Open {
        held: Held::Frame,
        run: Run { start: 1, len: 4 },
    };
    let in_work = Content::Open {
        held: Held::Work,
        run: Run { start: 0, len: 5 },
    };
    first(rt, "value in the frame       ", in_frame, frame, work)?;
    first(rt, "value in the work buffer ", in_work, frame, work)?;
    let longer = Item {
        kind: ItemKind::Proprietary,
        tag: 1,
        value: Run { start: 2, len: 3 },
    };
    value(
        rt,
        "value past the payload   ",
        in_frame,
        longer,
        frame,
        work,
    )?;
    value(
        rt,
        "value of another payload ",
        in_work,
        longer,
        frame,
        work,
    )?;
    let sealed = Item::sealed(Run { start: 2, len: 3 });
    print!(rt; "a sealed run's type      {}", sealed.get_type())?;
    value(rt, ", value ", in_work, sealed, frame, work)
}

// ---- an item alone, as it is written in an event and in a command
fn made(rt: &impl Print, w: Written, out: &[u8]) -> io::Result<()> {
    match w {
        Written::Bytes(n) => hex(rt, "", part(out, 0, n)),
        Written::Refused(n) => print!(rt; "refused {n}"),
    }
}

fn encoded(rt: &impl Print, label: &str, item: Item, payload: &[u8]) -> io::Result<()> {
    let mut out = [0u8; 16];
    print!(rt; "{label}")?;
    let event = encode_event(item, payload, &mut out);
    made(rt, event, &out)?;
    print!(rt; ", in a command ")?;
    let command = encode_command(item, payload, &mut out);
    made(rt, command, &out)?;
    println!(rt)
}

fn encoded_at(rt: &impl Print, label: &str, payload: &[u8], at: usize) -> io::Result<()> {
    match Event::decode(payload, at) {
        ItemRead::Kept { item, next: _ } => encoded(rt, label, item, payload),
        _ => println!(rt; "no item"),
    }
}

fn encodings(rt: &impl Print) -> io::Result<()> {
    let payload = b"\x00\x06\x0a\x0b\x0c\x0d\x50\xc7\x01\x02\xaa\xbb";
    encoded_at(rt, "a heartbeat encoded      ", payload, 0)?;
    encoded_at(rt, "another item encoded     ", payload, 8)?;
    let run = Item::sealed(Run { start: 10, len: 2 });
    encoded(rt, "a sealed run encoded     ", run, payload)?;
    let past = Item::sealed(Run { start: 10, len: 3 });
    encoded(rt, "one past the payload     ", past, payload)
}

// ---- a packet's record, and a packet as a plain struct
fn known(rt: &impl Print, label: &str, r: PayloadCache) -> io::Result<()> {
    let p_type = r.p_type;
    print!(rt; "{label}")?;
    print!(rt; "type {}", p_type.to_byte())?;
    print!(rt; ", id {}", r.uplink_id)?;
    print!(rt; ", time {}", r.timestamp)?;
    print!(rt; ", relay {}", r.relay_id)?;
    println!(rt)
}

fn recorded(rt: &impl Print, label: &str, frame: &[u8]) -> io::Result<()> {
    match MeshPacket::from_slice(frame) {
        MeshRead::Mesh(p) => known(rt, label, PayloadCache::from_packet(p)),
        MeshRead::Refused(n) => print!(rt; "{label}{n}"),
    }
}

// A body alone: its relay id.
fn bodies(rt: &impl Print) -> io::Result<()> {
    let meta = b"\x12\x35\x50\x07\x02\x0a\x0b\x0c\x0d\x40";
    match UplinkPayload::from_slice(meta) {
        UplinkRead::Payload(p) => print!(rt; "relay id of an uplink    {}", p.relay_id)?,
        UplinkRead::Refused(n) => print!(rt; "refused                  {n}")?,
    }
    println!(rt)?;
    match DownlinkPayload::from_slice(meta) {
        DownlinkRead::Payload(p) => print!(rt; "relay id of a downlink   {}", p.relay_id)?,
        DownlinkRead::Refused(n) => print!(rt; "refused                  {n}")?,
    }
    println!(rt)?;
    let stamped = b"\x00\x00\x00\x3c\x0a\x0b\x0c";
    match EventPayload::from_slice(stamped) {
        EventRead::Payload(p) => print!(rt; "relay id of an event     {}", p.relay_id)?,
        EventRead::Refused(n) => print!(rt; "an event of seven bytes  {n}")?,
    }
    println!(rt)?;
    match CommandPayload::from_slice(stamped) {
        CommandRead::Payload(p) => print!(rt; "relay id of a command    {}", p.relay_id)?,
        CommandRead::Refused(n) => print!(rt; "a command of seven bytes {n}")?,
    }
    println!(rt)
}

fn packets(rt: &impl Print) -> io::Result<()> {
    recorded(
        rt,
        "record of an uplink      ",
        b"\xe0\x12\x35\x50\x07\x02\x0a\x0b\x0c\x0d\x40\x00\x00\x01\x02",
    )?;
    recorded(
        rt,
        "record of an event       ",
        b"\xf0\x00\x00\x00\x3c\x0a\x0b\x0c\x0d\x00\x00\x01\x02",
    )?;
    // of the type's bits two count
    known(
        rt,
        "record of three words    ",
        PayloadCache::unpack([0x00070fff, 60, 0x0a0b0c0d]),
    )
}

// ---- the least and the largest value of a field, and numbers of two bytes
fn range(rt: &impl Print, label: &str, least: u64, most: u64) -> io::Result<()> {
    println!(rt; "{label}{least} to {most}")
}

fn words(rt: &impl Print) -> io::Result<()> {
    let r = RelayId::limits();
    range(rt, "relay id                 ", r[0] as u64, r[1] as u64)?;
    let t = Timestamp::limits();
    range(rt, "timestamp                ", t[0] as u64, t[1] as u64)?;
    let m = Mic::limits();
    range(rt, "mic                      ", m[0] as u64, m[1] as u64)
}

fn limits(rt: &impl Print) -> io::Result<()> {
    let t = PayloadType::limits();
    range(rt, "payload type             ", t[0] as u64, t[1] as u64)?;
    let u = UplinkId::limits();
    range(rt, "uplink id                ", u[0] as u64, u[1] as u64)?;
    let d = Dr::limits();
    range(rt, "dr                       ", d[0] as u64, d[1] as u64)?;
    let c = Channel::limits();
    range(rt, "channel                  ", c[0] as u64, c[1] as u64)?;
    let p = TxPower::limits();
    range(rt, "tx power                 ", p[0] as u64, p[1] as u64)?;
    let f = Frequency::limits();
    range(rt, "frequency                ", f[0] as u64, f[1] as u64)?;
    words(rt)
}

fn two_bytes(rt: &impl Print) -> io::Result<()> {
    print!(rt; "0f a1                    {}", be16_of(0x0f, 0xa1))?;
    hex(rt, ", and back ", &be16_bytes(4001))?;
    println!(rt)
}

fn main(rt: HostRuntime) -> io::Result<()> {
    p12(&rt)?;
    p12_in_words(&rt)?;
    refused_size(&rt, "cache of 0              ", 0)?;
    refused_size(&rt, "cache of 65             ", 65)?;
    paths(&rt)?;
    entries(&rt)?;
    values(&rt)?;
    encodings(&rt)?;
    packets(&rt)?;
    bodies(&rt)?;
    limits(&rt)?;
    two_bytes(&rt)
}
