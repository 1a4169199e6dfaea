// Runs the published vectors of FIPS 197, SP 800-38A and RFC 4493, and the rules of keys, the examples P1 to P12, the limits of
// a cache and hop edits of one frame, and prints a line for each. The file stdout beside src/ has the published values; the gate compares.
#![tactic(auto)]

use base::{Checked, Written};
use cache::{Cache, CacheAnswer, PayloadCache};
use cipher::prepare;
use cmac::{absorb, cmac, finish, subkey1, subkey2};
use cmac_chain::Mac;
use contents::Lent;
use derivation::{encrypt_block, get_encryption_key, get_signing_key};
use fields::{FreqRead, HeaderRead, MHDR, PayloadType, UplinkMetadata, decode_freq, encode_freq};
use fips197::sbox_table;
use hops::set_hop_count;
use items::{Command, Event, ItemRead, Opening, OpeningRead};
use keys::Aes128Key;
use mic::{Validated, validate_mic};
use packets::{MeshPacket, MeshRead};
use std::io;
use wire::{Run, part, read_hex, write_hex};

// Sixteen bytes as a key's text, and the end of the line.
fn line(rt: &impl Print, label: &str, value: [u8; 16]) -> io::Result<()> {
    print!(rt; "{label}")?;
    let mut text = [0u8; 32];
    Aes128Key::from_bytes(value).write_text(&mut text);
    rt.write_all(&text)?;
    println!(rt)
}

fn number(rt: &impl Print, label: &str, n: u8) -> io::Result<()> {
    println!(rt; "{label}refused {n}")
}

fn key_of(text: &[u8]) -> Aes128Key {
    Aes128Key::from_str(text).key
}

fn block_of(text: &[u8]) -> [u8; 16] {
    key_of(text).to_bytes()
}

fn block(rt: &impl Print, label: &str, key: &[u8], plain: &[u8]) -> io::Result<()> {
    line(rt, label, encrypt_block(key_of(key), block_of(plain)))
}

fn key_read(rt: &impl Print, label: &str, r: keys::KeyRead) -> io::Result<()> {
    let answer = r.answer;
    let key = r.key;
    match answer {
        Checked::Accepted => line(rt, label, key.to_bytes()),
        Checked::Refused(n) => number(rt, label, n),
    }
}

fn written(rt: &impl Print, label: &str, w: Written) -> io::Result<()> {
    match w {
        Written::Bytes(n) => println!(rt; "{label}{n} bytes"),
        Written::Refused(n) => number(rt, label, n),
    }
}

fn fips197(rt: &impl Print) -> io::Result<()> {
    block(
        rt,
        "FIPS 197 appendix B      ",
        b"2b7e151628aed2a6abf7158809cf4f3c",
        b"3243f6a8885a308d313198a2e0370734",
    )?;
    block(
        rt,
        "FIPS 197 appendix C.1    ",
        b"000102030405060708090a0b0c0d0e0f",
        b"00112233445566778899aabbccddeeff",
    )
}

fn sbox(rt: &impl Print) -> io::Result<()> {
    for (i, row) in sbox_table().chunks_exact(16).enumerate() {
        print!(rt; "FIPS 197 table 4, row {i:x}  ")?;
        hex(rt, "", row)?;
        println!(rt)?;
    }
    Ok(())
}

fn sp800_38a(rt: &impl Print) -> io::Result<()> {
    let key = b"2b7e151628aed2a6abf7158809cf4f3c";
    for (label, plain) in [
        (
            "SP 800-38A F.1.1 block 1 ",
            b"6bc1bee22e409f96e93d7e117393172a",
        ),
        (
            "SP 800-38A F.1.1 block 2 ",
            b"ae2d8a571e03ac9c9eb76fac45af8e51",
        ),
        (
            "SP 800-38A F.1.1 block 3 ",
            b"30c81c46a35ce411e5fbc1191a0a52ef",
        ),
        (
            "SP 800-38A F.1.1 block 4 ",
            b"f69f2445df4f9b17ad2b417be66c3710",
        ),
    ] {
        block(rt, label, key, plain)?;
    }
    Ok(())
}

fn tags(rt: &impl Print, key: Aes128Key, m: &[u8; 64]) -> io::Result<()> {
    line(rt, "RFC 4493 example 1       ", cmac(key, &m[..0]))?;
    line(rt, "RFC 4493 example 2       ", cmac(key, &m[..16]))?;
    line(rt, "RFC 4493 example 3       ", cmac(key, &m[..40]))?;
    line(rt, "RFC 4493 example 4       ", cmac(key, m))
}

// The two longer examples again, in pieces that end inside a block, at its end and nowhere.
fn pieces(rt: &impl Print, key: Aes128Key, m: &[u8; 64]) -> io::Result<()> {
    let e = prepare(key);
    let a = absorb(Mac::start(), &e, &m[..7]);
    let b = absorb(a, &e, &m[7..32]);
    line(
        rt,
        "example 3 in pieces      ",
        finish(absorb(b, &e, &m[32..40]), &e),
    )?;
    let c = absorb(b, &e, &m[32..32]);
    line(
        rt,
        "example 4 in pieces      ",
        finish(absorb(c, &e, &m[32..64]), &e),
    )
}

fn both(rt: &impl Print, key: Aes128Key, m: &[u8; 64]) -> io::Result<()> {
    tags(rt, key, m)?;
    pieces(rt, key, m)
}

fn rfc4493(rt: &impl Print) -> io::Result<()> {
    let key = key_of(b"2b7e151628aed2a6abf7158809cf4f3c");
    let e = prepare(key);
    line(rt, "RFC 4493 K1              ", subkey1(&e))?;
    line(rt, "RFC 4493 K2              ", subkey2(&e))?;
    let mut m = [0u8; 64];
    read_hex(
        b"6bc1bee22e409f96e93d7e117393172aae2d8a571e03ac9c9eb76fac45af8e5130c81c46a35ce411e5fbc1191a0a52eff69f2445df4f9b17ad2b417be66c3710",
        &mut m,
    );
    both(rt, key, &m)
}

fn keys(rt: &impl Print) -> io::Result<()> {
    let root = key_of(b"000102030405060708090a0b0c0d0e0f");
    line(
        rt,
        "null key                 ",
        Aes128Key::null().to_bytes(),
    )?;
    line(
        rt,
        "signing key              ",
        get_signing_key(root).to_bytes(),
    )?;
    line(
        rt,
        "encryption key           ",
        get_encryption_key(root).to_bytes(),
    )
}

fn key_lengths(rt: &impl Print) -> io::Result<()> {
    let some = [7u8; 17];
    for (label, n) in [
        ("key of no bytes          ", 0),
        ("key of 15 bytes          ", 15),
        ("key of 16 bytes          ", 16),
        ("key of 17 bytes          ", 17),
    ] {
        key_read(rt, label, Aes128Key::from_slice(part(&some, 0, n)))?;
    }
    Ok(())
}

fn key_texts(rt: &impl Print) -> io::Result<()> {
    for (label, text) in [
        (
            "text in upper case       ",
            b"2B7E151628AED2A6ABF7158809CF4F3C".as_slice(),
        ),
        (
            "text of 31 digits        ",
            b"2b7e151628aed2a6abf7158809cf4f3".as_slice(),
        ),
        (
            "text of 33 digits        ",
            b"2b7e151628aed2a6abf7158809cf4f3c0".as_slice(),
        ),
        (
            "text of 31, one no digit ",
            b"2g7e151628aed2a6abf7158809cf4f3".as_slice(),
        ),
        (
            "text with a g            ",
            b"2b7e151628aed2a6abf7158809cf4f3g".as_slice(),
        ),
        (
            "text with a blank        ",
            b" b7e151628aed2a6abf7158809cf4f3c".as_slice(),
        ),
    ] {
        key_read(rt, label, Aes128Key::from_str(text))?;
    }
    Ok(())
}

// Whether a text of zeros that ends in the byte is a key's.
fn is_taken(b: u8) -> bool {
    let mut text = [b'0'; 32];
    text[31] = b;
    matches!(Aes128Key::from_str(&text).answer, Checked::Accepted)
}

// Of the 256 bytes 22 are digits: ten, and six in either case.
fn every_byte(rt: &impl Print) -> io::Result<()> {
    let count = (0..=u8::MAX).filter(|b| is_taken(*b)).count();
    println!(rt; "bytes that are digits    {count}")
}

// A refusal leaves the output as it was; a success leaves what is beyond the written bytes.
fn short_outputs(rt: &impl Print) -> io::Result<()> {
    let key = key_of(b"2b7e151628aed2a6abf7158809cf4f3c");
    let mut short = [0xaau8; 15];
    written(rt, "key into 15 bytes        ", key.write(&mut short))?;
    let mut shorter = [0xaau8; 31];
    written(
        rt,
        "text into 31 bytes       ",
        key.write_text(&mut shorter),
    )?;
    key_read(
        rt,
        "the output               ",
        Aes128Key::from_slice(part(&shorter, 0, 16)),
    )
}

fn long_outputs(rt: &impl Print) -> io::Result<()> {
    let key = key_of(b"2b7e151628aed2a6abf7158809cf4f3c");
    let mut out = [0xaau8; 48];
    written(rt, "text into 48 bytes       ", key.write_text(&mut out))?;
    key_read(
        rt,
        "the text again           ",
        Aes128Key::from_str(part(&out, 0, 32)),
    )?;
    key_read(
        rt,
        "what is beyond           ",
        Aes128Key::from_slice(part(&out, 32, 16)),
    )
}

fn whole_output(rt: &impl Print) -> io::Result<()> {
    let key = key_of(b"2b7e151628aed2a6abf7158809cf4f3c");
    let mut whole = [0xaau8; 16];
    written(rt, "key into 16 bytes        ", key.write(&mut whole))?;
    key_read(
        rt,
        "the key again            ",
        Aes128Key::from_slice(&whole),
    )
}

// Bytes in hex, 32 of them at most.
fn hex(rt: &impl Print, label: &str, bytes: &[u8]) -> io::Result<()> {
    print!(rt; "{label}")?;
    let mut text = [0u8; 64];
    write_hex(bytes, &mut text, 0);
    rt.write_all(part(&text, 0, 2 * bytes.len()))
}

fn uplink_written(rt: &impl Print, m: UplinkMetadata) -> io::Result<()> {
    let w = m.to_bytes();
    let answer = w.answer;
    let bytes = w.bytes;
    match answer {
        Checked::Accepted => hex(rt, ", written ", &bytes)?,
        Checked::Refused(n) => number(rt, ", ", n)?,
    }
    println!(rt)
}

fn same(a: UplinkMetadata, b: UplinkMetadata) -> bool {
    (a.uplink_id, a.dr, a.rssi, a.snr, a.odd, a.channel)
        == (b.uplink_id, b.dr, b.rssi, b.snr, b.odd, b.channel)
}

// Whether the bytes are read as the document has it, and what is written again.
fn metadata(
    rt: &impl Print,
    label: &str,
    bytes: [u8; 5],
    expected: UplinkMetadata,
) -> io::Result<()> {
    let m = UplinkMetadata::from_bytes(bytes);
    if same(m, expected) {
        print!(rt; "{label}read so")?;
    } else {
        print!(rt; "{label}read otherwise")?;
    }
    uplink_written(rt, m)
}

fn frequency_read(rt: &impl Print, label: &str, bytes: &[u8]) -> io::Result<()> {
    match decode_freq(bytes) {
        FreqRead::Hertz(n) => println!(rt; "{label}read as {n}"),
        FreqRead::Refused(n) => number(rt, label, n),
    }
}

fn frequency(rt: &impl Print, label: &str, freq: u32) -> io::Result<()> {
    let w = encode_freq(freq);
    let answer = w.answer;
    let bytes = w.bytes;
    match answer {
        Checked::Accepted => {
            hex(rt, label, &bytes)?;
            frequency_read(rt, ", ", &bytes)
        }
        Checked::Refused(n) => number(rt, label, n),
    }
}

fn kind(rt: &impl Print, t: PayloadType) -> io::Result<()> {
    match t {
        PayloadType::Uplink => print!(rt; "uplink"),
        PayloadType::Downlink => print!(rt; "downlink"),
        PayloadType::Event => print!(rt; "event"),
        PayloadType::Command => print!(rt; "command"),
    }
}

fn header(rt: &impl Print, label: &str, b: u8) -> io::Result<()> {
    match MHDR::from_byte(b) {
        HeaderRead::Header(m) => {
            let t = m.payload_type;
            let hops = m.hop_count;
            print!(rt; "{label}")?;
            kind(rt, t)?;
            println!(rt; ", hops {hops}")
        }
        HeaderRead::Refused(n) => number(rt, label, n),
    }
}

fn p1(rt: &impl Print) -> io::Result<()> {
    metadata(
        rt,
        "P1 291, 5, -80, 7, 2     ",
        [0x12, 0x35, 0x50, 0x07, 0x02],
        UplinkMetadata {
            uplink_id: 291,
            dr: 5,
            rssi: -80,
            snr: 7,
            channel: 2,
            odd: 0,
        },
    )
}

fn p2(rt: &impl Print) -> io::Result<()> {
    metadata(
        rt,
        "P2 4095,15,-255,-32,255  ",
        [0xff, 0xff, 0xff, 0x20, 0xff],
        UplinkMetadata {
            uplink_id: 4095,
            dr: 15,
            rssi: -255,
            snr: -32,
            channel: 255,
            odd: 0,
        },
    )
}

fn p3(rt: &impl Print) -> io::Result<()> {
    metadata(
        rt,
        "P3 0, 0, 0, -1, 0        ",
        [0, 0, 0, 0xff, 0],
        UplinkMetadata {
            uplink_id: 0,
            dr: 0,
            rssi: 0,
            snr: -1,
            channel: 0,
            odd: 3,
        },
    )
}

fn frequencies(rt: &impl Print) -> io::Result<()> {
    frequency(rt, "P4 868100000             ", 868100000)?;
    frequency(rt, "P5 2400000001            ", 2400000001)?;
    frequency_read(rt, "P5 b71b00                ", &[0xb7, 0x1b, 0x00])?;
    frequency(rt, "P6 1200000000            ", 1200000000)?;
    frequency(rt, "P7 1677721500            ", 1677721500)?;
    frequency_read(rt, "P7 ffffff                ", &[0xff, 0xff, 0xff])?;
    frequency(rt, "P8 1677721650            ", 1677721650)?;
    frequency(rt, "0, first of 100 Hz       ", 0)?;
    frequency(rt, "1199999900, the last     ", 1199999900)?;
    frequency(rt, "2400000000, of 200 Hz    ", 2400000000)?;
    frequency(rt, "3355443000, the last     ", 3355443000)
}

fn headers(rt: &impl Print) -> io::Result<()> {
    header(rt, "P9 ff                    ", 0xff)?;
    header(rt, "P10 df                   ", 0xdf)
}

// ---- P11: what an opening reports of a payload, and its items one at a time
fn counts(rt: &impl Print, label: &str, o: Opening) -> io::Result<()> {
    let kept = o.kept;
    let skipped = o.skipped;
    let kept_bytes = o.kept_bytes;
    let skipped_bytes = o.skipped_bytes;
    let cut_bytes = o.cut_bytes;
    print!(rt; "{label}kept {kept}, skipped {skipped}")?;
    print!(rt; ", bytes {kept_bytes}, {skipped_bytes}, {cut_bytes}")?;
    if o.clean {
        println!(rt; " clean")
    } else {
        println!(rt; " unclean")
    }
}

fn report(rt: &impl Print, label: &str, r: OpeningRead) -> io::Result<()> {
    match r {
        OpeningRead::Refused(n) => number(rt, label, n),
        OpeningRead::Opening(o) => counts(rt, label, o),
    }
}

// Where a run lies, and the end of the line.
fn placed(rt: &impl Print, run: Run) -> io::Result<()> {
    let start = run.start;
    let len = run.len;
    println!(rt; ", at {start}, bytes {len}")
}

// The item at a place, and the place behind it.
fn item(rt: &impl Print, label: &str, r: ItemRead) -> io::Result<usize> {
    match r {
        ItemRead::Kept { item, next } => {
            let t = item.get_type();
            print!(rt; "{label}kept {t}")?;
            placed(rt, item.value)?;
            Ok(next)
        }
        ItemRead::Skipped { item, next } => {
            print!(rt; "{label}skipped")?;
            placed(rt, item.value)?;
            Ok(next)
        }
        ItemRead::Cut { tail, next } => {
            print!(rt; "{label}cut")?;
            placed(rt, tail)?;
            Ok(next)
        }
        ItemRead::End { next } => {
            println!(rt; "{label}end")?;
            Ok(next)
        }
        ItemRead::Refused(n) => {
            number(rt, label, n)?;
            Ok(0)
        }
    }
}

fn p11(rt: &impl Print) -> io::Result<()> {
    let p = b"\x01\x02\xaa\xbb\x00\x05\x01\x02\x03\x04\x05\x02\x00\x03\x09\xcc";
    report(rt, "P11 event                ", Event::count(p))?;
    let a = item(rt, "P11 event, item 1        ", Event::decode(p, 0))?;
    let b = item(rt, "P11 event, item 2        ", Event::decode(p, a))?;
    let c = item(rt, "P11 event, item 3        ", Event::decode(p, b))?;
    let d = item(rt, "P11 event, item 4        ", Event::decode(p, c))?;
    item(rt, "P11 event, item 5        ", Event::decode(p, d))?;
    report(rt, "P11 command              ", Command::count(p))?;
    let e = item(rt, "P11 command, item 1      ", Command::decode(p, 0))?;
    item(rt, "P11 command, item 2      ", Command::decode(p, e))?;
    Ok(())
}

// ---- P12: the cache
fn answer(rt: &impl Print, a: CacheAnswer) -> io::Result<()> {
    match a {
        CacheAnswer::New => print!(rt; " yes"),
        CacheAnswer::Seen => print!(rt; " no"),
        CacheAnswer::Refused(n) => print!(rt; " refused {n}"),
    }
}

fn add(
    rt: &impl Print,
    c: Cache,
    p_type: PayloadType,
    uplink_id: u16,
    timestamp: u32,
    relay_id: u32,
) -> io::Result<Cache> {
    let told = c.added(PayloadCache {
        p_type,
        uplink_id,
        timestamp,
        relay_id,
    });
    let a = told.answer;
    answer(rt, a)?;
    Ok(told.cache)
}

fn uplink(rt: &impl Print, c: Cache, id: u16) -> io::Result<Cache> {
    add(rt, c, PayloadType::Uplink, id, 0, 0x0a0b0c0d)
}

fn p12(rt: &impl Print) -> io::Result<()> {
    print!(rt; "P12                     ")?;
    let c0 = Cache::new(2).cache;
    let c1 = uplink(rt, c0, 1)?;
    let c2 = uplink(rt, c1, 2)?;
    let c3 = uplink(rt, c2, 1)?;
    let c4 = uplink(rt, c3, 3)?;
    let c5 = uplink(rt, c4, 1)?;
    uplink(rt, c5, 2)?;
    println!(rt)
}

fn size(rt: &impl Print, label: &str, n: usize) -> io::Result<()> {
    let made = Cache::new(n);
    let a = made.answer;
    match a {
        Checked::Accepted => print!(rt; "{label}")?,
        Checked::Refused(k) => print!(rt; "{label} refused {k}")?,
    }
    uplink(rt, made.cache, 1)?;
    println!(rt)
}

// The third byte of a relay id counts, and so does the type.
fn ids(rt: &impl Print) -> io::Result<()> {
    print!(rt; "other ids               ")?;
    let c0 = Cache::new(64).cache;
    let c1 = add(rt, c0, PayloadType::Event, 0, 60, 0x0a0b0c0d)?;
    let c2 = add(rt, c1, PayloadType::Event, 0, 60, 0x0a0b0d0d)?;
    let c3 = add(rt, c2, PayloadType::Command, 0, 60, 0x0a0b0c0d)?;
    add(rt, c3, PayloadType::Event, 0, 60, 0x0a0b0c0d)?;
    println!(rt)
}

// ---- hop edits, in the received buffer
fn validated(rt: &impl Print, v: Validated) -> io::Result<()> {
    match v {
        Validated::Valid => println!(rt; " valid"),
        Validated::Invalid => println!(rt; " not valid"),
        Validated::Refused(n) => number(rt, " ", n),
    }
}

fn valid(rt: &impl Print, frame: &[u8], key: Aes128Key) -> io::Result<()> {
    match MeshPacket::from_slice(frame) {
        MeshRead::Refused(n) => number(rt, " ", n),
        MeshRead::Mesh(p) => {
            let lent = Lent::of(frame, b"", &[[0, 0]], &[[0, 0]], &[0], &[0], &[0]);
            validated(rt, validate_mic(p, key, &lent))
        }
    }
}

// One edit; the frame then, and whether it validates.
fn edit(rt: &impl Print, label: &str, frame: &mut [u8], hop_count: u8) -> io::Result<()> {
    let key = key_of(b"000102030405060708090a0b0c0d0e0f");
    match set_hop_count(frame, hop_count, key) {
        Checked::Accepted => print!(rt; "{label}accepted ")?,
        Checked::Refused(n) => print!(rt; "{label}refused {n} ")?,
    }
    let mut text = [0u8; 64];
    write_hex(frame, &mut text, 0);
    rt.write_all(part(&text, 0, 2 * frame.len()))?;
    valid(rt, frame, key)
}

// One behind the other in one buffer: a refused edit changes no byte. The MICs are OpenSSL's.
fn edits(rt: &impl Print) -> io::Result<()> {
    let mut frame = [0u8; 15];
    read_hex(b"e0123550c7020a0b0c0d40f42fc987", &mut frame);
    edit(rt, "hop 0                    ", &mut frame, 0)?;
    edit(rt, "hop 8                    ", &mut frame, 8)?;
    edit(rt, "hop 9                    ", &mut frame, 9)?;
    edit(rt, "hop 2                    ", &mut frame, 2)?;
    let mut lora = [0x40u8];
    edit(rt, "hop 1 of another frame   ", &mut lora, 1)
}

fn main(rt: HostRuntime) -> io::Result<()> {
    fips197(&rt)?;
    sbox(&rt)?;
    sp800_38a(&rt)?;
    rfc4493(&rt)?;
    keys(&rt)?;
    key_lengths(&rt)?;
    key_texts(&rt)?;
    every_byte(&rt)?;
    short_outputs(&rt)?;
    long_outputs(&rt)?;
    whole_output(&rt)?;
    p1(&rt)?;
    p2(&rt)?;
    p3(&rt)?;
    frequencies(&rt)?;
    headers(&rt)?;
    p11(&rt)?;
    p12(&rt)?;
    size(&rt, "cache of 0              ", 0)?;
    size(&rt, "cache of 65             ", 65)?;
    size(&rt, "cache of 1              ", 1)?;
    ids(&rt)?;
    edits(&rt)
}
