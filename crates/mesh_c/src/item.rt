// Items one at a time, their counts, heartbeats, and the key stream.
ghost use Rattle.std.specs.Prelude.{◌≡◌, not};
ghost use Rattle.base.specs.Answers.{answer_of, out_of, number_in, left_by, written_says};
ghost use Rattle.heartbeats.specs.Heartbeat.{beat_says, beat_of, path_says, entry_read, beat_wire};
ghost use Rattle.heartbeats.specs.Paths.{paths_in};
ghost use Rattle.items.specs.Items.{counts_of, counts_say, bare_item_at, item_says};
ghost use Rattle.composed_items.specs.One.{one_wire};
ghost use Rattle.key_stream.specs.Stream.{sealed_of};
ghost use Rattle.mesh_c.specs.Face.{as_it_is, count_list, item_list, found_list, entries_in, entry_relay, entry_rssi, entry_snr, entry_odd};

use crate::field::from_u8;
use base::Written;
use composed_items::write_item;
use heartbeats::{HeartbeatPayload, HeartbeatRead, PathRead, Paths};
use items::{Command, Event, Item, ItemRead, Opening, OpeningRead};
use key_stream::encrypt_events_commands;
use keys::Aes128Key;
use numbers::from_bool;

// A payload sealed, or a sealed one opened: 0, 5 or 21.
pub fn mesh_stream(
    key: &[u8; 16],
    is_command: bool,
    relay_id: u32,
    timestamp: u32,
    payload: &[u8],
    out: &mut [u8],
) -> u8
    ensures answer { result ≡ number_in (written_says (answer_of (sealed_of key.now (not is_command) relay_id timestamp payload.now) out.old)) }
    ensures out { out.new ≡ out_of (sealed_of key.now (not is_command) relay_id timestamp payload.now) out.old }
{
    match encrypt_events_commands(
        Aes128Key::from_bytes(*key),
        is_command,
        relay_id,
        timestamp,
        payload,
        out,
    ) {
        Written::Bytes(_) => 0,
        Written::Refused(n) => n,
    }
}

// Where bytes were written: how many, or nothing changed.
pub fn put_length(w: Written, length: &mut u64) -> u8
    ensures answer { result ≡ number_in (written_says w) }
    ensures length { length.new ≡ left_by as_it_is length.old (written_says w) }
{
    match w {
        Written::Refused(n) => n,
        Written::Bytes(n) => {
            *length = n as u64;
            0
        }
    }
}

// ---- items

// How many items were kept and skipped, the bytes that the kept, the skipped and the cut tail take, and 1 where nothing is skipped or cut.
pub fn counts_of(o: Opening) -> [u64; 6]
    ensures { result ≡ count_list o }
{
    [
        o.kept as u64,
        o.skipped as u64,
        o.kept_bytes as u64,
        o.skipped_bytes as u64,
        o.cut_bytes as u64,
        from_bool(o.clean),
    ]
}

fn counted(is_event: bool, payload: &[u8]) -> OpeningRead
    ensures { result ≡ counts_of is_event payload.now }
{
    if is_event {
        return Event::count(payload);
    }
    Command::count(payload)
}

// What a clear payload holds: 0, or 5.
pub fn mesh_count(is_event: bool, payload: &[u8], counts: &mut [u64; 6]) -> u8
    ensures answer { result ≡ number_in (counts_say (counts_of is_event payload.now)) }
    ensures counts { counts.new ≡ left_by count_list counts.old (counts_say (counts_of is_event payload.now)) }
{
    match counted(is_event, payload) {
        OpeningRead::Refused(n) => n,
        OpeningRead::Opening(o) => {
            *counts = counts_of(o);
            0
        }
    }
}

fn decoded(is_event: bool, payload: &[u8], at: usize) -> ItemRead
    ensures { result ≡ bare_item_at is_event payload.now at }
{
    if is_event {
        return Event::decode(payload, at);
    }
    Command::decode(payload, at)
}

fn item_numbers(what: u64, item: Item, next: usize) -> [u64; 6]
    ensures { result ≡ item_list what item next }
{
    let kind = item.kind;
    let value = item.value;
    [
        what,
        from_u8(kind.to_byte()),
        from_u8(item.tag),
        value.start as u64,
        value.len as u64,
        next as u64,
    ]
}

// What stands at a place of a clear payload: 0, or 5. In `item`: 0 the end, 1 an item, 2 a skipped heartbeat, 3 a cut tail; then its kind as
// `ItemKind` has it, its tag, place and length of its value, and the place behind it, which of a cut tail and of the end is the payload's length.
pub fn mesh_item(is_event: bool, payload: &[u8], at: u64, item: &mut [u64; 6]) -> u8
    ensures answer { result ≡ number_in (item_says (bare_item_at is_event payload.now at)) }
    ensures item { item.new ≡ left_by found_list item.old (item_says (bare_item_at is_event payload.now at)) }
{
    match decoded(is_event, payload, at as usize) {
        ItemRead::Refused(n) => n,
        ItemRead::End { next } => {
            *item = [0, 0, 0, 0, 0, next as u64];
            0
        }
        ItemRead::Cut { tail, next } => {
            *item = [3, 0, 0, tail.start as u64, tail.len as u64, next as u64];
            0
        }
        ItemRead::Kept { item: it, next } => {
            *item = item_numbers(1, it, next);
            0
        }
        ItemRead::Skipped { item: it, next } => {
            *item = item_numbers(2, it, next);
            0
        }
    }
}

// One item alone, of a kind, a tag and a value in bytes: 0 with its length, or 29, 19, 20, 21.
pub fn mesh_item_write(
    is_event: bool,
    kind: u8,
    tag: u8,
    value: &[u8],
    out: &mut [u8],
    length: &mut u64,
) -> u8
    ensures answer { result ≡ number_in (written_says (answer_of (one_wire is_event kind tag value.now) out.old)) }
    ensures out { out.new ≡ out_of (one_wire is_event kind tag value.now) out.old }
    ensures length { length.new ≡ left_by as_it_is length.old (written_says (answer_of (one_wire is_event kind tag value.now) out.old)) }
{
    put_length(write_item(is_event, kind, tag, value, out), length)
}

// ---- heartbeats

// How many path entries a heartbeat's value holds, where a list of so many places is to take them: 0, or 19, 20, 21.
pub fn mesh_heartbeat(value: &[u8], places: u64, entries: &mut u64) -> u8
    ensures answer { result ≡ number_in (beat_says (beat_of value.now places)) }
    ensures entries { entries.new ≡ left_by entries_in entries.old (beat_says (beat_of value.now places)) }
{
    match HeartbeatPayload::check(value, places as usize) {
        HeartbeatRead::Refused(n) => n,
        HeartbeatRead::Heartbeat(h) => {
            *entries = h.entries as u64;
            0
        }
    }
}

// One of them: 0, or 19, 20, 45.
pub fn mesh_heartbeat_entry(
    value: &[u8],
    i: u64,
    relay_id: &mut u32,
    rssi: &mut i16,
    snr: &mut i8,
    odd: &mut u8,
) -> u8
    ensures answer { result ≡ number_in (path_says (entry_read value.now i)) }
    ensures relay_id { relay_id.new ≡ left_by entry_relay relay_id.old (path_says (entry_read value.now i)) }
    ensures rssi { rssi.new ≡ left_by entry_rssi rssi.old (path_says (entry_read value.now i)) }
    ensures snr { snr.new ≡ left_by entry_snr snr.old (path_says (entry_read value.now i)) }
    ensures odd { odd.new ≡ left_by entry_odd odd.old (path_says (entry_read value.now i)) }
{
    match HeartbeatPayload::entry(value, i as usize) {
        PathRead::Refused(n) => n,
        PathRead::Entry(p) => {
            *relay_id = p.relay_id;
            *odd = p.odd;
            let strength = p.rssi;
            let ratio = p.snr;
            *rssi = strength;
            *snr = ratio;
            0
        }
    }
}

// A value of entries in three lists, the shortest of which counts: 0 with its length, or 10 to 13 of the first bad entry, 19, 21.
pub fn mesh_heartbeat_write(entries: &Paths, out: &mut [u8], length: &mut u64) -> u8
    ensures answer { result ≡ number_in (written_says (answer_of (beat_wire (paths_in entries.now)) out.old)) }
    ensures out { out.new ≡ out_of (beat_wire (paths_in entries.now)) out.old }
    ensures length { length.new ≡ left_by as_it_is length.old (written_says (answer_of (beat_wire (paths_in entries.now)) out.old)) }
{
    put_length(entries.write(out), length)
}
