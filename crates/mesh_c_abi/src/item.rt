// Items one at a time, their counts, heartbeats, and the key stream.
ghost use Rattle.std.specs.Prelude.{◌≡◌, not};
ghost use Rattle.base.specs.Answers.{answer_of, out_of, number_in, left_by, written_says};
ghost use Rattle.heartbeats.specs.Heartbeat.{beat_says, beat_of, path_says, entry_read, beat_wire};
ghost use Rattle.heartbeats.specs.Paths.{paths, paths_in};
ghost use Rattle.items.specs.Items.{counts_of, counts_say, bare_item_at, item_says};
ghost use Rattle.composed_items.specs.One.{one_wire};
ghost use Rattle.key_stream.specs.Stream.{sealed_of};
ghost use Rattle.mesh_c.specs.Face.{as_it_is, count_list, found_list, entries_in, entry_relay, entry_rssi, entry_snr, entry_odd};

use heartbeats::Paths;

#[unsafe(no_mangle)]
pub extern "C" fn mesh_stream(
    key: &[u8; 16],
    is_command: bool,
    relay_id: u32,
    timestamp: u32,
    payload: &[u8],
    out: &mut [u8],
) -> u8
    ensures answer { result ≡ number_in (written_says (answer_of (sealed_of key.now (not is_command) relay_id timestamp payload.now) out.old)) }
    ensures out { out.new ≡ out_of (sealed_of key.now (not is_command) relay_id timestamp payload.now) out.old }
{
    mesh_c::mesh_stream(key, is_command, relay_id, timestamp, payload, out)
}

#[unsafe(no_mangle)]
pub extern "C" fn mesh_count(is_event: bool, payload: &[u8], counts: &mut [u64; 6]) -> u8
    ensures answer { result ≡ number_in (counts_say (counts_of is_event payload.now)) }
    ensures counts { counts.new ≡ left_by count_list counts.old (counts_say (counts_of is_event payload.now)) }
{
    mesh_c::mesh_count(is_event, payload, counts)
}

#[unsafe(no_mangle)]
pub extern "C" fn mesh_item(is_event: bool, payload: &[u8], at: u64, item: &mut [u64; 6]) -> u8
    ensures answer { result ≡ number_in (item_says (bare_item_at is_event payload.now at)) }
    ensures item { item.new ≡ left_by found_list item.old (item_says (bare_item_at is_event payload.now at)) }
{
    mesh_c::mesh_item(is_event, payload, at, item)
}

#[unsafe(no_mangle)]
pub extern "C" fn mesh_item_write(
    is_event: bool,
    kind: u8,
    tag: u8,
    value: &[u8],
    out: &mut [u8],
    length: &mut u64,
) -> u8
    ensures answer { result ≡ number_in (written_says (answer_of (one_wire is_event kind tag value.now) out.old)) }
    ensures out { out.new ≡ out_of (one_wire is_event kind tag value.now) out.old }
    ensures length { length.new ≡ left_by as_it_is length.old (written_says (answer_of (one_wire is_event kind tag value.now) out.old)) }
{
    mesh_c::mesh_item_write(is_event, kind, tag, value, out, length)
}

#[unsafe(no_mangle)]
pub extern "C" fn mesh_heartbeat(value: &[u8], places: u64, entries: &mut u64) -> u8
    ensures answer { result ≡ number_in (beat_says (beat_of value.now places)) }
    ensures entries { entries.new ≡ left_by entries_in entries.old (beat_says (beat_of value.now places)) }
{
    mesh_c::mesh_heartbeat(value, places, entries)
}

#[unsafe(no_mangle)]
pub extern "C" fn mesh_heartbeat_entry(
    value: &[u8],
    i: u64,
    relay_id: &mut u32,
    rssi: &mut i16,
    snr: &mut i8,
    odd: &mut u8,
) -> u8
    ensures answer { result ≡ number_in (path_says (entry_read value.now i)) }
    ensures relay_id { relay_id.new ≡ left_by entry_relay relay_id.old (path_says (entry_read value.now i)) }
    ensures rssi { rssi.new ≡ left_by entry_rssi rssi.old (path_says (entry_read value.now i)) }
    ensures snr { snr.new ≡ left_by entry_snr snr.old (path_says (entry_read value.now i)) }
    ensures odd { odd.new ≡ left_by entry_odd odd.old (path_says (entry_read value.now i)) }
{
    mesh_c::mesh_heartbeat_entry(value, i, relay_id, rssi, snr, odd)
}

#[unsafe(no_mangle)]
pub extern "C" fn mesh_heartbeat_write(
    ids: &[u32],
    rssis: &[i16],
    snrs: &[i8],
    out: &mut [u8],
    length: &mut u64,
) -> u8
    ensures answer { result ≡ number_in (written_says (answer_of (beat_wire (paths_in (paths ids.now rssis.now snrs.now))) out.old)) }
    ensures out { out.new ≡ out_of (beat_wire (paths_in (paths ids.now rssis.now snrs.now))) out.old }
    ensures length { length.new ≡ left_by as_it_is length.old (written_says (answer_of (beat_wire (paths_in (paths ids.now rssis.now snrs.now))) out.old)) }
{
    mesh_c::mesh_heartbeat_write(&Paths { ids, rssis, snrs }, out, length)
}
