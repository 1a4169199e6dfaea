// The fields of headers and bodies, read and written alone.
ghost use Rattle.std.specs.Prelude.{◌≡◌};
ghost use Rattle.base.specs.Answers.{number_in, left_by, checked_says};
ghost use Rattle.fields.specs.Header.{type_says, type_read, header_says, header_of, byte_says};
ghost use Rattle.fields.specs.Meta.{up_of, up_bytes, down_of, down_bytes};
ghost use Rattle.fields.specs.Freq.{freq_says, freq_read, freq_bytes};
ghost use Rattle.fields.specs.Path.{path_of, path_bytes};
ghost use Rattle.mesh_c.specs.Face.{as_it_is, header_list, header_byte_by, up_list, down_list};

#[unsafe(no_mangle)]
pub extern "C" fn mesh_type(n: u8) -> u8
    ensures { result ≡ number_in (type_says (type_read n)) }
{
    mesh_c::mesh_type(n)
}

#[unsafe(no_mangle)]
pub extern "C" fn mesh_header_read(b: u8, header: &mut [u8; 2]) -> u8
    ensures answer { result ≡ number_in (header_says (header_of b)) }
    ensures header { header.new ≡ left_by header_list header.old (header_says (header_of b)) }
{
    mesh_c::mesh_header_read(b, header)
}

#[unsafe(no_mangle)]
pub extern "C" fn mesh_header_write(type_code: u8, hop_count: u8, b: &mut u8) -> u8
    ensures answer { result ≡ number_in (byte_says (header_byte_by hop_count (type_read type_code))) }
    ensures b { b.new ≡ left_by as_it_is b.old (byte_says (header_byte_by hop_count (type_read type_code))) }
{
    mesh_c::mesh_header_write(type_code, hop_count, b)
}

#[unsafe(no_mangle)]
pub extern "C" fn mesh_uplink_metadata_read(
    b: &[u8; 5],
    numbers: &mut [u64; 4],
    rssi: &mut i16,
    snr: &mut i8,
)
    ensures numbers { numbers.new ≡ up_list (up_of b.now) }
    ensures rssi { rssi.new ≡ (up_of b.now).rssi }
    ensures snr { snr.new ≡ (up_of b.now).snr }
{
    mesh_c::mesh_uplink_metadata_read(b, numbers, rssi, snr)
}

#[unsafe(no_mangle)]
pub extern "C" fn mesh_uplink_metadata_write(
    uplink_id: u16,
    dr: u8,
    rssi: i16,
    snr: i8,
    channel: u8,
    b: &mut [u8; 5],
) -> u8
    ensures answer { result ≡ number_in (checked_says (up_bytes (record { uplink_id = uplink_id; dr = dr; rssi = rssi; snr = snr; channel = channel; odd = 0 })).answer (up_bytes (record { uplink_id = uplink_id; dr = dr; rssi = rssi; snr = snr; channel = channel; odd = 0 })).bytes) }
    ensures b { b.new ≡ left_by as_it_is b.old (checked_says (up_bytes (record { uplink_id = uplink_id; dr = dr; rssi = rssi; snr = snr; channel = channel; odd = 0 })).answer (up_bytes (record { uplink_id = uplink_id; dr = dr; rssi = rssi; snr = snr; channel = channel; odd = 0 })).bytes) }
{
    mesh_c::mesh_uplink_metadata_write(uplink_id, dr, rssi, snr, channel, b)
}

#[unsafe(no_mangle)]
pub extern "C" fn mesh_downlink_metadata_read(b: &[u8; 6], numbers: &mut [u64; 5])
    ensures { numbers.new ≡ down_list (down_of b.now) }
{
    mesh_c::mesh_downlink_metadata_read(b, numbers)
}

#[unsafe(no_mangle)]
pub extern "C" fn mesh_downlink_metadata_write(
    uplink_id: u16,
    dr: u8,
    frequency: u32,
    tx_power: u8,
    delay: u8,
    b: &mut [u8; 6],
) -> u8
    ensures answer { result ≡ number_in (checked_says (down_bytes (record { uplink_id = uplink_id; dr = dr; frequency = frequency; tx_power = tx_power; delay = delay })).answer (down_bytes (record { uplink_id = uplink_id; dr = dr; frequency = frequency; tx_power = tx_power; delay = delay })).bytes) }
    ensures b { b.new ≡ left_by as_it_is b.old (checked_says (down_bytes (record { uplink_id = uplink_id; dr = dr; frequency = frequency; tx_power = tx_power; delay = delay })).answer (down_bytes (record { uplink_id = uplink_id; dr = dr; frequency = frequency; tx_power = tx_power; delay = delay })).bytes) }
{
    mesh_c::mesh_downlink_metadata_write(uplink_id, dr, frequency, tx_power, delay, b)
}

#[unsafe(no_mangle)]
pub extern "C" fn mesh_frequency_read(b: &[u8], hertz: &mut u32) -> u8
    ensures answer { result ≡ number_in (freq_says (freq_read b.now)) }
    ensures hertz { hertz.new ≡ left_by as_it_is hertz.old (freq_says (freq_read b.now)) }
{
    mesh_c::mesh_frequency_read(b, hertz)
}

#[unsafe(no_mangle)]
pub extern "C" fn mesh_frequency_write(hertz: u32, b: &mut [u8; 3]) -> u8
    ensures answer { result ≡ number_in (checked_says (freq_bytes hertz).answer (freq_bytes hertz).bytes) }
    ensures b { b.new ≡ left_by as_it_is b.old (checked_says (freq_bytes hertz).answer (freq_bytes hertz).bytes) }
{
    mesh_c::mesh_frequency_write(hertz, b)
}

#[unsafe(no_mangle)]
pub extern "C" fn mesh_path_read(
    b: &[u8; 6],
    relay_id: &mut u32,
    rssi: &mut i16,
    snr: &mut i8,
    odd: &mut u8,
)
    ensures relay_id { relay_id.new ≡ (path_of b.now).relay_id }
    ensures rssi { rssi.new ≡ (path_of b.now).rssi }
    ensures snr { snr.new ≡ (path_of b.now).snr }
    ensures odd { odd.new ≡ (path_of b.now).odd }
{
    mesh_c::mesh_path_read(b, relay_id, rssi, snr, odd)
}

#[unsafe(no_mangle)]
pub extern "C" fn mesh_path_write(relay_id: u32, rssi: i16, snr: i8, b: &mut [u8; 6]) -> u8
    ensures answer { result ≡ number_in (checked_says (path_bytes (record { relay_id = relay_id; rssi = rssi; snr = snr; odd = 0 })).answer (path_bytes (record { relay_id = relay_id; rssi = rssi; snr = snr; odd = 0 })).bytes) }
    ensures b { b.new ≡ left_by as_it_is b.old (checked_says (path_bytes (record { relay_id = relay_id; rssi = rssi; snr = snr; odd = 0 })).answer (path_bytes (record { relay_id = relay_id; rssi = rssi; snr = snr; odd = 0 })).bytes) }
{
    mesh_c::mesh_path_write(relay_id, rssi, snr, b)
}
