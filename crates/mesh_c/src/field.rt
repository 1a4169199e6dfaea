// The fields of headers and bodies, read and written alone.
ghost use Rattle.std.specs.Prelude.{◌≡◌};
ghost use Rattle.base.specs.Answers.{bytes, number_in, left_by, checked_says};
ghost use Rattle.fields.specs.Header.{type_says, type_read, header_says, header_of, byte_says};
ghost use Rattle.fields.specs.Meta.{up_of, up_bytes, down_of, down_bytes};
ghost use Rattle.fields.specs.Freq.{freq_says, freq_read, freq_bytes};
ghost use Rattle.fields.specs.Path.{path_of, path_bytes};
ghost use Rattle.mesh_c.specs.Face.{as_it_is, header_list, header_byte_by, up_list, down_list};

use base::Checked;
use fields::{
    DownlinkMetadata, FreqRead, HeaderByte, HeaderRead, MHDR, PayloadType, RelayPath, TypeRead,
    UplinkMetadata, decode_freq, encode_freq,
};

// ---- numbers of one width

pub(crate) fn from_u8(x: u8) -> u64
    ensures { result ≡ x }
{
    x as u64
}

pub(crate) fn from_u16(x: u16) -> u64
    ensures { result ≡ x }
{
    x as u64
}

pub(crate) fn from_u32(x: u32) -> u64
    ensures { result ≡ x }
{
    x as u64
}

// Whether a number is a type's: 0, or 29. The types are 0 uplink, 1 downlink, 2 event and 3 command.
pub fn mesh_type(n: u8) -> u8
    ensures { result ≡ number_in (type_says (type_read n)) }
{
    match PayloadType::from_byte(n) {
        TypeRead::Kind(_) => 0,
        TypeRead::Refused(k) => k,
    }
}

// Type and hop count of a header byte: 0, or 3.
pub fn mesh_header_read(b: u8, header: &mut [u8; 2]) -> u8
    ensures answer { result ≡ number_in (header_says (header_of b)) }
    ensures header { header.new ≡ left_by header_list header.old (header_says (header_of b)) }
{
    match MHDR::from_byte(b) {
        HeaderRead::Refused(n) => n,
        HeaderRead::Header(h) => {
            let t = h.payload_type;
            *header = [t.to_byte(), h.hop_count];
            0
        }
    }
}

fn header_byte(type_code: u8, hop_count: u8) -> HeaderByte
    ensures { result ≡ header_byte_by hop_count (type_read type_code) }
{
    match PayloadType::from_byte(type_code) {
        TypeRead::Refused(n) => HeaderByte::Refused(n),
        TypeRead::Kind(payload_type) => {
            let h = MHDR {
                payload_type,
                hop_count,
            };
            h.to_byte()
        }
    }
}

// And back: 0, or 29, 6, 7.
pub fn mesh_header_write(type_code: u8, hop_count: u8, b: &mut u8) -> u8
    ensures answer { result ≡ number_in (byte_says (header_byte_by hop_count (type_read type_code))) }
    ensures b { b.new ≡ left_by as_it_is b.old (byte_says (header_byte_by hop_count (type_read type_code))) }
{
    match header_byte(type_code, hop_count) {
        HeaderByte::Refused(n) => n,
        HeaderByte::Byte(k) => {
            *b = k;
            0
        }
    }
}

// Uplink id, data rate, channel and odd bits; rssi and snr. Every five bytes are read.
pub fn mesh_uplink_metadata_read(b: &[u8; 5], numbers: &mut [u64; 4], rssi: &mut i16, snr: &mut i8)
    ensures numbers { numbers.new ≡ up_list (up_of b.now) }
    ensures rssi { rssi.new ≡ (up_of b.now).rssi }
    ensures snr { snr.new ≡ (up_of b.now).snr }
{
    let m = UplinkMetadata::from_bytes(*b);
    *numbers = [
        from_u16(m.uplink_id),
        from_u8(m.dr),
        from_u8(m.channel),
        from_u8(m.odd),
    ];
    let strength = m.rssi;
    let ratio = m.snr;
    *rssi = strength;
    *snr = ratio;
}

// 0, or 8 to 13 in their order. Odd bits are not written.
pub fn mesh_uplink_metadata_write(
    uplink_id: u16,
    dr: u8,
    rssi: i16,
    snr: i8,
    channel: u8,
    b: &mut [u8; 5],
) -> u8
    ensures answer { result ≡ number_in (checked_says (up_bytes (record { uplink_id = uplink_id; dr = dr; rssi = rssi; snr = snr; channel = channel; odd = 0 })).answer (up_bytes (record { uplink_id = uplink_id; dr = dr; rssi = rssi; snr = snr; channel = channel; odd = 0 })).bytes) }
    ensures b { b.new ≡ left_by as_it_is b.old (checked_says (up_bytes (record { uplink_id = uplink_id; dr = dr; rssi = rssi; snr = snr; channel = channel; odd = 0 })).answer (up_bytes (record { uplink_id = uplink_id; dr = dr; rssi = rssi; snr = snr; channel = channel; odd = 0 })).bytes) }
{
    let m = UplinkMetadata {
        uplink_id,
        dr,
        rssi,
        snr,
        channel,
        odd: 0,
    };
    let made = m.to_bytes();
    let answer = made.answer;
    match answer {
        Checked::Refused(n) => n,
        Checked::Accepted => {
            let bytes = made.bytes;
            *b = bytes;
            0
        }
    }
}

// Uplink id, data rate, frequency, transmit power and delay.
pub fn mesh_downlink_metadata_read(b: &[u8; 6], numbers: &mut [u64; 5])
    ensures { numbers.new ≡ down_list (down_of b.now) }
{
    let m = DownlinkMetadata::from_bytes(*b);
    *numbers = [
        from_u16(m.uplink_id),
        from_u8(m.dr),
        from_u32(m.frequency),
        from_u8(m.tx_power),
        from_u8(m.delay),
    ];
}

// 0, or 8, 9, 14 to 18, 38 in their order.
pub fn mesh_downlink_metadata_write(
    uplink_id: u16,
    dr: u8,
    frequency: u32,
    tx_power: u8,
    delay: u8,
    b: &mut [u8; 6],
) -> u8
    ensures answer { result ≡ number_in (checked_says (down_bytes (record { uplink_id = uplink_id; dr = dr; frequency = frequency; tx_power = tx_power; delay = delay })).answer (down_bytes (record { uplink_id = uplink_id; dr = dr; frequency = frequency; tx_power = tx_power; delay = delay })).bytes) }
    ensures b { b.new ≡ left_by as_it_is b.old (checked_says (down_bytes (record { uplink_id = uplink_id; dr = dr; frequency = frequency; tx_power = tx_power; delay = delay })).answer (down_bytes (record { uplink_id = uplink_id; dr = dr; frequency = frequency; tx_power = tx_power; delay = delay })).bytes) }
{
    let m = DownlinkMetadata {
        uplink_id,
        dr,
        frequency,
        tx_power,
        delay,
    };
    let made = m.to_bytes();
    let answer = made.answer;
    match answer {
        Checked::Refused(n) => n,
        Checked::Accepted => {
            let bytes = made.bytes;
            *b = bytes;
            0
        }
    }
}

// Hertz: 0, or 28.
pub fn mesh_frequency_read(b: &[u8], hertz: &mut u32) -> u8
    ensures answer { result ≡ number_in (freq_says (freq_read b.now)) }
    ensures hertz { hertz.new ≡ left_by as_it_is hertz.old (freq_says (freq_read b.now)) }
{
    match decode_freq(b) {
        FreqRead::Refused(n) => n,
        FreqRead::Hertz(n) => {
            *hertz = n;
            0
        }
    }
}

// 0, or 17, 18, 38.
pub fn mesh_frequency_write(hertz: u32, b: &mut [u8; 3]) -> u8
    ensures answer { result ≡ number_in (checked_says (freq_bytes hertz).answer (freq_bytes hertz).bytes) }
    ensures b { b.new ≡ left_by as_it_is b.old (checked_says (freq_bytes hertz).answer (freq_bytes hertz).bytes) }
{
    let made = encode_freq(hertz);
    let answer = made.answer;
    match answer {
        Checked::Refused(n) => n,
        Checked::Accepted => {
            let bytes = made.bytes;
            *b = bytes;
            0
        }
    }
}

// A path entry: relay id; rssi, snr and odd bits.
pub fn mesh_path_read(b: &[u8; 6], relay_id: &mut u32, rssi: &mut i16, snr: &mut i8, odd: &mut u8)
    ensures relay_id { relay_id.new ≡ (path_of b.now).relay_id }
    ensures rssi { rssi.new ≡ (path_of b.now).rssi }
    ensures snr { snr.new ≡ (path_of b.now).snr }
    ensures odd { odd.new ≡ (path_of b.now).odd }
{
    let p = RelayPath::from_bytes(*b);
    *relay_id = p.relay_id;
    *odd = p.odd;
    let strength = p.rssi;
    let ratio = p.snr;
    *rssi = strength;
    *snr = ratio;
}

// 0, or 10 to 13. Odd bits are not written.
pub fn mesh_path_write(relay_id: u32, rssi: i16, snr: i8, b: &mut [u8; 6]) -> u8
    ensures answer { result ≡ number_in (checked_says (path_bytes (record { relay_id = relay_id; rssi = rssi; snr = snr; odd = 0 })).answer (path_bytes (record { relay_id = relay_id; rssi = rssi; snr = snr; odd = 0 })).bytes) }
    ensures b { b.new ≡ left_by as_it_is b.old (checked_says (path_bytes (record { relay_id = relay_id; rssi = rssi; snr = snr; odd = 0 })).answer (path_bytes (record { relay_id = relay_id; rssi = rssi; snr = snr; odd = 0 })).bytes) }
{
    let p = RelayPath {
        relay_id,
        rssi,
        snr,
        odd: 0,
    };
    let made = p.to_bytes();
    let answer = made.answer;
    match answer {
        Checked::Refused(n) => n,
        Checked::Accepted => {
            let bytes = made.bytes;
            *b = bytes;
            0
        }
    }
}
