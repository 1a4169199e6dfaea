// Uplink and downlink metadata: five and six bytes. The first two, 12 bits of uplink id and 4 of dr, are alike.
ghost use Rattle.std.specs.Prelude.{◌≡◌, [], ◌∷◌};
ghost use Rattle.base.specs.Answers.{refused};
ghost use Rattle.fields.specs.Limits.{uplink_id_least, uplink_id_most, dr_least, dr_most, channel_least, channel_most, tx_power_least, tx_power_most};
ghost use Rattle.fields.specs.Meta.{id_of, id_refusal, down_refusal, up_of, up_bytes, up_answer, down_of, down_bytes, down_answer};

use crate::freq::{StepsRead, hertz, steps};
use crate::signal::{SignalByte, rssi_byte, rssi_of, snr_byte, snr_of};
use base::{Checked, Refusal};

#[derive(Clone, Copy)]
pub struct UplinkId;

impl UplinkId {
    pub const LEAST: u16 = 0;

    pub const MOST: u16 = 4095;

    pub fn limits() -> [u16; 2]
        ensures { result ≡ uplink_id_least ∷ uplink_id_most ∷ [] }
    {
        [UplinkId::LEAST, UplinkId::MOST]
    }
}

#[derive(Clone, Copy)]
pub struct Dr;

impl Dr {
    pub const LEAST: u8 = 0;

    pub const MOST: u8 = 15;

    pub fn limits() -> [u8; 2]
        ensures { result ≡ dr_least ∷ dr_most ∷ [] }
    {
        [Dr::LEAST, Dr::MOST]
    }
}

#[derive(Clone, Copy)]
pub struct Channel;

impl Channel {
    pub const LEAST: u8 = 0;

    pub const MOST: u8 = 255;

    pub fn limits() -> [u8; 2]
        ensures { result ≡ channel_least ∷ channel_most ∷ [] }
    {
        [Channel::LEAST, Channel::MOST]
    }
}

#[derive(Clone, Copy)]
pub struct TxPower;

impl TxPower {
    pub const LEAST: u8 = 0;

    pub const MOST: u8 = 15;

    pub fn limits() -> [u8; 2]
        ensures { result ≡ tx_power_least ∷ tx_power_most ∷ [] }
    {
        [TxPower::LEAST, TxPower::MOST]
    }
}

#[derive(Clone, Copy)]
pub struct Delay;

impl Delay {
    pub const LEAST: u8 = 1;

    pub const MOST: u8 = 16;
}

#[derive(Clone, Copy)]
pub struct UplinkMetadata {
    pub uplink_id: u16,
    pub dr: u8,
    pub rssi: i16,
    pub snr: i8,
    pub channel: u8,
    pub odd: u8,
}

#[derive(Clone, Copy)]
pub struct UplinkBytes {
    pub answer: Checked,
    pub bytes: [u8; UplinkMetadata::LENGTH],
}

#[derive(Clone, Copy)]
pub struct DownlinkMetadata {
    pub uplink_id: u16,
    pub dr: u8,
    pub frequency: u32,
    pub tx_power: u8,
    pub delay: u8,
}

#[derive(Clone, Copy)]
pub struct DownlinkBytes {
    pub answer: Checked,
    pub bytes: [u8; DownlinkMetadata::LENGTH],
}

// The twelve bits of an id.
fn id_of(a: u8, b: u8) -> u16
    ensures { result ≡ id_of a b }
{
    a as u16 * 16 + b as u16 / 16
}

// 8 and 9, or 0 where there is nothing to refuse.
fn id_refusal(id: u16, dr: u8) -> u8
    ensures { result ≡ id_refusal id dr }
{
    if UplinkId::MOST < id {
        return Refusal::UPLINK_ID_LARGE;
    }
    if Dr::MOST < dr {
        return Refusal::DR_LARGE;
    }
    0
}

// The refusals of a downlink's fields before its frequency, or 0.
fn down_refusal(m: DownlinkMetadata) -> u8
    ensures { result ≡ down_refusal m }
{
    let bad = id_refusal(m.uplink_id, m.dr);
    if bad != 0 {
        return bad;
    }
    if m.delay < Delay::LEAST {
        return Refusal::DELAY_NONE;
    }
    if TxPower::MOST < m.tx_power {
        return Refusal::TX_POWER_LARGE;
    }
    if Delay::MOST < m.delay {
        return Refusal::DELAY_LARGE;
    }
    0
}

impl UplinkMetadata {
    pub const LENGTH: usize = 5;

    fn refused(n: u8) -> UplinkBytes
        ensures { result ≡ up_answer (refused n) }
    {
        UplinkBytes {
            answer: Checked::Refused(n),
            bytes: [0u8; UplinkMetadata::LENGTH],
        }
    }

    pub fn from_bytes(b: [u8; UplinkMetadata::LENGTH]) -> UplinkMetadata
        ensures { result ≡ up_of b }
    {
        let s = snr_of(b[3]);
        UplinkMetadata {
            uplink_id: id_of(b[0], b[1]),
            dr: b[1] % 16,
            rssi: rssi_of(b[2]),
            snr: s.snr,
            channel: b[4],
            odd: s.odd,
        }
    }

    pub fn to_bytes(self) -> UplinkBytes
        ensures { result ≡ up_bytes self }
    {
        let id = self.uplink_id;
        let dr = self.dr;
        let bad = id_refusal(id, dr);
        if bad != 0 {
            return UplinkMetadata::refused(bad);
        }
        match rssi_byte(self.rssi) {
            SignalByte::Refused(n) => UplinkMetadata::refused(n),
            SignalByte::Byte(rssi) => match snr_byte(self.snr) {
                SignalByte::Refused(n) => UplinkMetadata::refused(n),
                SignalByte::Byte(snr) => UplinkBytes {
                    answer: Checked::Accepted,
                    bytes: [
                        (id / 16 % 256) as u8,
                        (id % 16 * 16) as u8 + dr,
                        rssi,
                        snr,
                        self.channel,
                    ],
                },
            },
        }
    }
}

impl DownlinkMetadata {
    pub const LENGTH: usize = 6;

    fn refused(n: u8) -> DownlinkBytes
        ensures { result ≡ down_answer (refused n) }
    {
        DownlinkBytes {
            answer: Checked::Refused(n),
            bytes: [0u8; DownlinkMetadata::LENGTH],
        }
    }

    pub fn from_bytes(b: [u8; DownlinkMetadata::LENGTH]) -> DownlinkMetadata
        ensures { result ≡ down_of b }
    {
        DownlinkMetadata {
            uplink_id: id_of(b[0], b[1]),
            dr: b[1] % 16,
            frequency: hertz(b[2], b[3], b[4]),
            tx_power: b[5] / 16,
            delay: b[5] % 16 + 1,
        }
    }

    pub fn to_bytes(self) -> DownlinkBytes
        ensures { result ≡ down_bytes self }
    {
        let bad = down_refusal(self);
        if bad != 0 {
            return DownlinkMetadata::refused(bad);
        }
        let id = self.uplink_id;
        match steps(self.frequency) {
            StepsRead::Refused(n) => DownlinkMetadata::refused(n),
            StepsRead::Steps(n) => DownlinkBytes {
                answer: Checked::Accepted,
                bytes: [
                    (id / 16 % 256) as u8,
                    (id % 16 * 16) as u8 + self.dr,
                    (n / 65536 % 256) as u8,
                    (n / 256 % 256) as u8,
                    (n % 256) as u8,
                    self.tx_power * 16 + (self.delay - 1),
                ],
            },
        }
    }
}
