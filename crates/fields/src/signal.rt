// Rssi is minus a byte; snr the low six bits of one as a signed number, and the two above it are odd. Uplinks and path entries read and
// write them here.
ghost use Rattle.std.specs.Prelude.{◌≡◌, [], ◌∷◌};
ghost use Rattle.fields.specs.Limits.{odd_least, odd_most};
ghost use Rattle.fields.specs.Signal.{rssi_of, snr_of, rssi_byte, snr_byte};

use base::Refusal;

#[derive(Clone, Copy)]
pub struct Rssi;

impl Rssi {
    pub const LEAST: i16 = -255;

    pub const MOST: i16 = 0;
}

#[derive(Clone, Copy)]
pub struct Snr;

impl Snr {
    pub const LEAST: i8 = -32;

    pub const MOST: i8 = 31;
}

#[derive(Clone, Copy)]
pub struct Odd;

impl Odd {
    pub const LEAST: u8 = 0;

    pub const MOST: u8 = 3;

    pub fn limits() -> [u8; 2]
        ensures { result ≡ odd_least ∷ odd_most ∷ [] }
    {
        [Odd::LEAST, Odd::MOST]
    }
}

// What an snr byte is read as: the number, and the two bits above it as found. They are no part of the number, and are written as 0.
#[derive(Clone, Copy)]
pub struct SnrRead {
    pub snr: i8,
    pub odd: u8,
}

#[derive(Clone, Copy)]
pub enum SignalByte {
    Byte(u8),
    Refused(u8),
}

pub fn rssi_of(b: u8) -> i16
    ensures { result ≡ rssi_of b }
{
    -(b as i16)
}

pub fn snr_of(b: u8) -> SnrRead
    ensures { result ≡ snr_of b }
{
    let n = b % 64;
    let odd = b / 64;
    if n < 32 {
        return SnrRead { snr: n as i8, odd };
    }
    SnrRead {
        snr: -((64 - n) as i8),
        odd,
    }
}

pub fn rssi_byte(x: i16) -> SignalByte
    ensures { result ≡ rssi_byte x }
{
    if Rssi::MOST < x {
        return SignalByte::Refused(Refusal::RSSI_LARGE);
    }
    if x < Rssi::LEAST {
        return SignalByte::Refused(Refusal::RSSI_SMALL);
    }
    SignalByte::Byte((-x) as u8)
}

pub fn snr_byte(x: i8) -> SignalByte
    ensures { result ≡ snr_byte x }
{
    if x < Snr::LEAST {
        return SignalByte::Refused(Refusal::SNR_SMALL);
    }
    if Snr::MOST < x {
        return SignalByte::Refused(Refusal::SNR_LARGE);
    }
    if x < 0 {
        return SignalByte::Byte((x + 64) as u8);
    }
    SignalByte::Byte(x as u8)
}
