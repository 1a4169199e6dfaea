// An entry of a heartbeat's path: relay id, rssi and snr in six bytes. A relay id is its four bytes as one number, so that all four are
// compared at once.
ghost use Rattle.std.specs.Prelude.{◌≡◌};
ghost use Rattle.base.specs.Answers.{refused};
ghost use Rattle.fields.specs.Path.{path_of, path_bytes, path_answer, all_even};

use crate::signal::{SignalByte, rssi_byte, rssi_of, snr_byte, snr_of};
use base::{Checked, Limit};
use wire::{be32_bytes, be32_of};

#[derive(Clone, Copy)]
pub struct RelayPath {
    pub relay_id: u32,
    pub rssi: i16,
    pub snr: i8,
    pub odd: u8,
}

#[derive(Clone, Copy)]
pub struct PathBytes {
    pub answer: Checked,
    pub bytes: [u8; RelayPath::LENGTH],
}

impl RelayPath {
    pub const LENGTH: usize = Limit::ENTRY;

    fn refused(n: u8) -> PathBytes
        ensures { result ≡ path_answer (refused n) }
    {
        PathBytes {
            answer: Checked::Refused(n),
            bytes: [0u8; RelayPath::LENGTH],
        }
    }

    pub fn from_bytes(b: [u8; RelayPath::LENGTH]) -> RelayPath
        ensures { result ≡ path_of b }
    {
        let s = snr_of(b[5]);
        RelayPath {
            relay_id: be32_of(b[0], b[1], b[2], b[3]),
            rssi: rssi_of(b[4]),
            snr: s.snr,
            odd: s.odd,
        }
    }

    pub fn to_bytes(self) -> PathBytes
        ensures { result ≡ path_bytes self }
    {
        match rssi_byte(self.rssi) {
            SignalByte::Refused(n) => RelayPath::refused(n),
            SignalByte::Byte(rssi) => match snr_byte(self.snr) {
                SignalByte::Refused(n) => RelayPath::refused(n),
                SignalByte::Byte(snr) => {
                    let r = be32_bytes(self.relay_id);
                    PathBytes {
                        answer: Checked::Accepted,
                        bytes: [r[0], r[1], r[2], r[3], rssi, snr],
                    }
                }
            },
        }
    }

    // Whether the odd bits of each are 0, of entries one behind the other.
    pub fn all_even(path: &[u8]) -> bool
        ensures { result ≡ all_even path.now }
    {
        path.chunks_exact(RelayPath::LENGTH)
            .all(|entry| snr_of(entry[5]).odd == 0)
    }
}
