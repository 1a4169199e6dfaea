// The fields of a frame: header byte, frequency, rssi and snr, both metadata forms, and the six bytes of a path entry.
#![tactic(auto)]

mod freq;
mod header;
mod meta;
mod path;
mod signal;
mod word;

pub use freq::{FreqBytes, FreqRead, Frequency, decode_freq, encode_freq};
pub use header::{HeaderByte, HeaderRead, HopCount, MHDR, PayloadType, TypeRead};
pub use meta::{
    Channel, Delay, DownlinkBytes, DownlinkMetadata, Dr, TxPower, UplinkBytes, UplinkId,
    UplinkMetadata,
};
pub use path::{PathBytes, RelayPath};
pub use signal::{Odd, Rssi, SignalByte, Snr};
pub use word::{Mic, RelayId, Timestamp};
