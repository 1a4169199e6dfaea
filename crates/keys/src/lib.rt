// Keys of AES-128 and their text (src/aes128.rs of the Rust). They stand below any cipher; `derivation` has the keys derived from a root key.
#![tactic(auto)]

ghost use Rattle.std.specs.Prelude.{◌≡◌};
ghost use Rattle.base.specs.Answers.{bytes, answer_of, out_of};
ghost use Rattle.wire.specs.Hex.{hex_text};
ghost use Rattle.keys.specs.Key.{key_of, null_key, key_read, key_refused, key_from_slice, key_from_text};

use base::{Checked, Refusal, Written};
use wire::{emit, is_hex, put_all, read_hex, write_hex};

#[derive(Clone, Copy)]
pub struct Aes128Key([u8; Aes128Key::LENGTH]);

// A key that was read, or the refusal, with the null key beside it.
#[derive(Clone, Copy)]
pub struct KeyRead {
    pub answer: Checked,
    pub key: Aes128Key,
}

impl KeyRead {
    fn accepted(bytes: [u8; Aes128Key::LENGTH]) -> KeyRead
        ensures { result ≡ key_read bytes }
    {
        KeyRead {
            answer: Checked::Accepted,
            key: Aes128Key(bytes),
        }
    }

    fn refused(number: u8) -> KeyRead
        ensures { result ≡ key_refused number }
    {
        KeyRead {
            answer: Checked::Refused(number),
            key: Aes128Key::NULL,
        }
    }
}

impl Aes128Key {
    // Bytes of a key, and digits of its text.
    pub const LENGTH: usize = 16;

    pub const TEXT_LENGTH: usize = 32;

    pub const NULL: Aes128Key = Aes128Key([0; Aes128Key::LENGTH]);

    pub fn null() -> Aes128Key
        ensures { result ≡ null_key }
    {
        Aes128Key::NULL
    }

    pub fn from_slice(b: &[u8]) -> KeyRead
        ensures { result ≡ key_from_slice b.now }
    {
        if b.len() != Aes128Key::LENGTH {
            return KeyRead::refused(Refusal::KEY_LENGTH);
        }
        let mut k = [0u8; Aes128Key::LENGTH];
        put_all(b, &mut k, 0);
        KeyRead::accepted(k)
    }

    pub fn from_bytes(b: [u8; Aes128Key::LENGTH]) -> Aes128Key
        ensures { result ≡ key_of b }
    {
        Aes128Key(b)
    }

    pub fn to_bytes(self) -> [u8; Aes128Key::LENGTH]
        ensures { result ≡ self.0 }
    {
        self.0
    }

    // The Rust's to_vec.
    pub fn write(self, out: &mut [u8]) -> Written
        ensures answer { result ≡ answer_of (bytes self.0) out.old }
        ensures bytes { out.new ≡ out_of (bytes self.0) out.old }
    {
        let k = self.0;
        emit(&k, out)
    }

    // A key's text, in either case.
    pub fn from_str(s: &[u8]) -> KeyRead
        ensures { result ≡ key_from_text s.now }
    {
        if s.len() != Aes128Key::TEXT_LENGTH {
            return KeyRead::refused(Refusal::KEY_LENGTH);
        }
        if !is_hex(s) {
            return KeyRead::refused(Refusal::KEY_DIGIT);
        }
        let mut k = [0u8; Aes128Key::LENGTH];
        read_hex(s, &mut k);
        KeyRead::accepted(k)
    }

    // The Rust's Display: 32 digits in lower case.
    pub fn write_text(self, out: &mut [u8]) -> Written
        ensures answer { result ≡ answer_of (bytes (hex_text self.0)) out.old }
        ensures bytes { out.new ≡ out_of (bytes (hex_text self.0)) out.old }
    {
        if out.len() < Aes128Key::TEXT_LENGTH {
            return Written::Refused(Refusal::OUTPUT_SHORT);
        }
        let k = self.0;
        write_hex(&k, out, 0);
        Written::Bytes(Aes128Key::TEXT_LENGTH)
    }
}
