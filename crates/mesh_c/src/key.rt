// Keys, the cipher and the MIC.
ghost use Rattle.std.specs.Prelude.{◌≡◌};
ghost use Rattle.base.specs.Answers.{answer_of, out_of, bytes, number_in, left_by, written_says};
ghost use Rattle.fips197.specs.Aes.{aes};
ghost use Rattle.cipher.specs.inner.Words.{prepared, enciphered};
ghost use Rattle.cmac_chain.specs.Cmac.{tag};
ghost use Rattle.keys.specs.Key.{key_says, key_from_slice, key_from_text, null_key};
ghost use Rattle.derivation.specs.Derived.{signing_key, encryption_key};
ghost use Rattle.wire.specs.Hex.{hex_text};
ghost use Rattle.mesh_c.specs.Face.{key_bytes};

use base::{Checked, Written};
use cipher::{Cipher, encipher, prepare};
use cmac::{cmac, tag};
use derivation::{encrypt_block, get_encryption_key, get_signing_key};
use keys::{Aes128Key, KeyRead};

// ---- keys

fn put_key(read: KeyRead, key: &mut [u8; 16]) -> u8
    ensures answer { result ≡ number_in (key_says read) }
    ensures key { key.new ≡ left_by key_bytes key.old (key_says read) }
{
    let answer = read.answer;
    match answer {
        Checked::Refused(n) => n,
        Checked::Accepted => {
            *key = read.key.to_bytes();
            0
        }
    }
}

// A key of 16 bytes: 0, or 25.
pub fn mesh_key(b: &[u8], key: &mut [u8; 16]) -> u8
    ensures answer { result ≡ number_in (key_says (key_from_slice b.now)) }
    ensures key { key.new ≡ left_by key_bytes key.old (key_says (key_from_slice b.now)) }
{
    put_key(Aes128Key::from_slice(b), key)
}

// A key of 32 digits in either case: 0, or 25, 26.
pub fn mesh_key_of_text(text: &[u8], key: &mut [u8; 16]) -> u8
    ensures answer { result ≡ number_in (key_says (key_from_text text.now)) }
    ensures key { key.new ≡ left_by key_bytes key.old (key_says (key_from_text text.now)) }
{
    put_key(Aes128Key::from_str(text), key)
}

// Its 32 digits in lower case, at the front of `out`: 0, or 21.
pub fn mesh_key_text(key: &[u8; 16], out: &mut [u8]) -> u8
    ensures answer { result ≡ number_in (written_says (answer_of (bytes (hex_text key.now)) out.old)) }
    ensures out { out.new ≡ out_of (bytes (hex_text key.now)) out.old }
{
    match Aes128Key::from_bytes(*key).write_text(out) {
        Written::Bytes(_) => 0,
        Written::Refused(n) => n,
    }
}

pub fn mesh_null_key(key: &mut [u8; 16])
    ensures { key.new ≡ null_key.0 }
{
    *key = Aes128Key::null().to_bytes();
}

pub fn mesh_signing_key(root: &[u8; 16], key: &mut [u8; 16])
    ensures { key.new ≡ signing_key root.now }
{
    *key = get_signing_key(Aes128Key::from_bytes(*root)).to_bytes();
}

pub fn mesh_encryption_key(root: &[u8; 16], key: &mut [u8; 16])
    ensures { key.new ≡ encryption_key root.now }
{
    *key = get_encryption_key(Aes128Key::from_bytes(*root)).to_bytes();
}

// ---- the cipher

// One block under a key, in place.
pub fn mesh_encrypt_block(key: &[u8; 16], block: &mut [u8; 16])
    ensures { block.new ≡ aes key.now block.old }
{
    let r = encrypt_block(Aes128Key::from_bytes(*key), *block);
    *block = r;
}

// A cipher made ready for a key, once for many blocks.
pub fn mesh_prepare(key: &[u8; 16], cipher: &mut Cipher)
    ensures { cipher.new ≡ prepared key.now }
{
    let r = prepare(Aes128Key::from_bytes(*key));
    *cipher = r;
}

pub fn mesh_encipher(cipher: &Cipher, block: &mut [u8; 16])
    ensures { block.new ≡ enciphered cipher.now block.old }
{
    let r = encipher(cipher, *block);
    *block = r;
}

// RFC 4493's tag of a message under a key.
pub fn mesh_cmac(key: &[u8; 16], message: &[u8], out: &mut [u8; 16])
    ensures { out.new ≡ tag (aes key.now) message.now }
{
    let r = cmac(Aes128Key::from_bytes(*key), message);
    *out = r;
}

// The same under a cipher that is ready.
pub fn mesh_mac(cipher: &Cipher, message: &[u8], out: &mut [u8; 16])
    ensures { out.new ≡ tag (enciphered cipher.now) message.now }
{
    let r = tag(cipher, message);
    *out = r;
}
