// One block under a key, and the keys derived from a root key (src/aes128.rs of the Rust).
#![tactic(auto)]

ghost use Rattle.std.specs.Prelude.{◌≡◌, ◌∷◌, replicate};
ghost use Rattle.keys.specs.Key.{key_of};
ghost use Rattle.fips197.specs.Aes.{aes};
ghost use Rattle.cipher.specs.inner.Words.{enciphered};
ghost use Rattle.derivation.specs.Derived.{signing_key, encryption_key};

use cipher::{Cipher, encipher, prepare};
use keys::Aes128Key;

// One block under a key. Whoever enciphers more under one key prepares it once.
pub fn encrypt_block(key: Aes128Key, block: [u8; 16]) -> [u8; 16]
    ensures { result ≡ aes key.0 block }
{
    let e = prepare(key);
    encipher(&e, block)
}

// The key that a cipher makes of one byte and 15 zeros.
pub fn derive(e: &Cipher, first: u8) -> Aes128Key
    ensures { result ≡ key_of (enciphered e.now (first ∷ replicate 15 0)) }
{
    let mut b = [0u8; 16];
    b[0] = first;
    Aes128Key::from_bytes(encipher(e, b))
}

#[tactic(auto, unfolding(crate::specs::Derived::signing_key))]
pub fn get_signing_key(key: Aes128Key) -> Aes128Key
    ensures { result ≡ key_of (signing_key key.0) }
{
    get_key(key, 0)
}

#[tactic(auto, unfolding(crate::specs::Derived::encryption_key))]
pub fn get_encryption_key(key: Aes128Key) -> Aes128Key
    ensures { result ≡ key_of (encryption_key key.0) }
{
    get_key(key, 1)
}

fn get_key(key: Aes128Key, first: u8) -> Aes128Key
    ensures { result ≡ key_of (aes key.0 (first ∷ replicate 15 0)) }
{
    let e = prepare(key);
    derive(&e, first)
}
