// Keys, the cipher and the MIC.
ghost use Rattle.std.specs.Prelude.{◌≡◌};
ghost use Rattle.base.specs.Answers.{answer_of, out_of, bytes, number_in, left_by, written_says};
ghost use Rattle.fips197.specs.Aes.{aes};
ghost use Rattle.cipher.specs.inner.Words.{prepared, enciphered};
ghost use Rattle.cmac_chain.specs.Cmac.{tag};
ghost use Rattle.keys.specs.Key.{key_says, key_from_slice, key_from_text, null_key};
ghost use Rattle.derivation.specs.Derived.{signing_key, encryption_key};
ghost use Rattle.wire.specs.Hex.{hex_text};
ghost use Rattle.mesh_c.specs.Face.{key_bytes};

use cipher::Cipher;

#[unsafe(no_mangle)]
pub extern "C" fn mesh_key(b: &[u8], key: &mut [u8; 16]) -> u8
    ensures answer { result ≡ number_in (key_says (key_from_slice b.now)) }
    ensures key { key.new ≡ left_by key_bytes key.old (key_says (key_from_slice b.now)) }
{
    mesh_c::mesh_key(b, key)
}

#[unsafe(no_mangle)]
pub extern "C" fn mesh_key_of_text(text: &[u8], key: &mut [u8; 16]) -> u8
    ensures answer { result ≡ number_in (key_says (key_from_text text.now)) }
    ensures key { key.new ≡ left_by key_bytes key.old (key_says (key_from_text text.now)) }
{
    mesh_c::mesh_key_of_text(text, key)
}

#[unsafe(no_mangle)]
pub extern "C" fn mesh_key_text(key: &[u8; 16], out: &mut [u8]) -> u8
    ensures answer { result ≡ number_in (written_says (answer_of (bytes (hex_text key.now)) out.old)) }
    ensures out { out.new ≡ out_of (bytes (hex_text key.now)) out.old }
{
    mesh_c::mesh_key_text(key, out)
}

#[unsafe(no_mangle)]
pub extern "C" fn mesh_null_key(key: &mut [u8; 16])
    ensures { key.new ≡ null_key.0 }
{
    mesh_c::mesh_null_key(key)
}

#[unsafe(no_mangle)]
pub extern "C" fn mesh_signing_key(root: &[u8; 16], key: &mut [u8; 16])
    ensures { key.new ≡ signing_key root.now }
{
    mesh_c::mesh_signing_key(root, key)
}

#[unsafe(no_mangle)]
pub extern "C" fn mesh_encryption_key(root: &[u8; 16], key: &mut [u8; 16])
    ensures { key.new ≡ encryption_key root.now }
{
    mesh_c::mesh_encryption_key(root, key)
}

#[unsafe(no_mangle)]
pub extern "C" fn mesh_encrypt_block(key: &[u8; 16], block: &mut [u8; 16])
    ensures { block.new ≡ aes key.now block.old }
{
    mesh_c::mesh_encrypt_block(key, block)
}

#[unsafe(no_mangle)]
pub extern "C" fn mesh_prepare(key: &[u8; 16], cipher: &mut Cipher)
    ensures { cipher.new ≡ prepared key.now }
{
    mesh_c::mesh_prepare(key, cipher)
}

#[unsafe(no_mangle)]
pub extern "C" fn mesh_encipher(cipher: &Cipher, block: &mut [u8; 16])
    ensures { block.new ≡ enciphered cipher.now block.old }
{
    mesh_c::mesh_encipher(cipher, block)
}

#[unsafe(no_mangle)]
pub extern "C" fn mesh_cmac(key: &[u8; 16], message: &[u8], out: &mut [u8; 16])
    ensures { out.new ≡ tag (aes key.now) message.now }
{
    mesh_c::mesh_cmac(key, message, out)
}

#[unsafe(no_mangle)]
pub extern "C" fn mesh_mac(cipher: &Cipher, message: &[u8], out: &mut [u8; 16])
    ensures { out.new ≡ tag (enciphered cipher.now) message.now }
{
    mesh_c::mesh_mac(cipher, message, out)
}
