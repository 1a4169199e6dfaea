// The face for C and Rust: functions on numbers and slices, each proved like any other. mesh_c_abi exports them, and include/mesh.h declares
// them.
#![tactic(auto)]

ghost use Rattle.std.specs.Prelude.{◌≡◌};
ghost use Rattle.mesh_c.specs.Face.{face_version};

mod field;
mod frame;
mod item;
mod key;
mod record;
mod text;

pub use field::{
    mesh_downlink_metadata_read, mesh_downlink_metadata_write, mesh_frequency_read,
    mesh_frequency_write, mesh_header_read, mesh_header_write, mesh_path_read, mesh_path_write,
    mesh_type, mesh_uplink_metadata_read, mesh_uplink_metadata_write,
};
pub use frame::{
    mesh_decode, mesh_decrypt, mesh_read, mesh_read_body, mesh_read_mesh, mesh_record, mesh_seal,
    mesh_set_hop_count, mesh_sign, mesh_validate, mesh_write, mesh_write_body,
};
pub use item::{
    mesh_count, mesh_heartbeat, mesh_heartbeat_entry, mesh_heartbeat_write, mesh_item,
    mesh_item_write, mesh_stream,
};
pub use key::{
    mesh_cmac, mesh_encipher, mesh_encrypt_block, mesh_encryption_key, mesh_key, mesh_key_of_text,
    mesh_key_text, mesh_mac, mesh_null_key, mesh_prepare, mesh_signing_key,
};
pub use record::{mesh_cache_add, mesh_cache_clear};
pub use text::{mesh_dump_frame, mesh_dump_line, mesh_text};

#[derive(Clone, Copy)]
pub struct Version;

impl Version {
    // Of the declarations in include/mesh.h: one more with each change that a caller has to follow.
    pub const FACE: u32 = 6;
}

// What a caller holds its header to, before all else.
pub fn mesh_version() -> u32
    ensures { result ≡ face_version }
{
    Version::FACE
}
