// The functions that C and Rust call, each by the name and with the clauses that it has in mesh_c, which does its work; what is one struct there
// (`Lent`, `Paths`) C lends as separate slices. include/mesh.h declares them.
#![tactic(auto)]

ghost use Rattle.std.specs.Prelude.{◌≡◌};
ghost use Rattle.mesh_c.specs.Face.{face_version};

mod field;
mod frame;
mod item;
mod key;
mod record;
mod text;

#[unsafe(no_mangle)]
pub extern "C" fn mesh_version() -> u32
    ensures { result ≡ face_version }
{
    mesh_c::mesh_version()
}
