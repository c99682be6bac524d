// Where the status byte of a surface stands, for callers who read one.
ghost use Rattle.std.specs.Prelude.{◌≡◌, ◌≤◌};
ghost use Rattle.definition.specs.Sizes.{max_surfaces};
ghost use Rattle.definition.specs.Session.{session, surface_count, surface_index};
ghost use Rattle.laws.specs.Surfaces.{Inside};

use definition::Surface;
use session::surfaces::{surface_offset, surfaces_before};
use session::texture;

// The place of a surface's byte. `number` is 0, or the refusal; then the index is 0.
#[repr(C)]
#[derive(Clone, Copy)]
pub struct SurfaceIndex {
    pub number: u32,
    pub index: u32,
}

// The place of a surface that the session has: behind the textures before its own.
pub fn index_of(s: &[u8], x: Surface) -> u32
    requires { Inside (session s.now) x × (surface_count (session s.now) ≤ max_surfaces) }
    ensures { result ≡ surface_index (session s.now) x }
{
    let before = surfaces_before(s, x.texture);
    let offset = surface_offset(texture(s, x.texture), x);
    (before + offset) as u32
}
