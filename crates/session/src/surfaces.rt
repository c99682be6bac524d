// Surfaces counted, where one stands among those of its texture, and whether a range of mips or layers is a part. Counting has an answer for every byte
// string and every number: it stops at one past the most surfaces that a session has.
ghost use Rattle.std.specs.Prelude.{◌≡◌, ◌+◌, ◌*◌, ◌≤◌};
ghost use Rattle.definition.specs.Sizes.{max_surfaces};
ghost use Rattle.definition.specs.Session.{session, mips_before, surfaces_in, surface_offset};
ghost use Rattle.session.specs.Counted.{surfaces_up_to};
ghost use Rattle.session.specs.Derived.{is_part};

use crate::derived::{TEXTURE_D3, array_layers, slices_in};
use crate::texture;
use definition::sizes::MAX_SURFACES;
use definition::{Surface, Texture};
use std::num::wrapping_sub_u32;

// Where counting stops.
const COUNTED_SURFACES: u64 = MAX_SURFACES as u64 + 1;

// The surfaces of the mips before n of a 3D texture: from mip 32 on each is one slice.
fn slices_before(t: Texture, n: u32) -> u64
    requires { t.dimension ≡ 3 }
    ensures { (result ≡ mips_before t n) × (result ≤ 18446744065119617025) }
{
    let halved = n.min(32);
    let mut sum = 0u64;
    for mip in 0..halved {
        sum += slices_in(t, mip) as u64;
    }
    sum + (n - halved) as u64
}

// The surfaces of the mips before n. Those of a texture that is not 3D are alike.
pub fn mips_before(t: Texture, n: u32) -> u64
    ensures { (result ≡ mips_before t n) × (result ≤ 18446744065119617025) }
{
    if t.dimension == TEXTURE_D3 {
        slices_before(t, n)
    } else {
        n as u64 * array_layers(t) as u64
    }
}

// A surface's place among those of its texture, which are no more than a session has.
pub fn surface_offset(t: Texture, x: Surface) -> u64
    requires { surface_offset t x ≤ max_surfaces }
    ensures { result ≡ surface_offset t x }
{
    mips_before(t, x.mip) + (x.slice as u64 * array_layers(t) as u64 + x.layer as u64)
}

// The surfaces of a texture.
pub fn surfaces_in(t: Texture) -> u64
    ensures { (result ≡ surfaces_in t) × (result ≤ 18446744065119617025) }
{
    mips_before(t, t.mips)
}

// The surfaces of the first n textures, counted no further than one past the most that a session has.
pub fn surfaces_before(s: &[u8], n: u32) -> u64
    ensures { (result ≡ surfaces_up_to (session s.now) n) × (result ≤ max_surfaces + 1) }
{
    let mut sum = 0u64;
    for k in 0..n {
        sum = COUNTED_SURFACES.min(sum + surfaces_in(texture(s, k)));
    }
    sum
}

// Whether a range of mips or layers is non-empty and ends by the last: whether the last that it has is below that. Of none, one less is the
// greatest u32, which is below no other.
pub fn is_part(first: u32, count: u32, last: u32) -> bool
    ensures { result ≡ is_part first count last }
{
    first as u64 + (wrapping_sub_u32(count, 1) as u64) < last as u64
}
