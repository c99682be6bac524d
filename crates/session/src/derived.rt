// What is derived from the header and rows of a session file. No function has a `requires`.
ghost use Rattle.std.specs.Prelude.{◌≡◌};
ghost use Rattle.definition.specs.Session as Se;
ghost use Rattle.definition.specs.Session.{session};
ghost use Rattle.session.specs.Derived.{extent_of};

use crate::header::flags;
use crate::texture;
use definition::sizes::NO_VIEW;
use definition::{Range, Texture, View};
use encoding::has_bit;
use formats::mip_size;

// What the views of a pass have in common.
#[derive(Clone, Copy)]
pub struct Extent {
    pub width: u32,
    pub height: u32,
    pub samples: u32,
}

// The bit of flag 1, strict.
const STRICT: u32 = 0;

// The bit of flag 2, MULTIVIEW.
const MULTIVIEW: u32 = 1;

// The bit of flag 4, SELECTIVE_MULTIVIEW.
const SELECTIVE_MULTIVIEW: u32 = 2;

// The bit of flag 8, READ_ONLY_DEPTH_STENCIL.
const READ_ONLY_DEPTH_STENCIL: u32 = 3;

// The dimension of a 3D texture.
pub const TEXTURE_D3: u32 = 3;

// View dimension D2.
const D2: u32 = 2;

// View dimension D2Array.
const D2_ARRAY: u32 = 3;

// View dimension D3.
const D3: u32 = 6;

// The bit of usage 4, W3C TEXTURE_BINDING.
const TEXTURE_BINDING: u32 = 2;

// The bit of usage 16, W3C RENDER_ATTACHMENT.
const RENDER_ATTACHMENT: u32 = 4;

// The bit of usage 32, W3C TRANSIENT_ATTACHMENT.
const TRANSIENT: u32 = 5;

// Whether the number stands for no view.
pub fn is_none(v: u32) -> bool
    ensures { result ≡ Se.is_none v }
{
    v == NO_VIEW
}

// Flag 1: strict.
pub fn strict(s: &[u8]) -> bool
    ensures { result ≡ Se.strict (session s.now) }
{
    has_bit(flags(s), STRICT)
}

// Flag 2: MULTIVIEW.
pub fn multiview(s: &[u8]) -> bool
    ensures { result ≡ Se.multiview (session s.now) }
{
    has_bit(flags(s), MULTIVIEW)
}

// Flag 4: SELECTIVE_MULTIVIEW.
pub fn selective_multiview(s: &[u8]) -> bool
    ensures { result ≡ Se.selective_multiview (session s.now) }
{
    has_bit(flags(s), SELECTIVE_MULTIVIEW)
}

// Flag 8: READ_ONLY_DEPTH_STENCIL.
pub fn read_only_depth_stencil(s: &[u8]) -> bool
    ensures { result ≡ Se.read_only_depth_stencil (session s.now) }
{
    has_bit(flags(s), READ_ONLY_DEPTH_STENCIL)
}

// W3C "array layer count": a 3D texture has one layer.
pub fn array_layers(t: Texture) -> u32
    ensures { result ≡ Se.array_layers t }
{
    if t.dimension == TEXTURE_D3 {
        1
    } else {
        t.depth
    }
}

// The slices of a mip: a 3D texture's mip depth, else one.
pub fn slices_in(t: Texture, mip: u32) -> u32
    ensures { result ≡ Se.slices_in t mip }
{
    if t.dimension == TEXTURE_D3 {
        mip_size(t.depth, mip)
    } else {
        1
    }
}

// A view's width and height at its first mip, and its texture's samples.
pub fn extent_of(s: &[u8], v: View) -> Extent
    ensures { result ≡ extent_of (session s.now) v }
{
    let t = texture(s, v.texture);
    Extent {
        width: mip_size(t.width, v.mip),
        height: mip_size(t.height, v.mip),
        samples: t.samples,
    }
}

// A view's mip depth.
pub fn depth_of(s: &[u8], v: View) -> u32
    ensures { result ≡ Se.depth_of (session s.now) v }
{
    let t = texture(s, v.texture);
    mip_size(t.depth, v.mip)
}

// Whether a view is D2.
pub fn is_d2(v: View) -> bool
    ensures { result ≡ Se.is_d2 v }
{
    v.dimension == D2
}

// Whether a view is D2Array.
pub fn is_d2_array(v: View) -> bool
    ensures { result ≡ Se.is_d2_array v }
{
    v.dimension == D2_ARRAY
}

// Whether a view is D3.
pub fn is_d3(v: View) -> bool
    ensures { result ≡ Se.is_d3 v }
{
    v.dimension == D3
}

// What a view has at a slice.
fn range_of(v: View, slice: u32) -> Range
    ensures { result ≡ Se.range_of v slice }
{
    Range {
        texture: v.texture,
        mip: v.mip,
        mips: v.mips,
        layer: v.layer,
        layers: v.layers,
        slice,
    }
}

// What a view has at slice 0.
pub fn view_range(v: View) -> Range
    ensures { result ≡ Se.view_range v }
{
    range_of(v, 0)
}

// What a view has as an attachment at a slice, which counts for a D3 view alone.
pub fn slice_range(v: View, slice: u32) -> Range
    ensures { result ≡ Se.slice_range v slice }
{
    if is_d3(v) {
        range_of(v, slice)
    } else {
        view_range(v)
    }
}

// Whether a view has usage 4, TEXTURE_BINDING.
pub fn texture_binding(v: View) -> bool
    ensures { result ≡ Se.texture_binding v }
{
    has_bit(v.usage, TEXTURE_BINDING)
}

// Whether a view has usage 16, RENDER_ATTACHMENT.
pub fn render_attachment(v: View) -> bool
    ensures { result ≡ Se.render_attachment v }
{
    has_bit(v.usage, RENDER_ATTACHMENT)
}

// Whether a view has usage 32, TRANSIENT_ATTACHMENT.
pub fn transient(v: View) -> bool
    ensures { result ≡ Se.transient v }
{
    has_bit(v.usage, TRANSIENT)
}
