// A range of surfaces, as the lists of a command buffer have it: which surfaces it has, those of its layers, and one surface as a range.
#![tactic(auto)]

ghost use Rattle.std.specs.Prelude.{◌≡◌};
ghost use Rattle.definition.specs.Surfaces as Surfaces;

use definition::{Range, Surface};

// x is one of the `count` numbers from `first` on. The sum of two u32 fits a u64.
#[tactic(auto, unfolding(definition::specs::Surfaces::within))]
fn within(first: u32, count: u32, x: u32) -> bool
    ensures { result ≡ Surfaces.within first count x }
{
    (first <= x) & ((x as u64) < (first as u64) + (count as u64))
}

// The range has the surface.
#[tactic(auto, unfolding(definition::specs::Surfaces::hits))]
pub fn hits(range: Range, s: Surface) -> bool
    ensures { result ≡ Surfaces.hits range s }
{
    (s.texture == range.texture)
        & within(range.mip, range.mips, s.mip)
        & (s.slice == range.slice)
        & within(range.layer, range.layers, s.layer)
}

// A layer of the range's first mip, at its slice.
pub fn layer_at(range: Range, layer: u32) -> Surface
    ensures { result ≡ Surfaces.surface_at range.texture range.mip layer range.slice }
{
    Surface {
        texture: range.texture,
        mip: range.mip,
        layer,
        slice: range.slice,
    }
}

// One surface as a range. (A `From` between two types of the definition could stand only there.)
pub fn only_range(s: Surface) -> Range
    ensures { result ≡ Surfaces.only_range s }
{
    Range {
        texture: s.texture,
        mip: s.mip,
        mips: 1,
        layer: s.layer,
        layers: 1,
        slice: s.slice,
    }
}
