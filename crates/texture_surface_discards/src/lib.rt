// The discard list as a lent slice of records (Vec<TextureSurfaceDiscard>); `texture_surface_discards_c` has it for callers in C.
// Both functions have the flat form's contracts, over the records' numbers, and test what they are given: neither has a `requires`.
#![tactic(auto)]

ghost use Rattle.std.specs.Prelude.{not, ◌≡◌};
ghost use Rattle.definition.specs.Surfaces as Surfaces;
ghost use Rattle.texture_surface_discards.specs.Slices.{range_of, Listed, Kept};

use definition::{Range, Surface};
use ranges::hits;

// A range as C lays it out.
#[repr(C)]
#[derive(Clone, Copy)]
pub struct TextureInitRange {
    pub texture: u32,
    pub mip: u32,
    pub mips: u32,
    pub layer: u32,
    pub layers: u32,
    pub slice: u32,
}

// A range that C laid out is the definition's, field by field.
impl From<TextureInitRange> for Range {
    ghost from_gives = { λ laid_out range. range ≡ range_of laid_out };

    fn from(range: TextureInitRange) -> Range {
        Range {
            texture: range.texture,
            mip: range.mip,
            mips: range.mips,
            layer: range.layer,
            layers: range.layers,
            slice: range.slice,
        }
    }
}

// A discard outside the range stays.
fn stays(range: TextureInitRange, s: Surface) -> bool
    ensures { result ≡ not (Surfaces.hits (range_of range) s) }
{
    !hits(Range::from(range), s)
}

// A discard goes after the first n: n + 1. Where the slice has no room for it, n, and the slice stays.
#[tactic(auto, using(crate::proofs::Contents::listed))]
pub fn deskcheck_discard(discards: &mut [Surface], n: usize, s: Surface) -> usize
    ensures { Listed n s discards.old discards.new result }
{
    if discards.len() <= n {
        return n;
    }
    discards[n] = s;
    n + 1
}

// The discards outside the range stay, in order (Vec::retain): how many. Where n is past the slice's end, n, and the slice stays.
pub fn deskcheck_retain(discards: &mut [Surface], n: usize, range: TextureInitRange) -> usize
    ensures { Kept n (range_of range) discards.old discards.new result }
{
    if discards.len() < n {
        return n;
    }
    let mut kept: usize = 0;
    for i in 0..n {
        let s = discards[i];
        if stays(range, s) {
            discards[kept] = s;
            kept += 1;
        }
    }
    kept
}
