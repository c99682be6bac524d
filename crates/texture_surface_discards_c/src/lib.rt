// The discard list as a lent slice of records, for callers in C: what the library `texture_surface_discards` exports, each function
// with its contract there.
#![tactic(auto)]

ghost use Rattle.texture_surface_discards.specs.Slices.{range_of, Listed, Kept};

use definition::Surface;
use texture_surface_discards::TextureInitRange;

// A discard goes after the first n: n + 1. Where the slice has no room for it, n, and the slice stays.
#[unsafe(no_mangle)]
pub extern "C" fn deskcheck_discard(discards: &mut [Surface], n: usize, s: Surface) -> usize
    ensures { Listed n s discards.old discards.new result }
{
    texture_surface_discards::deskcheck_discard(discards, n, s)
}

// The discards outside the range stay, in order (Vec::retain): how many. Where n is past the slice's end, n, and the slice stays.
#[unsafe(no_mangle)]
pub extern "C" fn deskcheck_retain(
    discards: &mut [Surface],
    n: usize,
    range: TextureInitRange,
) -> usize
    ensures { Kept n (range_of range) discards.old discards.new result }
{
    texture_surface_discards::deskcheck_retain(discards, n, range)
}
