// Lists that a caller lends as bytes: a count, and then records, all numbers little-endian u32. Records are read and written where they
// stand; the contracts speak of the records, so that the lists are lists of them. What is read or written lies inside, which the caller knows.
// Surfaces and actions have functions of their own: their fields differ, and a trait over both would hold the same lines in its impls.
#![tactic(auto)]

ghost use Rattle.std.specs.Prelude.{◌≡◌, ◌+◌, ◌≤◌, ◌<◌, length, drop};
ghost use Rattle.definition.specs.Sizes.{surface_bytes, action_bytes, count_bytes, list_bytes};
ghost use Rattle.laws.specs.Plans.{action_of};
ghost use Rattle.laws.specs.Records.{Written};
ghost use Rattle.lists.specs.Lists as L;
ghost use Rattle.lists.specs.Lists.{surface_of, action_of_bytes, count_in, surface_in, action_in, layers_by, CountSet};

use definition::sizes::{ACTION_BYTES, COUNT_BYTES, SURFACE_BYTES};
use definition::{MemoryInitKind, Range, Surface};
use encoding::{put_u32_inside, u32_at, u32_inside};

// How many records a list has.
pub fn count(b: &[u8]) -> usize
    ensures { result ≡ count_in b.now }
{
    u32_at(b, 0) as usize
}

// The count is written.
pub fn set_count(b: &mut [u8], n: usize)
    requires { (count_bytes ≤ length b.old) × (n < 4294967296) }
    ensures { CountSet n b.old b.new }
{
    put_u32_inside(b, 0, n as u32);
}

// The surface at place i.
pub fn surface_at(b: &[u8], i: usize) -> Surface
    requires { list_bytes surface_bytes (i + 1) ≤ length b.now }
    ensures { result ≡ surface_in i b.now }
{
    let at = COUNT_BYTES + SURFACE_BYTES * i;
    Surface {
        texture: u32_inside(b, at),
        mip: u32_inside(b, at + 4),
        layer: u32_inside(b, at + 8),
        slice: u32_inside(b, at + 12),
    }
}

// A surface goes to place i.
pub fn put_surface(b: &mut [u8], i: usize, s: Surface)
    requires { list_bytes surface_bytes (i + 1) ≤ length b.old }
    ensures { Written surface_bytes surface_of i s (drop count_bytes b.old) (drop count_bytes b.new) }
{
    let at = COUNT_BYTES + SURFACE_BYTES * i;
    put_u32_inside(b, at, s.texture);
    put_u32_inside(b, at + 4, s.mip);
    put_u32_inside(b, at + 8, s.layer);
    put_u32_inside(b, at + 12, s.slice);
}

// The kind of a number. (A `From` for a type of the definition could stand only there.)
fn kind_of(number: u32) -> MemoryInitKind
    ensures { result ≡ L.kind_of number }
{
    if number == 0 {
        MemoryInitKind::ImplicitlyInitialized
    } else {
        MemoryInitKind::NeedsInitializedMemory
    }
}

// The layers of an action, by its kind's number.
fn layers_by(kind: u32, layers: u32) -> u32
    ensures { result ≡ layers_by kind layers }
{
    if kind <= 1 { layers } else { 0 }
}

// The range of the action at place i.
pub fn range_at(b: &[u8], i: usize) -> Range
    requires { list_bytes action_bytes (i + 1) ≤ length b.now }
    ensures { result ≡ (action_in i b.now).range }
{
    let at = COUNT_BYTES + ACTION_BYTES * i;
    Range {
        texture: u32_inside(b, at),
        mip: u32_inside(b, at + 4),
        mips: u32_inside(b, at + 8),
        layer: u32_inside(b, at + 12),
        layers: layers_by(u32_inside(b, at + 20), u32_inside(b, at + 16)),
        slice: u32_inside(b, at + 24),
    }
}

// The kind of the action at place i.
pub fn kind_at(b: &[u8], i: usize) -> MemoryInitKind
    requires { list_bytes action_bytes (i + 1) ≤ length b.now }
    ensures { result ≡ (action_in i b.now).kind }
{
    kind_of(u32_inside(b, COUNT_BYTES + ACTION_BYTES * i + 20))
}

// An action goes to place i.
pub fn put_action(b: &mut [u8], i: usize, range: Range, kind: MemoryInitKind)
    requires { list_bytes action_bytes (i + 1) ≤ length b.old }
    ensures { Written action_bytes action_of_bytes i (action_of range kind)
        (drop count_bytes b.old) (drop count_bytes b.new) }
{
    let at = COUNT_BYTES + ACTION_BYTES * i;
    put_u32_inside(b, at, range.texture);
    put_u32_inside(b, at + 4, range.mip);
    put_u32_inside(b, at + 8, range.mips);
    put_u32_inside(b, at + 12, range.layer);
    put_u32_inside(b, at + 16, range.layers);
    put_u32_inside(b, at + 20, kind as u32);
    put_u32_inside(b, at + 24, range.slice);
}
