// The discards after an accepted pass, written where they are lent: those that stay by all its plans, in order, and then those that it lists,
// an entry for each layer of a discarded view.
#![tactic(auto)]

ghost use Rattle.std.specs.Prelude.{◌≡◌, ◌++◌, ◌+◌, ◌≤◌, length, drop};
ghost use Rattle.definition.specs.Sizes.{max_layers, surface_bytes, count_bytes, list_bytes};
ghost use Rattle.definition.specs.Surfaces.{layers_of};
ghost use Rattle.laws.specs.Records.{Appended};
ghost use Rattle.laws.specs.Plans.{listed_by, staying_all, listed_all, Layered};
ghost use Rattle.lists.specs.Lists.{surface_of, surfaces_in, SurfacesBecome};
ghost use Rattle.memory_init.specs.Plans.{init_kind, plan_in, plans_in};
ghost use Rattle.discard_list.specs.Discards as D;
ghost use Rattle.discard_list.specs.Discards.{Keeps, LentDiscards};

use definition::{MemoryInitKind, Range, Surface};
use lists::{count, put_surface, set_count, surface_at};
use memory_init::Planned;
use ranges::{hits, layer_at};

// Whether a discard stays by a registration or none: those in the range of a registration leave.
fn stays_by(s: Surface, range: Range, kind: Option<MemoryInitKind>) -> bool
    ensures { result ≡ D.stays_by (init_kind kind) range s }
{
    match kind {
        Some(_) => !hits(range, s),
        None => true,
    }
}

// Whether a discard stays by all plans.
fn stays(s: Surface, plans: &[Planned]) -> bool
    ensures { result ≡ D.stays (plans_in plans.now) s }
{
    for p in plans {
        if !stays_by(s, p.range, p.kind) {
            return false;
        }
    }
    true
}

// What all plans leave of the first n discards, in order (Vec::retain): each is tested by all of them, so that nothing is written past
// those that stay.
fn retain_all(discards: &mut [u8], n: usize, plans: &[Planned]) -> usize
    requires { list_bytes surface_bytes n ≤ length discards.old }
    ensures { Keeps (staying_all (plans_in plans.now)) n result
        (drop count_bytes discards.old) (drop count_bytes discards.new) }
{
    let mut kept: usize = 0;
    for i in 0..n {
        let s = surface_at(discards, i);
        if stays(s, plans) {
            put_surface(discards, kept, s);
            kept += 1;
        }
    }
    kept
}

// The layers of a range, lowest first, go to place n and those behind it.
fn list_layers(discards: &mut [u8], n: usize, range: Range) -> usize
    requires layers_bound { range.layer + range.layers ≤ max_layers }
    requires layers_inside { list_bytes surface_bytes (n + range.layers) ≤ length discards.old }
    ensures { Appended surface_bytes surface_of n (layers_of range)
        (drop count_bytes discards.old) (drop count_bytes discards.new) result }
{
    let mut end = n;
    for i in 0..range.layers {
        put_surface(discards, end, layer_at(range, range.layer + i));
        end += 1;
    }
    end
}

// What a plan lists goes to place n and those behind it.
fn list_by(discards: &mut [u8], n: usize, p: &Planned) -> usize
    requires layers_bound { p.now.range.layer + p.now.range.layers ≤ max_layers }
    requires listed_inside { list_bytes surface_bytes (n + length (listed_by (plan_in p.now))) ≤ length discards.old }
    ensures { Appended surface_bytes surface_of n (listed_by (plan_in p.now))
        (drop count_bytes discards.old) (drop count_bytes discards.new) result }
{
    if p.discards {
        list_layers(discards, n, p.range)
    } else {
        n
    }
}

// What all plans list goes behind the first n discards.
fn list_all(discards: &mut [u8], n: usize, plans: &[Planned]) -> usize
    requires listed_inside { list_bytes surface_bytes (n + length (listed_all (plans_in plans.now))) ≤ length discards.old }
    requires layered { Layered (plans_in plans.now) }
    ensures { Appended surface_bytes surface_of n (listed_all (plans_in plans.now))
        (drop count_bytes discards.old) (drop count_bytes discards.new) result }
{
    let mut end = n;
    for p in plans {
        end = list_by(discards, end, p);
    }
    end
}

// The discards after a pass of which so many leave: those that stay, then those that it lists.
pub fn record_discards(discards: &mut [u8], plans: &[Planned], leaving: usize)
    requires { LentDiscards (plans_in plans.now) leaving discards.old }
    ensures { let ps = plans_in plans.now in
        SurfacesBecome (staying_all ps (surfaces_in discards.old) ++ listed_all ps) discards.old discards.new }
{
    let n = count(discards);
    let kept = if leaving == 0 {
        n
    } else {
        retain_all(discards, n, plans)
    };
    let end = list_all(discards, kept, plans);
    set_count(discards, end);
}
