// What a pass finds in the lists: counted on the discards as they are found, before anything is written.
ghost use Rattle.std.specs.Prelude.{◌≡◌, ◌≤◌, length};
ghost use Rattle.std.proofs.Math.Option.{some};
ghost use Rattle.definition.specs.Sizes.{max_discards, max_attachments};
ghost use Rattle.definition.specs.MemoryInit.{matching};
ghost use Rattle.laws.specs.Plans.{listed_by};
ghost use Rattle.lists.specs.Lists.{surfaces_in};
ghost use Rattle.memory_init.specs.Plans.{init_kind, plan_in, plans_in};
ghost use Rattle.memory_init.specs.Tally.{DiscardsInRoom, FoundBy, TallyOf};

use crate::Planned;
use definition::sizes::MAX_DISCARDS;
use definition::{MemoryInitKind, Range};
use lists::{count, surface_at};
use ranges::hits;

// What one plan finds: the discards that leave the list, those of them that are returned as clears, and the actions that it adds.
#[derive(Clone, Copy)]
pub struct Found {
    pub leaving: usize,
    pub returned: usize,
    pub added: usize,
}

// The same of all plans of a pass, and whether the discards have room at every step.
#[derive(Clone, Copy)]
pub struct Tally {
    // A flag, since the counts are promised where a step has no room too: TallyOf.
    pub fits: bool,
    pub leaving: usize,
    pub returned: usize,
    pub added: usize,
}

// How many of the discards are in the range.
fn hits_in(discards: &[u8], range: Range) -> usize
    requires { DiscardsInRoom discards.now }
    ensures { (result ≡ length (matching range (surfaces_in discards.now))) × (result ≤ max_discards) }
{
    let mut y: usize = 0;
    for i in 0..count(discards) {
        if hits(range, surface_at(discards, i)) {
            y += 1;
        }
    }
    y
}

// What a registration finds: the discards in its range leave, and a needing one returns them.
fn found_by_action(discards: &[u8], range: Range, kind: MemoryInitKind) -> Found
    requires { DiscardsInRoom discards.now }
    ensures { FoundBy (some kind) range (surfaces_in discards.now) result }
{
    let n = hits_in(discards, range);
    match kind {
        MemoryInitKind::ImplicitlyInitialized => Found {
            leaving: n,
            returned: 0,
            added: 1,
        },
        MemoryInitKind::NeedsInitializedMemory => Found {
            leaving: n,
            returned: n,
            added: n + 1,
        },
    }
}

// What a registration or none finds.
fn found_by(discards: &[u8], range: Range, kind: Option<MemoryInitKind>) -> Found
    requires { DiscardsInRoom discards.now }
    ensures { FoundBy (init_kind kind) range (surfaces_in discards.now) result }
{
    match kind {
        Some(k) => found_by_action(discards, range, k),
        None => Found {
            leaving: 0,
            returned: 0,
            added: 0,
        },
    }
}

// How many discards a plan lists: one for each layer.
fn listed_by(p: &Planned) -> u32
    ensures { result ≡ length (listed_by (plan_in p.now)) }
{
    if p.discards { p.range.layers } else { 0 }
}

// What a pass finds, plan by plan.
pub fn tally_pass(discards: &[u8], plans: &[Planned]) -> Tally
    requires discards_in_room { DiscardsInRoom discards.now }
    requires few_plans { length plans.now ≤ max_attachments }
    ensures { TallyOf (plans_in plans.now) (surfaces_in discards.now) result }
{
    let mut held = count(discards);
    let mut tally = Tally {
        fits: true,
        leaving: 0,
        returned: 0,
        added: 0,
    };
    for p in plans {
        let found = found_by(discards, p.range, p.kind);
        held = held.saturating_sub(found.leaving) + listed_by(p) as usize;
        tally.fits &= held <= MAX_DISCARDS;
        tally.leaving += found.leaving;
        tally.returned += found.returned;
        tally.added += found.added;
    }
    tally
}
