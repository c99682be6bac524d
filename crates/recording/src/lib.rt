// The port of memory_init.rs: what an accepted pass leaves in the lists, which are written where they are lent. The actions and the clears go
// by the discards as they are found, then come the discards, every removal before every entry. Where no discard leaves its list, the
// discards are not looked at. No function refuses for want of room, which the caller knows beforehand.
#![tactic(auto)]

ghost use Rattle.std.specs.Prelude.{◌≡◌, ◌++◌, map, ◌+◌, ◌≤◌, length, drop};
ghost use Rattle.std.proofs.Math.Option.{some};
ghost use Rattle.definition.specs.Sizes.{surface_bytes, action_bytes, count_bytes, list_bytes};
ghost use Rattle.definition.specs.MemoryInit.{implicit_at, matching};
ghost use Rattle.definition.specs.Pass.{new_pass};
ghost use Rattle.laws.specs.Records.{Appended};
ghost use Rattle.laws.specs.Plans.{returned_by, added_by, returned_all, added_all, together};
ghost use Rattle.lists.specs.Lists.{surface_of, action_of_bytes, count_in, actions_in, Room, SurfacesBecome, ActionsBecome, first_surfaces};
ghost use Rattle.lists.specs.Lent.{bytes, lists_in, Leaves};
ghost use Rattle.memory_init.specs.Plans.{init_kind, plans_in};
ghost use Rattle.recording.specs.Recording.{looked, Recordable};

use definition::{MemoryInitKind, Range};
use discard_list::record_discards;
use lists::{count, put_action, put_surface, set_count, surface_at};
use memory_init::Planned;
use memory_init::tally::Tally;
use ranges::{hits, only_range};

// ── actions

// Each of the first n discards that is in the range gives an implicit action, from place y on. (A struct of discards and n would be named
// with both in each clause that names the two here.)
fn push_implicit_actions(
    discards: &[u8],
    n: usize,
    range: Range,
    actions: &mut [u8],
    y: usize,
) -> usize
    requires discards_inside { list_bytes surface_bytes n ≤ length discards.now }
    requires actions_inside { list_bytes action_bytes (y + length (matching range (first_surfaces n discards.now))) ≤ length actions.old }
    ensures { Appended action_bytes action_of_bytes y (map implicit_at (matching range (first_surfaces n discards.now)))
        (drop count_bytes actions.old) (drop count_bytes actions.new) result }
{
    let mut end = y;
    for i in 0..n {
        let s = surface_at(discards, i);
        if hits(range, s) {
            put_action(
                actions,
                end,
                only_range(s),
                MemoryInitKind::ImplicitlyInitialized,
            );
            end += 1;
        }
    }
    end
}

// A registration's action, and of a needing one the implicit ones, from place y on.
fn push_action(
    discards: &[u8],
    n: usize,
    range: Range,
    kind: MemoryInitKind,
    actions: &mut [u8],
    y: usize,
) -> usize
    requires discards_inside { list_bytes surface_bytes n ≤ length discards.now }
    requires actions_inside { let xs = added_by (some kind) range (first_surfaces n discards.now) in
        list_bytes action_bytes (y + length xs) ≤ length actions.old }
    ensures { let xs = added_by (some kind) range (first_surfaces n discards.now) in
        Appended action_bytes action_of_bytes y xs (drop count_bytes actions.old) (drop count_bytes actions.new) result }
{
    put_action(actions, y, range, kind);
    match kind {
        MemoryInitKind::ImplicitlyInitialized => y + 1,
        MemoryInitKind::NeedsInitializedMemory => push_implicit_actions(
            discards,
            n,
            range,
            actions,
            y + 1,
        ),
    }
}

// The actions of a registration or none.
fn push_actions(
    discards: &[u8],
    n: usize,
    range: Range,
    kind: Option<MemoryInitKind>,
    actions: &mut [u8],
    y: usize,
) -> usize
    requires discards_inside { list_bytes surface_bytes n ≤ length discards.now }
    requires actions_inside { let xs = added_by (init_kind kind) range (first_surfaces n discards.now) in
        list_bytes action_bytes (y + length xs) ≤ length actions.old }
    ensures { let xs = added_by (init_kind kind) range (first_surfaces n discards.now) in
        Appended action_bytes action_of_bytes y xs (drop count_bytes actions.old) (drop count_bytes actions.new) result }
{
    match kind {
        Some(k) => push_action(discards, n, range, k, actions, y),
        None => y,
    }
}

// The actions of all plans, by the first n discards, go to the end of the list.
fn record_actions(discards: &[u8], n: usize, actions: &mut [u8], plans: &[Planned])
    requires discards_inside { list_bytes surface_bytes n ≤ length discards.now }
    requires room { Room action_bytes (count_in actions.old + length (added_all (plans_in plans.now) (first_surfaces n discards.now))) actions.old }
    ensures { ActionsBecome (actions_in actions.old ++ added_all (plans_in plans.now) (first_surfaces n discards.now))
        actions.old actions.new }
{
    let mut end = count(actions);
    for p in plans {
        end = push_actions(discards, n, p.range, p.kind, actions, end);
    }
    set_count(actions, end);
}

// ── clears

// The first n discards that are in the range, from place y on. (The loop is that of push_implicit_actions; one over both would need a trait
// for what is put and how long its record is, with its law, which is longer than the loop. So with return_clears and record_actions.)
fn return_matching(discards: &[u8], n: usize, range: Range, clears: &mut [u8], y: usize) -> usize
    requires discards_inside { list_bytes surface_bytes n ≤ length discards.now }
    requires clears_inside { list_bytes surface_bytes (y + length (matching range (first_surfaces n discards.now))) ≤ length clears.old }
    ensures { Appended surface_bytes surface_of y (matching range (first_surfaces n discards.now))
        (drop count_bytes clears.old) (drop count_bytes clears.new) result }
{
    let mut end = y;
    for i in 0..n {
        let s = surface_at(discards, i);
        if hits(range, s) {
            put_surface(clears, end, s);
            end += 1;
        }
    }
    end
}

// What a registration or none returns, from place y on: a needing one returns what it takes out.
fn return_by(
    discards: &[u8],
    n: usize,
    range: Range,
    kind: Option<MemoryInitKind>,
    clears: &mut [u8],
    y: usize,
) -> usize
    requires discards_inside { list_bytes surface_bytes n ≤ length discards.now }
    requires clears_inside { let xs = returned_by (init_kind kind) range (first_surfaces n discards.now) in
        list_bytes surface_bytes (y + length xs) ≤ length clears.old }
    ensures { let xs = returned_by (init_kind kind) range (first_surfaces n discards.now) in
        Appended surface_bytes surface_of y xs (drop count_bytes clears.old) (drop count_bytes clears.new) result }
{
    match kind {
        Some(MemoryInitKind::NeedsInitializedMemory) => return_matching(
            discards, n, range, clears, y,
        ),
        _ => y,
    }
}

// What all plans return of the first n discards replaces the clears.
fn return_clears(discards: &[u8], n: usize, clears: &mut [u8], plans: &[Planned])
    requires discards_inside { list_bytes surface_bytes n ≤ length discards.now }
    requires room { Room surface_bytes (length (returned_all (plans_in plans.now) (first_surfaces n discards.now))) clears.old }
    ensures { SurfacesBecome (returned_all (plans_in plans.now) (first_surfaces n discards.now)) clears.old clears.new }
{
    let mut end: usize = 0;
    for p in plans {
        end = return_by(discards, n, p.range, p.kind, clears, end);
    }
    set_count(clears, end);
}

// ── a whole pass

// How many discards are to be looked at: none where none leaves.
fn looked_at(discards: &[u8], leaving: usize) -> usize
    ensures { result ≡ looked leaving (count_in discards.now) }
{
    if leaving == 0 { 0 } else { count(discards) }
}

// What an accepted pass leaves: it replaces the clears, and its plans are recorded.
pub fn record_pass(
    discards: &mut [u8],
    actions: &mut [u8],
    clears: &mut [u8],
    plans: &[Planned],
    t: Tally,
)
    requires { Recordable (plans_in plans.now) t (bytes discards.old actions.old clears.old) }
    ensures { let b = bytes discards.old actions.old clears.old in
        Leaves (together (plans_in plans.now) (new_pass (lists_in b))) b
        (bytes discards.new actions.new clears.new) }
{
    let n = looked_at(discards, t.leaving);
    record_actions(discards, n, actions, plans);
    return_clears(discards, n, clears, plans);
    record_discards(discards, plans, t.leaving);
}
