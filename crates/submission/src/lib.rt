// A submission: the actions run in order, then the discards mark empty; the new status bytes are the definition's for every surface.
// It goes once over the bytes, once over the textures, and then over the surfaces that the actions and the discards name.
#![tactic(auto)]

ghost use Rattle.std.specs.Prelude.{◌≡◌, ℕ, true, ◌+◌, ◌≤◌, ◌<◌, length, get_or};
ghost use Rattle.definition.specs.Sizes.{max_surfaces, surface_bytes, action_bytes, list_bytes};
ghost use Rattle.definition.specs.Session.{session, surfaces_before, surface_count, surface_index, surfaces_of};
ghost use Rattle.definition.specs.Status as Status;
ghost use Rattle.definition.specs.Submission.{submit_bytes};
ghost use Rattle.definition.specs.Calls.{surfaces_valid, actions_valid};
ghost use Rattle.laws.specs.Plans.{action_of};
ghost use Rattle.laws.specs.Surfaces.{Inside, RangeInside};
ghost use Rattle.laws.specs.Submission.{sweep, act_at, empty_at, sweep_acts};
ghost use Rattle.session.specs.Rows.{RowsInside};
ghost use Rattle.lists.specs.Lists.{count_in, surfaces_in, actions_in};
ghost use Rattle.submission.specs.Runs.{run, mip_of, Bases, Submits};

use definition::sizes::MAX_TEXTURES;
use definition::{MemoryInitKind, Range, Surface};
use lists::{count, kind_at, range_at, surface_at};
use session::header::texture_count;
use session::surfaces::{surface_offset, surfaces_before, surfaces_in};
use session::texture_inside;

// A submission begins: the byte forgets that an earlier one cleared it.
#[tactic(auto, unfolding(definition::specs::Status::restart))]
fn restart(b: u8) -> u8
    ensures { result ≡ Status.restart b }
{
    match b {
        0 | 2 => 0,
        _ => 1,
    }
}

// An action at a surface: a needing one clears and fills an empty surface, an implicit one marks it filled.
#[tactic(auto, unfolding(definition::specs::Status::act_byte))]
fn act_byte(kind: MemoryInitKind, b: u8) -> u8
    ensures { result ≡ Status.act_byte kind b }
{
    match b {
        0 => match kind {
            MemoryInitKind::ImplicitlyInitialized => 1,
            MemoryInitKind::NeedsInitializedMemory => 3,
        },
        2 => 3,
        _ => b,
    }
}

// A discard at a surface marks it empty.
#[tactic(auto, unfolding(definition::specs::Status::empty_byte))]
fn empty_byte(b: u8) -> u8
    ensures { result ≡ Status.empty_byte b }
{
    match b {
        0 | 1 => 0,
        _ => 2,
    }
}

// A function of the byte, at n bytes from a place on.
fn update<F: Fn(u8) -> u8>(status: &mut [u8], at: usize, n: usize, f: F)
    requires room { at + n ≤ length status.old }
    requires callable { F.IsAlwaysCallable f }
    ensures { (g : ℕ → ℕ) → ((b c : ℕ) → F.post f b c → c ≡ g b) → status.new ≡ run g at n status.old }
{
    for k in 0..n {
        let i = at + k;
        status[i] = f(status[i]);
    }
}

// The number of surfaces before each texture goes to its place in `bases`; the answer is that of all surfaces.
fn texture_bases(s: &[u8], bases: &mut [usize]) -> usize
    requires { let S = session s.now in
        RowsInside S.texture_count s.now
        × ((S.texture_count ≤ length bases.old) × (surface_count S ≤ max_surfaces)) }
    ensures { (result ≡ surface_count (session s.now))
        × Bases s.now bases.new }
{
    let mut sum: usize = 0;
    for k in 0..texture_count(s) {
        bases[k as usize] = sum;
        sum += surfaces_in(texture_inside(s, k)) as usize;
    }
    sum
}

// Where each surface of a session has its status byte: the session's bytes, whose texture rows lie inside, and the number of surfaces before
// each texture. There are no more surfaces than a session may have.
#[derive(Clone, Copy)]
struct Layout<'a> {
    bytes: &'a [u8],
    bases: &'a [usize],
    ghost rows: { RowsInside (session bytes.now).texture_count bytes.now },
    ghost few: { surface_count (session bytes.now) ≤ max_surfaces },
    ghost long: { (session bytes.now).texture_count ≤ length bases.now },
    ghost before: { (k : ℕ) → k < (session bytes.now).texture_count → get_or bases.now k 0 ≡ surfaces_before (session bytes.now) k },
}

impl Layout<'_> {
    // A surface's place among the status bytes: behind the textures before its own.
    fn index(&self, x: Surface) -> usize
        requires { Inside (session self.now.bytes.now) x }
        ensures { result ≡ surface_index (session self.now.bytes.now) x }
    {
        let offset = surface_offset(texture_inside(self.bytes, x.texture), x);
        self.bases[x.texture as usize] + offset as usize
    }

    // An action at mip m of its range, whose layers stand side by side.
    fn act_mip(&self, status: &mut [u8], range: Range, m: u32, kind: MemoryInitKind)
        requires range { RangeInside (session self.now.bytes.now) range }
        requires mip { m < range.mips }
        requires status { surface_count (session self.now.bytes.now) ≤ length status.old }
        ensures { let S = session self.now.bytes.now in
            status.new ≡ sweep (act_at (action_of (mip_of range m) kind)) (surfaces_of S) status.old }
    {
        let first = self.index(Surface {
            texture: range.texture,
            mip: range.mip + m,
            layer: range.layer,
            slice: range.slice,
        });
        update(status, first, range.layers as usize, |b| act_byte(kind, b));
    }

    // An action: every surface of its range, mip by mip.
    fn act(&self, status: &mut [u8], range: Range, kind: MemoryInitKind)
        requires range { RangeInside (session self.now.bytes.now) range }
        requires status { surface_count (session self.now.bytes.now) ≤ length status.old }
        ensures { let S = session self.now.bytes.now in
            status.new ≡ sweep (act_at (action_of range kind)) (surfaces_of S) status.old }
    {
        for m in 0..range.mips {
            self.act_mip(status, range, m, kind);
        }
    }

    // The actions of a lent list, in order.
    fn run_actions(&self, status: &mut [u8], b: &[u8])
        requires valid { actions_valid (session self.now.bytes.now) (actions_in b.now) ≡ true }
        requires long { list_bytes action_bytes (count_in b.now) ≤ length b.now }
        requires status { surface_count (session self.now.bytes.now) ≤ length status.old }
        ensures { let S = session self.now.bytes.now in
            status.new ≡ sweep_acts (actions_in b.now) (surfaces_of S) status.old }
    {
        for i in 0..count(b) {
            self.act(status, range_at(b, i), kind_at(b, i));
        }
    }

    // The discards of a lent list mark empty.
    fn run_discards(&self, status: &mut [u8], b: &[u8])
        requires valid { surfaces_valid (session self.now.bytes.now) (surfaces_in b.now) ≡ true }
        requires long { list_bytes surface_bytes (count_in b.now) ≤ length b.now }
        requires status { surface_count (session self.now.bytes.now) ≤ length status.old }
        ensures { let S = session self.now.bytes.now in
            status.new ≡ sweep (empty_at (surfaces_in b.now)) (surfaces_of S) status.old }
    {
        for i in 0..count(b) {
            let at = self.index(surface_at(b, i));
            status[at] = empty_byte(status[at]);
        }
    }
}

// A submission of lists with an entry: the bytes begin, then the actions run, then the discards.
fn submit_listed(s: &[u8], discards: &[u8], actions: &[u8], status: &mut [u8])
    requires { Submits s.now discards.now actions.now status.old }
    ensures { let d = surfaces_in discards.now in
        let a = actions_in actions.now in
        status.new ≡ submit_bytes a d (surfaces_of (session s.now)) status.old }
{
    let mut bases: [usize; MAX_TEXTURES as usize] = [0; MAX_TEXTURES as usize];
    let n = texture_bases(s, &mut bases);
    let layout = Layout {
        bytes: s,
        bases: &bases,
    };
    update(status, 0, n, restart);
    layout.run_actions(status, actions);
    layout.run_discards(status, discards);
}

// A submission of two lent lists, read where they stand; bytes past the last surface are neither read nor written. Where both lists are
// empty the bytes begin, and no surface's place is asked for.
pub fn submit(s: &[u8], discards: &[u8], actions: &[u8], status: &mut [u8])
    requires { Submits s.now discards.now actions.now status.old }
    ensures { let d = surfaces_in discards.now in
        let a = actions_in actions.now in
        status.new ≡ submit_bytes a d (surfaces_of (session s.now)) status.old }
{
    if (count(discards) == 0) & (count(actions) == 0) {
        let n = surfaces_before(s, texture_count(s)) as usize;
        update(status, 0, n, restart);
    } else {
        submit_listed(s, discards, actions, status);
    }
}
