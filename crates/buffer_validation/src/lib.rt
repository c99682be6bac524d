// Number 6: whether the counts, the records and the status bytes that a caller lends are within range.
// Each test is the definition's, of what the lent bytes hold, and reads a record where it stands in them; a list is left at its first record
// out of range. Texture rows lie inside a session that is not refused, so that those that the records name are read untested, and their number
// is read once.
#![tactic(auto)]

ghost use Rattle.std.specs.Prelude.{◌≡◌, true, false, ◌&&◌, ◌-◌, ◌≤◌, length, ltb, if◌then◌else◌};
ghost use Rattle.definition.specs.Sizes.{max_surfaces, surface_bytes, action_bytes, list_bytes};
ghost use Rattle.definition.specs.Session.{session, surface_count};
ghost use Rattle.definition.specs.Calls.{surface_valid, range_valid, surfaces_valid, actions_valid, bytes_valid, counts_valid, lent_valid};
ghost use Rattle.lists.specs.Lists.{count_in, surfaces_in, actions_in, first_actions};
ghost use Rattle.lists.specs.Lent.{bytes, lists_in};
ghost use Rattle.session.specs.Rows.{RowsInside};
ghost use Rattle.buffer_validation.specs.Ranges.{is_flat, surface_fits, area_fits, range_fits};
ghost use Rattle.buffer_validation.specs.Buffers.{buffers, held_in, too_short};

use definition::sizes::{
    ACTIONS_BYTES, CLEARS_BYTES, DISCARDS_BYTES, MAX_ACTIONS, MAX_CLEARS, MAX_DISCARDS,
    MAX_SURFACES,
};
use definition::{Range, Surface, Texture};
use lists::{count, range_at, surface_at};
use session::derived::{TEXTURE_D3, array_layers, slices_in};
use session::header::texture_count;
use session::surfaces::{is_part, surfaces_in};
use session::texture_inside;
use session_validation::ReadableSession;

// ── a surface and a range of a texture

// The texture has the surface.
fn surface_fits(t: Texture, x: Surface) -> bool
    ensures { result ≡ surface_fits t x }
{
    (x.mip < t.mips) & ((x.layer < array_layers(t)) & (x.slice < slices_in(t, x.mip)))
}

// The texture has the mips and the layers of the range, which has some of both.
#[tactic(auto, unfolding(session::specs::Derived::is_part))]
fn area_fits(t: Texture, x: Range) -> bool
    ensures { result ≡ area_fits t x }
{
    is_part(x.mip, x.mips, t.mips) && is_part(x.layer, x.layers, array_layers(t))
}

// The texture has the range, and the range is not empty. The slice is the last mip's, which is there where the mips are the texture's.
fn range_fits(t: Texture, x: Range) -> bool
    ensures { result ≡ range_fits t x }
{
    area_fits(t, x) && x.slice < slices_in(t, x.mip + x.mips - 1)
}

// ── the textures of a session

// A session's bytes and the number of its textures, whose rows lie inside.
#[derive(Clone, Copy)]
struct Textures<'a> {
    bytes: &'a [u8],
    count: u32,
    ghost counted: { count ≡ (session bytes.now).texture_count },
    ghost inside: { RowsInside count bytes.now },
}

impl<'a> Textures<'a> {
    // Those of a session whose texture rows lie inside.
    fn new(s: &'a [u8]) -> Self
        requires { RowsInside (session s.now).texture_count s.now }
        ensures { result.bytes.now ≡ s.now }
    {
        Textures {
            bytes: s,
            count: texture_count(s),
        }
    }

    // A texture, where there is one of that number.
    fn get(&self, k: u32) -> Option<Texture>
        ensures { let S = session self.now.bytes.now in
            result ≡ (if ltb k S.texture_count then Some (S.texture k) else None) }
    {
        if k < self.count {
            Some(texture_inside(self.bytes, k))
        } else {
            None
        }
    }

    // The session has the surface.
    fn has(&self, x: Surface) -> bool
        ensures { result ≡ surface_valid (session self.now.bytes.now) x }
    {
        match self.get(x.texture) {
            Some(t) => surface_fits(t, x),
            None => false,
        }
    }

    // The session has the range, and the range is not empty.
    fn has_range(&self, x: Range) -> bool
        ensures { result ≡ range_valid (session self.now.bytes.now) x }
    {
        match self.get(x.texture) {
            Some(t) => range_fits(t, x),
            None => false,
        }
    }

    // The same, and the range is of a texture that is not 3D.
    fn has_flat(&self, x: Range) -> bool
        ensures { let S = session self.now.bytes.now in
            result ≡ (is_flat S x && range_valid S x) }
    {
        match self.get(x.texture) {
            Some(t) => t.dimension != TEXTURE_D3 && range_fits(t, x),
            None => false,
        }
    }

    // The session has every surface of a lent list, whose records lie inside.
    fn surfaces_valid(&self, b: &[u8]) -> bool
        requires { list_bytes surface_bytes (count_in b.now) ≤ length b.now }
        ensures { result ≡ surfaces_valid (session self.now.bytes.now) (surfaces_in b.now) }
    {
        for i in 0..count(b) {
            if !self.has(surface_at(b, i)) {
                return false;
            }
        }
        true
    }

    // How many actions of a lent list are left, from the first on that is out of range or of a 3D texture. Those before it, most often all, are
    // tested without the slices of a mip. It counts down: a `for` over the actions took an instruction more for each, 3 in 100 of a pass with 490.
    fn actions_left(&self, b: &[u8]) -> usize
        requires { list_bytes action_bytes (count_in b.now) ≤ length b.now }
        ensures within { result ≤ count_in b.now }
        ensures valid { actions_valid (session self.now.bytes.now) (first_actions (count_in b.now - result) b.now) ≡ true }
    {
        let n = count(b);
        let mut left = n;
        while left > 0 {
            if !self.has_flat(range_at(b, n - left)) {
                return left;
            }
            left -= 1;
        }
        left
    }

    // The session has the range of every action of a lent list, whose records lie inside.
    fn actions_valid(&self, b: &[u8]) -> bool
        requires { list_bytes action_bytes (count_in b.now) ≤ length b.now }
        ensures { result ≡ actions_valid (session self.now.bytes.now) (actions_in b.now) }
    {
        let n = count(b);
        for i in n - self.actions_left(b)..n {
            if !self.has_range(range_at(b, i)) {
                return false;
            }
        }
        true
    }

    // How many surfaces the session has, no more than it may. The count of crate session tests every row and stops past the most: of one
    // texture it takes half as many instructions as all of `is_valid`.
    fn surface_count(&self) -> usize
        requires { surface_count (session self.now.bytes.now) ≤ max_surfaces }
        ensures { result ≡ surface_count (session self.now.bytes.now) }
    {
        let mut sum = 0;
        for k in 0..self.count {
            sum += surfaces_in(texture_inside(self.bytes, k));
        }
        sum as usize
    }
}

// The session, whose texture rows lie inside, has the surface.
pub fn surface_valid(s: &[u8], x: Surface) -> bool
    requires { RowsInside (session s.now).texture_count s.now }
    ensures { result ≡ surface_valid (session s.now) x }
{
    Textures::new(s).has(x)
}

// ── all that is lent

// The first n status bytes. Each is looked at, without a branch.
fn bytes_valid(status: &[u8], n: usize) -> bool
    requires { n ≤ length status.now }
    ensures { result ≡ bytes_valid n status.now }
{
    let mut ok = true;
    for i in 0..n {
        ok &= status[i] <= 3;
    }
    ok
}

// The buffers that a caller lends: three lists, and a byte for each surface.
#[derive(Clone, Copy)]
pub struct LentBuffers<'a> {
    pub discards: &'a [u8],
    pub actions: &'a [u8],
    pub clears: &'a [u8],
    pub status: &'a [u8],
}

impl LentBuffers<'_> {
    // One of them is too short.
    #[tactic(auto, unfolding(crate::specs::Buffers::too_short))]
    pub fn is_short(&self) -> bool
        ensures { let l = self.now in
            result ≡ too_short (buffers l.discards.now l.actions.now l.clears.now l.status.now) }
    {
        (self.discards.len() < DISCARDS_BYTES)
            | (self.actions.len() < ACTIONS_BYTES)
            | (self.clears.len() < CLEARS_BYTES)
            | (self.status.len() < MAX_SURFACES)
    }

    // The counts are within the room of the lists.
    fn counts_valid(&self) -> bool
        ensures { let l = self.now in
            result ≡ counts_valid (lists_in (bytes l.discards.now l.actions.now l.clears.now)) }
    {
        (count(self.discards) <= MAX_DISCARDS)
            & (count(self.actions) <= MAX_ACTIONS)
            & (count(self.clears) <= MAX_CLEARS)
    }

    // They are valid for the session, and long enough. Records are looked at where the counts are within the room. In line, the four slices
    // need not go through memory.
    #[inline(always)]
    pub fn is_valid(&self, s: ReadableSession<'_>) -> bool
        requires long { let l = self.now in
            too_short (buffers l.discards.now l.actions.now l.clears.now l.status.now) ≡ false }
        ensures { let l = self.now in
            result ≡ lent_valid (session s.entry.bytes.now) (held_in (buffers l.discards.now l.actions.now l.clears.now l.status.now)) }
    {
        if !self.counts_valid() {
            return false;
        }
        let textures = Textures::new(s.bytes);
        textures.surfaces_valid(self.discards)
            & textures.actions_valid(self.actions)
            & textures.surfaces_valid(self.clears)
            & bytes_valid(self.status, textures.surface_count())
    }
}
