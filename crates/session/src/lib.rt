// The header and rows of a session file, by value. Every byte string and every number has an answer, since a byte past the end reads as 0;
// only `texture_inside`, `view_inside` and `surfaces::surface_offset` have a `requires`, which their callers know.
// In `header` its fields, in `derived` and `surfaces` what follows from the rows.
#![tactic(auto)]

pub mod derived;
pub mod header;
pub mod surfaces;

ghost use Rattle.std.specs.Prelude.{◌≡◌, ◌+◌, ◌*◌, ◌≤◌};
ghost use Rattle.definition.specs.Session as Se;
ghost use Rattle.definition.specs.Session.{session};
ghost use Rattle.session.specs.Rows.{RowsInside, ViewsInside, texture_of, view_of, view_row, view_after, shape_of, pass_row, pass_in, session_in, slot_row, without_clear};

use definition::sizes::{
    HEADER_BYTES, PASS_BYTES, SLOT_BYTES, SLOT_START, TEXTURE_BYTES, VIEW_BYTES,
};
use definition::{Channel, Color, Slot, Texture, View, black};
use encoding::{Eight, eight_at, eight_inside, f64_of_halves, u32_at, u32_inside};
use header::{TEXTURE_COUNT, VIEW_COUNT, texture_count, view_count};

// A pass row of a session: the file, and where the row stands in it, after so many textures, views and passes.
#[derive(Clone, Copy)]
pub struct PassRow<'a> {
    pub session: &'a [u8],
    pub textures: u32,
    pub views: u32,
    pub passes: u32,
}

// Where a view row's format stands, after eight numbers.
const VIEW_FORMAT: usize = 32;

// Where a pass row's multiview mask stands, after the colour count.
const MASK: usize = 4;

// Where its ends-buffer field stands.
const ENDS: usize = 8;

// Where its depth-stencil view stands.
const DEPTH_STENCIL: usize = 12;

// Where its depth channel starts.
const DEPTH: u32 = 16;

// Where its stencil channel starts.
const STENCIL: u32 = 36;

// Where a slot's clear value starts.
const SLOT_CLEAR: usize = 24;

// Where the view rows start: after the textures.
pub fn view_start(s: &[u8]) -> usize
    ensures { (result ≡ Se.view_start s.now) × (result ≤ 1000000000000) }
{
    HEADER_BYTES + TEXTURE_BYTES * (u32_at(s, TEXTURE_COUNT) as usize)
}

// Where the pass rows start: after the views.
pub fn pass_start(s: &[u8]) -> usize
    ensures { (result ≡ Se.pass_start s.now) × (result ≤ 2000000000000) }
{
    view_start(s) + VIEW_BYTES * (u32_at(s, VIEW_COUNT) as usize)
}

// A texture by the eight numbers of its row.
fn texture_of(row: Eight) -> Texture
    ensures { result ≡ texture_of row }
{
    Texture {
        format: row.n0,
        dimension: row.n1,
        width: row.n2,
        height: row.n3,
        depth: row.n4,
        mips: row.n5,
        samples: row.n6,
        usage: row.n7,
    }
}

// Texture row k.
pub fn texture(s: &[u8], k: u32) -> Texture
    ensures { result ≡ (session s.now).texture k }
{
    texture_of(eight_at(s, HEADER_BYTES + TEXTURE_BYTES * (k as usize)))
}

// Texture row k, which lies inside.
pub fn texture_inside(s: &[u8], k: u32) -> Texture
    requires { RowsInside (k + 1) s.now }
    ensures { result ≡ (session s.now).texture k }
{
    texture_of(eight_inside(s, HEADER_BYTES + TEXTURE_BYTES * (k as usize)))
}

// Where view row k starts, after so many textures.
fn view_at(textures: u32, k: u32) -> usize
    ensures { (result ≡ view_row textures k) × (result ≤ 1000000000000) }
{
    HEADER_BYTES + TEXTURE_BYTES * (textures as usize) + VIEW_BYTES * (k as usize)
}

// A view by the eight numbers of its row and its format.
fn view_of(row: Eight, format: u32) -> View
    ensures { result ≡ view_of row format }
{
    View {
        texture: row.n0,
        dimension: row.n1,
        mip: row.n2,
        mips: row.n3,
        layer: row.n4,
        layers: row.n5,
        usage: row.n6,
        resolvable: row.n7,
        format,
    }
}

// View row k, after so many textures, without its format: what tells the surfaces that it takes.
pub fn view_shape(s: &[u8], textures: u32, k: u32) -> View
    ensures { result ≡ shape_of (view_after s.now textures k) }
{
    view_of(eight_at(s, view_at(textures, k)), 0)
}

// View row k, after so many textures, which lies inside.
pub fn view_inside(s: &[u8], textures: u32, k: u32) -> View
    requires { ViewsInside textures (k + 1) s.now }
    ensures { result ≡ view_after s.now textures k }
{
    let at = view_at(textures, k);
    view_of(eight_inside(s, at), u32_inside(s, at + VIEW_FORMAT))
}

// The format of view row k.
pub fn view_format(s: &[u8], k: u32) -> u32
    ensures { result ≡ ((session s.now).view k).format }
{
    u32_at(s, view_at(texture_count(s), k) + VIEW_FORMAT)
}

// View row k.
pub fn view(s: &[u8], k: u32) -> View
    ensures { result ≡ (session s.now).view k }
{
    let at = view_at(texture_count(s), k);
    view_of(eight_at(s, at), u32_at(s, at + VIEW_FORMAT))
}

// The row of the session's pass k.
#[tactic(auto, unfolding(crate::specs::Rows::pass_in, definition::specs::Session::session))]
pub fn pass_row(s: &[u8], k: u32) -> PassRow<'_>
    ensures session { session_in result ≡ session s.now }
    ensures pass { pass_in result ≡ (session s.now).pass k }
{
    PassRow {
        session: s,
        textures: texture_count(s),
        views: view_count(s),
        passes: k,
    }
}

// The four numbers of a colour, from a place on.
fn color_at(s: &[u8], at: usize) -> Color
    ensures { result ≡ Se.color_at s.now at }
{
    let row = eight_at(s, at);
    Color {
        red: f64_of_halves(row.n0, row.n1),
        green: f64_of_halves(row.n2, row.n3),
        blue: f64_of_halves(row.n4, row.n5),
        alpha: f64_of_halves(row.n6, row.n7),
    }
}

impl PassRow<'_> {
    // Where it starts.
    fn at(&self) -> usize
        ensures { (result ≡ pass_row self.now) × (result ≤ 10000000000000) }
    {
        HEADER_BYTES
            + TEXTURE_BYTES * (self.textures as usize)
            + VIEW_BYTES * (self.views as usize)
            + PASS_BYTES * (self.passes as usize)
    }

    // Its colour count.
    #[tactic(auto, unfolding(crate::specs::Rows::pass_in))]
    pub fn colors(&self) -> u32
        ensures { result ≡ (pass_in self.now).colors }
    {
        u32_at(self.session, self.at())
    }

    // Its multiview mask.
    #[tactic(auto, unfolding(crate::specs::Rows::pass_in))]
    pub fn mask(&self) -> u32
        ensures { result ≡ (pass_in self.now).mask }
    {
        u32_at(self.session, self.at() + MASK)
    }

    // Its ends-buffer field.
    #[tactic(auto, unfolding(crate::specs::Rows::pass_in))]
    pub fn ends(&self) -> u32
        ensures { result ≡ (pass_in self.now).ends }
    {
        u32_at(self.session, self.at() + ENDS)
    }

    // Its depth-stencil view.
    #[tactic(auto, unfolding(crate::specs::Rows::pass_in))]
    pub fn depth_stencil(&self) -> u32
        ensures { result ≡ (pass_in self.now).depth_stencil }
    {
        u32_at(self.session, self.at() + DEPTH_STENCIL)
    }

    // The channel that stands at a field: the first five of eight numbers.
    fn channel_at(&self, field: u32) -> Channel
        ensures { result ≡ Se.channel_at self.now.session.now (pass_row self.now + field) }
    {
        let row = eight_at(self.session, self.at() + (field as usize));
        Channel {
            load: row.n0,
            store: row.n1,
            readonly: row.n2,
            given: row.n3,
            clear: row.n4,
        }
    }

    // Its depth channel.
    #[tactic(auto, unfolding(crate::specs::Rows::pass_in))]
    pub fn depth(&self) -> Channel
        ensures { result ≡ (pass_in self.now).depth }
    {
        self.channel_at(DEPTH)
    }

    // Its stencil channel.
    #[tactic(auto, unfolding(crate::specs::Rows::pass_in))]
    pub fn stencil(&self) -> Channel
        ensures { result ≡ (pass_in self.now).stencil }
    {
        self.channel_at(STENCIL)
    }

    // Where slot k starts.
    fn slot_at(&self, k: u32) -> usize
        ensures { (result ≡ slot_row self.now k) × (result ≤ 20000000000000) }
    {
        self.at() + SLOT_START + SLOT_BYTES * (k as usize)
    }

    // Slot k: the first six of eight numbers, and the clear value.
    #[tactic(auto, unfolding(crate::specs::Rows::pass_in))]
    pub fn slot(&self, k: u32) -> Slot
        ensures { result ≡ (pass_in self.now).slot k }
    {
        let at = self.slot_at(k);
        let row = eight_at(self.session, at);
        Slot {
            view: row.n0,
            sliced: row.n1,
            slice: row.n2,
            resolve: row.n3,
            load: row.n4,
            store: row.n5,
            clear: color_at(self.session, at + SLOT_CLEAR),
        }
    }

    // The view of slot k.
    #[tactic(auto, unfolding(crate::specs::Rows::pass_in))]
    pub fn slot_view(&self, k: u32) -> u32
        ensures { result ≡ ((pass_in self.now).slot k).view }
    {
        u32_at(self.session, self.slot_at(k))
    }

    // Slot k without its clear value, which only a reply has.
    #[tactic(auto, unfolding(crate::specs::Rows::pass_in))]
    pub fn slot_without_clear(&self, k: u32) -> Slot
        ensures { result ≡ without_clear ((pass_in self.now).slot k) }
    {
        let row = eight_at(self.session, self.slot_at(k));
        Slot {
            view: row.n0,
            sliced: row.n1,
            slice: row.n2,
            resolve: row.n3,
            load: row.n4,
            store: row.n5,
            clear: black(),
        }
    }
}
