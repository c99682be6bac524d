// Which byte strings are sessions and which pass rows can be read: document 01's numbers 1 to 5. Every byte string has an
// answer, no public function has a `requires`, and a session is read once, in time linear in its length.
#![tactic(auto)]

ghost use Rattle.std.specs.Prelude.{◌≡◌, IfOk};
ghost use Rattle.definition.specs.Session as Se;
ghost use Rattle.definition.specs.Session.{session};
ghost use Rattle.definition.specs.Readable as Re;
ghost use Rattle.definition.specs.Refusals.{number_in};
ghost use Rattle.session.specs.Rows.{RowsInside, ViewsInside, pass_in, session_in};
ghost use Rattle.session_validation.specs.Tests.{format_valid, layers_for};

use definition::refusals::Refusal;
use definition::sizes::{
    HEADER_BYTES, MAX_COLOR_BYTES, MAX_FLAGS, MAX_LAYERS, MAX_MIPS, MAX_MULTIVIEWS, MAX_PASSES,
    MAX_SIZE, MAX_SLOTS, MAX_SURFACES, MAX_TEXTURES, MAX_USAGE, MAX_VIEWS, PASS_BYTES,
    TOTAL_LENGTH_AT,
};
use definition::{Channel, Slot, Texture, View};
use encoding::{has_bit, u32_at};
use formats::{is_color, is_depth_stencil, remove_srgb_suffix};
use session::derived::is_none;
use session::header::{
    PASS_OFFSET, TEXTURE_OFFSET, VIEW_OFFSET, color_bytes, flags, max_colors, max_multiview,
    pass_count, texture_count, view_count,
};
use session::surfaces::{is_part, surfaces_in};
use session::{PassRow, pass_start, texture_inside, view_inside, view_start};

// The numbers of samples that a texture may have, each by its bit: 1, 2, 4, 8 and 16.
const SAMPLES: u32 = 0x1_0116;

// Whether n is one of the numbers from low to high.
fn between(low: u32, high: u32, n: u32) -> bool
    ensures { result ≡ Re.between low high n }
{
    (low <= n) & (n <= high)
}

// 1: the header is there, and the total length is the file's.
fn length_valid(s: &[u8]) -> bool
    ensures { result ≡ Re.length_valid s.now }
{
    (HEADER_BYTES <= s.len()) & (u32_at(s, TOTAL_LENGTH_AT) as usize == s.len())
}

// Where the pass rows end.
fn pass_end(s: &[u8]) -> usize
    ensures { result ≡ Se.pass_end s.now }
{
    pass_start(s) + PASS_BYTES * (pass_count(s) as usize)
}

// 2: every other field of the header.
fn header_valid(s: &[u8]) -> bool
    ensures { result ≡ Re.header_valid s.now }
{
    (texture_count(s) <= MAX_TEXTURES)
        & (u32_at(s, TEXTURE_OFFSET) as usize == HEADER_BYTES)
        & (view_count(s) <= MAX_VIEWS)
        & (u32_at(s, VIEW_OFFSET) as usize == view_start(s))
        & (pass_count(s) <= MAX_PASSES)
        & (u32_at(s, PASS_OFFSET) as usize == pass_start(s))
        & between(1, MAX_SLOTS, max_colors(s))
        & (max_multiview(s) <= MAX_MULTIVIEWS)
        & (flags(s) <= MAX_FLAGS)
        & between(1, MAX_COLOR_BYTES, color_bytes(s))
        & (pass_end(s) == u32_at(s, TOTAL_LENGTH_AT) as usize)
}

// Whether a texture may have n samples.
fn samples_valid(n: u32) -> bool
    ensures { result ≡ Re.samples_valid n }
{
    has_bit(SAMPLES, n)
}

// Whether a texture may have the format and the dimension. A depth-stencil format needs dimension 2.
fn format_valid(format: u32, dimension: u32) -> bool
    ensures { result ≡ format_valid format dimension }
{
    if is_color(format) {
        return between(1, 3, dimension);
    }
    is_depth_stencil(format) & (dimension == 2)
}

// Whether a texture row can be read.
fn texture_valid(t: Texture) -> bool
    ensures { result ≡ Re.texture_valid t }
{
    if !format_valid(t.format, t.dimension) {
        return false;
    }
    between(1, MAX_SIZE, t.width)
        & between(1, MAX_SIZE, t.height)
        & between(1, MAX_LAYERS, t.depth)
        & between(1, MAX_MIPS, t.mips)
        & samples_valid(t.samples)
        & (t.usage <= MAX_USAGE)
}

// 3: every texture row, all of which lie inside, and the number of surfaces. A row is read once, for its tests and for its surfaces.
fn textures_valid(s: &[u8], n: u32) -> bool
    requires { (n ≡ (session s.now).texture_count) × RowsInside n s.now }
    ensures { result ≡ Re.textures_valid (session s.now) }
{
    let mut sum = 0u64;
    for k in 0..n {
        let t = texture_inside(s, k);
        if !texture_valid(t) {
            return false;
        }
        sum += surfaces_in(t);
    }
    sum <= MAX_SURFACES as u64
}

// Whether the usage bits of a are among those of b.
fn usage_among(a: u32, b: u32) -> bool
    ensures { result ≡ Re.usage_among a b }
{
    (a <= MAX_USAGE) & (a & b == a)
}

// W3C "texture view format compatible": whether a view may show a texture of format t in format v. Most have the same.
fn format_fits(v: u32, t: u32) -> bool
    ensures { result ≡ Re.format_fits v t }
{
    if v == t {
        return true;
    }
    remove_srgb_suffix(v) == remove_srgb_suffix(t)
}

// The layers of a texture that a view of dimension v may have: none where the dimension does not go with the texture's.
fn layers_for(v: u32, t: Texture) -> u32
    ensures { result ≡ layers_for v t }
{
    if between(2, 5, v) & (t.dimension == 2) {
        return t.depth;
    }
    if (v == 1) & (t.dimension == 1) {
        return t.depth;
    }
    if (v == 6) & (t.dimension == 3) {
        return 1;
    }
    0
}

// W3C "texture view creation": whether a view's ranges are non-empty and inside the texture, and its other fields fit.
fn view_in_texture(t: Texture, v: View) -> bool
    ensures { result ≡ Re.view_in_texture t v }
{
    if !is_part(v.mip, v.mips, t.mips) {
        return false;
    }
    if !is_part(v.layer, v.layers, layers_for(v.dimension, t)) {
        return false;
    }
    if !usage_among(v.usage, t.usage) {
        return false;
    }
    if v.resolvable > 1 {
        return false;
    }
    format_fits(v.format, t.format)
}

// Whether a view row can be read, where so many texture rows lie inside.
fn view_valid(s: &[u8], textures: u32, v: View) -> bool
    requires { (textures ≡ (session s.now).texture_count) × RowsInside textures s.now }
    ensures { result ≡ Re.view_valid (session s.now) v }
{
    if v.texture >= textures {
        return false;
    }
    view_in_texture(texture_inside(s, v.texture), v)
}

// 4: whether each of the first n view rows, which lie inside, can be read. The last is read first. Out of line, since in line it took two
// instructions more for each view, 4 in 100 of a session's reading.
#[inline(never)]
fn first_views_valid(s: &[u8], textures: u32, n: u32) -> bool
    requires { (textures ≡ (session s.now).texture_count) × ViewsInside textures n s.now }
    ensures { result ≡ Re.first_views_valid (session s.now) n }
{
    for k in (0..n).rev() {
        if !view_valid(s, textures, view_inside(s, textures, k)) {
            return false;
        }
    }
    true
}

// Whether the session can be read: 1 to 4. A table is read only where the header is valid, so the time is bounded.
fn session_reads(s: &[u8]) -> Result<(), Refusal>
    ensures { number_in result ≡ Re.session_refusal s.now }
{
    if !length_valid(s) {
        return Err(Refusal::WrongLength);
    }
    if !header_valid(s) {
        return Err(Refusal::InvalidHeader);
    }
    let textures = texture_count(s);
    if !textures_valid(s, textures) {
        return Err(Refusal::InvalidTexture);
    }
    if !first_views_valid(s, textures, view_count(s)) {
        return Err(Refusal::InvalidView);
    }
    Ok(())
}

// A session that can be read.
#[derive(Clone, Copy)]
pub struct ReadableSession<'a> {
    pub bytes: &'a [u8],
    ghost readable: { Re.session_refusal bytes.now ≡ 0 },
}

// The session, where it can be read, or its refusal, 1 to 4. In line, the two need not go through memory.
#[inline(always)]
pub fn validate_session(s: &[u8]) -> Result<ReadableSession<'_>, Refusal>
    ensures number { number_in result ≡ Re.session_refusal s.now }
    ensures same { IfOk result (λ session. session.bytes.now ≡ s.now) }
{
    session_reads(s)?;
    Ok(ReadableSession { bytes: s })
}

// Whether a channel's fields have such values.
fn channel_reads(c: Channel) -> bool
    ensures { result ≡ Re.channel_reads c }
{
    (c.load <= 3) & (c.store <= 2) & (c.readonly <= 1) & (c.given <= 1)
}

// Whether the depth-stencil part of a pass row can be read. The rest of an empty part is not examined.
fn depth_stencil_reads(pass: &PassRow) -> bool
    ensures { result ≡ Re.depth_stencil_reads (session_in pass.now) (pass_in pass.now) }
{
    let v = pass.depth_stencil();
    if is_none(v) {
        return true;
    }
    (v < view_count(pass.session)) & channel_reads(pass.depth()) & channel_reads(pass.stencil())
}

// Whether a slot's resolve view is none, or a view's number.
fn resolve_reads(s: &[u8], v: u32) -> bool
    ensures { result ≡ Re.resolve_reads (session s.now) v }
{
    is_none(v) | (v < view_count(s))
}

// Whether a colour slot can be read. The rest of an empty slot is not examined.
fn slot_reads(s: &[u8], c: Slot) -> bool
    ensures { result ≡ Re.slot_reads (session s.now) c }
{
    is_none(c.view)
        | (c.view < view_count(s))
            & (c.sliced <= 1)
            & resolve_reads(s, c.resolve)
            & (c.load <= 2)
            & (c.store <= 1)
}

// Whether each of the first n slots of a pass row can be read.
fn slots_read(pass: &PassRow, n: u32) -> bool
    ensures { result ≡ Re.slots_read (session_in pass.now) (pass_in pass.now) n }
{
    let mut all = true;
    for k in 0..n {
        all = all & slot_reads(pass.session, pass.slot_without_clear(k));
    }
    all
}

// 5: whether a pass row can be read. Slots from the colour count on are not examined.
pub fn pass_valid(pass: &PassRow) -> bool
    ensures { result ≡ Re.pass_valid (session_in pass.now) (pass_in pass.now) }
{
    let n = pass.colors();
    if n > MAX_SLOTS {
        return false;
    }
    (pass.ends() <= 1) & depth_stencil_reads(pass) & slots_read(pass, n)
}
