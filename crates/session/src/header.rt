// The fields of a session file's header, by value. No function has a `requires`.
ghost use Rattle.std.specs.Prelude.{◌≡◌};
ghost use Rattle.definition.specs.Session.{session};

use encoding::u32_at;

// Where the header's texture count stands.
pub const TEXTURE_COUNT: usize = 0;

// Where its texture offset stands.
pub const TEXTURE_OFFSET: usize = 4;

// Where its view count stands.
pub const VIEW_COUNT: usize = 8;

// Where its view offset stands.
pub const VIEW_OFFSET: usize = 12;

// Where its pass count stands.
const PASS_COUNT: usize = 16;

// Where its pass offset stands.
pub const PASS_OFFSET: usize = 20;

// Where its maximum of colours stands.
const MAX_COLORS: usize = 24;

// Where its maximum of multiview views stands.
const MAX_MULTIVIEW: usize = 28;

// Where its flags stand.
const FLAGS: usize = 32;

// Where its limit of colour bytes per sample stands.
const COLOR_BYTES: usize = 36;

// The number of texture rows.
pub fn texture_count(s: &[u8]) -> u32
    ensures { result ≡ (session s.now).texture_count }
{
    u32_at(s, TEXTURE_COUNT)
}

// The number of view rows.
pub fn view_count(s: &[u8]) -> u32
    ensures { result ≡ (session s.now).view_count }
{
    u32_at(s, VIEW_COUNT)
}

// The number of pass rows.
pub fn pass_count(s: &[u8]) -> u32
    ensures { result ≡ (session s.now).pass_count }
{
    u32_at(s, PASS_COUNT)
}

// The most colours of a pass.
pub fn max_colors(s: &[u8]) -> u32
    ensures { result ≡ (session s.now).max_colors }
{
    u32_at(s, MAX_COLORS)
}

// The most views of a multiview pass.
pub fn max_multiview(s: &[u8]) -> u32
    ensures { result ≡ (session s.now).max_multiview }
{
    u32_at(s, MAX_MULTIVIEW)
}

// The flags field.
pub fn flags(s: &[u8]) -> u32
    ensures { result ≡ (session s.now).flags }
{
    u32_at(s, FLAGS)
}

// The limit of colour bytes per sample.
pub fn color_bytes(s: &[u8]) -> u32
    ensures { result ≡ (session s.now).color_bytes }
{
    u32_at(s, COLOR_BYTES)
}
