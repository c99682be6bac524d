// Little-endian numbers and floats, read from bytes, and numbers written into them. Every position has an answer: past the
// end a byte reads as 0, and a number that does not fit whole is not written. Of the public functions only those whose names
// end in `inside` have a `requires`: who knows that the bytes lie inside reads or writes them untested. What reads across the end is kept out of
// line, so that a reader in line is short.
#![tactic(auto)]

ghost use Rattle.std.specs.Prelude.{◌≡◌, ◌+◌, ◌*◌, ◌^◌, ◌≤◌, ◌<◌, length, get_or, drop};
ghost use Rattle.std.specs.Int.{w32, to_le_bytes};
ghost use Rattle.std.proofs.lemmas.List.Edits.{sets};
ghost use Rattle.std.specs.Float.{binary32, binary64};
ghost use Rattle.std.specs.Float.Ieee.{to_bits};
ghost use Rattle.definition.specs.Bytes.{u32_at, f32_of_bits, f64_of_bits, bit};
ghost use Rattle.encoding.specs.Reading.{eight_at};
ghost use Rattle.encoding.specs.Writing.{put_number};

// Eight u32 that stand in a row. (Fields and no array: who reads a row takes each number by its place, and an array of them would be filled by a
// closure over the places, which is no plainer.)
#[derive(Clone, Copy)]
pub struct Eight {
    pub n0: u32,
    pub n1: u32,
    pub n2: u32,
    pub n3: u32,
    pub n4: u32,
    pub n5: u32,
    pub n6: u32,
    pub n7: u32,
}

// The byte at a place.
fn byte(s: &[u8], at: usize) -> u8
    ensures { result ≡ get_or s.now at 0 }
{
    s.get(at).copied().unwrap_or(0)
}

// The bytes from a place on.
fn rest(s: &[u8], at: usize) -> &[u8]
    ensures { result.now ≡ drop at s.now }
{
    s.get(at..).unwrap_or(&[])
}

// Four bytes, each tested by itself.
#[cold]
#[inline(never)]
fn u32_across_end(s: &[u8], at: usize) -> u32
    ensures { result ≡ u32_at s.now at }
{
    let rest = rest(s, at);
    u32::from_le_bytes([byte(rest, 0), byte(rest, 1), byte(rest, 2), byte(rest, 3)])
}

// Four bytes that lie inside, the lowest first.
#[tactic(auto, unfolding(definition::specs::Bytes::u32_at))]
pub fn u32_inside(s: &[u8], at: usize) -> u32
    requires { at + 4 ≤ length s.now }
    ensures { result ≡ u32_at s.now at }
{
    u32::from_le_bytes([s[at], s[at + 1], s[at + 2], s[at + 3]])
}

// Four bytes, the lowest first. One test of the length serves all four where they lie inside.
pub fn u32_at(s: &[u8], at: usize) -> u32
    ensures { result ≡ u32_at s.now at }
{
    let n = s.len();
    if n >= 4 && at <= n - 4 {
        u32_inside(s, at)
    } else {
        u32_across_end(s, at)
    }
}

// Eight u32, each tested by itself. At or past the end one test serves all of them.
#[cold]
#[inline(never)]
fn eight_across_end(s: &[u8], at: usize) -> Eight
    ensures { result ≡ eight_at s.now at }
{
    if at >= s.len() {
        return Eight {
            n0: 0,
            n1: 0,
            n2: 0,
            n3: 0,
            n4: 0,
            n5: 0,
            n6: 0,
            n7: 0,
        };
    }
    let rest = rest(s, at);
    Eight {
        n0: u32_at(rest, 0),
        n1: u32_at(rest, 4),
        n2: u32_at(rest, 8),
        n3: u32_at(rest, 12),
        n4: u32_at(rest, 16),
        n5: u32_at(rest, 20),
        n6: u32_at(rest, 24),
        n7: u32_at(rest, 28),
    }
}

// Eight u32 that lie inside.
pub fn eight_inside(s: &[u8], at: usize) -> Eight
    requires { at + 32 ≤ length s.now }
    ensures { result ≡ eight_at s.now at }
{
    Eight {
        n0: u32_inside(s, at),
        n1: u32_inside(s, at + 4),
        n2: u32_inside(s, at + 8),
        n3: u32_inside(s, at + 12),
        n4: u32_inside(s, at + 16),
        n5: u32_inside(s, at + 20),
        n6: u32_inside(s, at + 24),
        n7: u32_inside(s, at + 28),
    }
}

// Eight u32 in a row. One test of the length serves all of them where they lie inside.
pub fn eight_at(s: &[u8], at: usize) -> Eight
    ensures { result ≡ eight_at s.now at }
{
    let n = s.len();
    if n >= 32 && at <= n - 32 {
        eight_inside(s, at)
    } else {
        eight_across_end(s, at)
    }
}

// Whether bit k of n is set.
#[tactic(auto, using(crate::proofs::Bits::shifted_all))]
pub fn has_bit(n: u32, k: u32) -> bool
    ensures { result ≡ bit n k }
{
    n.unbounded_shr(k) % 2 == 1
}

// The f32 of a pattern. Every NaN's pattern gives the one NaN. f32 and f64 stay two functions each way: a trait over both would name every
// constant and conversion again.
pub fn f32_of_bits(n: u32) -> f32
    ensures { result ≡ f32_of_bits n }
{
    let magnitude = n % 0x8000_0000;
    if magnitude > 0x7f80_0000 {
        f32::NAN
    } else {
        f32::from_bits(n)
    }
}

// The same of an f64.
fn f64_of_bits(n: u64) -> f64
    ensures { result ≡ f64_of_bits n }
{
    let magnitude = n % 0x8000_0000_0000_0000;
    if magnitude > 0x7ff0_0000_0000_0000 {
        f64::NAN
    } else {
        f64::from_bits(n)
    }
}

// The pattern of an f32. The NaN has the canonical one.
pub fn bits_of_f32(x: f32) -> u32
    ensures { result ≡ to_bits binary32 x }
{
    if x.is_nan() { 0x7fc0_0000 } else { x.to_bits() }
}

// The same of an f64.
pub fn bits_of_f64(x: f64) -> u64
    ensures { result ≡ to_bits binary64 x }
{
    if x.is_nan() {
        0x7ff8_0000_0000_0000
    } else {
        x.to_bits()
    }
}

// The f64 of a pattern's two halves.
pub fn f64_of_halves(low: u32, high: u32) -> f64
    ensures { result ≡ f64_of_bits (low + 2 ^ 32 * high) }
{
    f64_of_bits(low as u64 + 0x1_0000_0000 * (high as u64))
}

// Writes a u32 whose four bytes lie inside, the lowest first.
pub fn put_u32_inside(s: &mut [u8], at: usize, n: u32)
    requires { at + 4 ≤ length s.old }
    ensures written { s.new ≡ sets s.old at (to_le_bytes w32 n) }
    ensures u32 { n < 2 ^ 32 }
{
    let [b0, b1, b2, b3] = n.to_le_bytes();
    s[at] = b0;
    s[at + 1] = b1;
    s[at + 2] = b2;
    s[at + 3] = b3;
}

// Writes a u32, where its four bytes all lie inside.
pub fn put_u32(s: &mut [u8], at: usize, n: u32)
    ensures { s.new ≡ put_number 4 s.old at n }
{
    let size = s.len();
    if size >= 4 && at <= size - 4 {
        put_u32_inside(s, at, n);
    }
}
