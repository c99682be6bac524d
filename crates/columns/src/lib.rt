// Pass rows stored by columns, for a file server that wants like bytes side by side: the pass part of a session rearranged, the
// way back, and the caller's own part that holds one column. No public function has a `requires`.
#![tactic(auto)]

ghost use Rattle.std.specs.Prelude.{◌≡◌, ◌++◌, ◌+◌, ◌*◌, ◌≤◌, length, get_or, take, drop};
ghost use Rattle.definition.specs.Sizes.{pass_bytes};
ghost use Rattle.definition.specs.Refusals.{number_in};
ghost use Rattle.columns.specs.Columns as C;
ghost use Rattle.columns.specs.Promise.{Rearranged};
ghost use Rattle.columns.specs.declared.Way.TheVariants as To;

use definition::refusals::Refusal;
use definition::sizes::{MAX_PASSES, PASS_BYTES};

// What the pass part is rearranged to.
#[derive(Clone, Copy)]
pub enum Way {
    Columns,
    Rows,
}

// Where a column stands in the caller's columns, and how many bytes it has. `number` is 0, or 2; then there are none.
// Not an Option: C reads the three fields (`deskcheck_column`).
#[repr(C)]
#[derive(Clone, Copy)]
pub struct ColumnPlace {
    pub number: u32,
    pub first: usize,
    pub bytes: usize,
}

impl Way {
    // The rows that are read and the bytes of each: a row a pass, or a row a column.
    fn shape(self, n: usize) -> (usize, usize)
        ensures { result ≡ (C.rows_of self n, C.row_bytes_of self n) }
    {
        match self {
            Way::Columns => (n, PASS_BYTES),
            Way::Rows => (PASS_BYTES, n),
        }
    }
}

// A byte; past the end 0.
fn byte_at(s: &[u8], at: usize) -> u8
    ensures { result ≡ get_or s.now at 0 }
{
    s.get(at).copied().unwrap_or(0)
}

// Byte j of each of as many rows of c bytes as the column has bytes.
fn put_column(src: &[u8], c: usize, j: usize, column: &mut [u8])
    requires { (c ≤ pass_bytes) × (j ≤ pass_bytes) × (length column.old ≤ pass_bytes) }
    ensures { column.new ≡ C.column c src.now j (length column.old) }
{
    for i in 0..column.len() {
        column[i] = byte_at(src, c * i + j);
    }
}

// r rows of c bytes, column by column, at the front of the target.
fn transpose(src: &[u8], r: usize, c: usize, out: &mut [u8])
    requires room { r * c ≤ length out.old }
    requires few { (r ≤ pass_bytes) × (c ≤ pass_bytes) }
    ensures { out.new ≡ C.transposed r c src.now ++ drop (r * c) out.old }
{
    for j in 0..c {
        put_column(src, c, j, &mut out[r * j..r * j + r]);
    }
}

// Whether so many bytes are the rows of so many passes, at most 100.
#[tactic(auto, unfolding(crate::specs::Columns::is_part))]
fn is_part(passes: u32, bytes: usize) -> bool
    ensures { result ≡ C.is_part passes bytes }
{
    (passes <= MAX_PASSES) & (bytes == PASS_BYTES * (passes as usize))
}

// 2 for the pass count or the length, then 6 for a target that is too short.
#[tactic(auto, unfolding(crate::specs::Columns::rearrange_number))]
fn check_lengths(passes: u32, bytes: usize, room: usize) -> Result<(), Refusal>
    ensures { number_in result ≡ C.rearrange_number passes bytes room }
{
    if !is_part(passes, bytes) {
        return Err(Refusal::InvalidHeader);
    }
    if room < bytes {
        return Err(Refusal::InvalidLent);
    }
    Ok(())
}

// The pass part either way.
pub fn rearrange(way: Way, passes: u32, part: &[u8], target: &mut [u8]) -> Result<(), Refusal>
    ensures { Rearranged way passes part.now target.old (number_in result) target.new }
{
    check_lengths(passes, part.len(), target.len())?;
    let (rows, row_bytes) = way.shape(passes as usize);
    transpose(part, rows, row_bytes, target);
    Ok(())
}

// What C reads: 0, or the number of the refusal.
fn number(answer: Result<(), Refusal>) -> u32
    ensures { result ≡ number_in answer }
{
    match answer {
        Ok(()) => 0,
        Err(refusal) => refusal.number(),
    }
}

// The pass part by columns: 0, or 2 for the pass count or the length, then 6 for a target that is too short. The bytes of the
// target past them stay; a refusal leaves every byte.
pub fn deskcheck_columns(passes: u32, rows: &[u8], columns: &mut [u8]) -> u32
    ensures { Rearranged To.Columns passes rows.now columns.old result columns.new }
{
    number(rearrange(Way::Columns, passes, rows, columns))
}

// The way back.
pub fn deskcheck_rows(passes: u32, columns: &[u8], rows: &mut [u8]) -> u32
    ensures { Rearranged To.Rows passes columns.now rows.old result rows.new }
{
    number(rearrange(Way::Rows, passes, columns, rows))
}

// Whether so many bytes are the columns of so many passes, and j is one of the 504.
#[tactic(auto, unfolding(crate::specs::Columns::has_column))]
fn has_column(passes: u32, bytes: usize, j: u32) -> bool
    ensures { result ≡ C.has_column passes bytes j }
{
    is_part(passes, bytes) & ((j as usize) < PASS_BYTES)
}

// Where column j of so many passes stands, or 2. Refused or not, it is a part of the columns.
#[tactic(auto, using(crate::proofs::Refusals::placed, crate::proofs::Refusals::not_placed, crate::proofs::Refusals::column_inside))]
pub fn deskcheck_column(passes: u32, columns: &[u8], j: u32) -> ColumnPlace
    ensures place { result ≡ C.column_place passes (length columns.now) j }
    ensures inside { result.first + result.bytes ≤ length columns.now }
{
    if !has_column(passes, columns.len(), j) {
        return ColumnPlace {
            number: Refusal::InvalidHeader.number(),
            first: 0,
            bytes: 0,
        };
    }
    let n = passes as usize;
    ColumnPlace {
        number: 0,
        first: n * (j as usize),
        bytes: n,
    }
}

// The caller's own part that holds column j: byte j of all passes. Empty where it is refused, which `deskcheck_column` tells.
pub fn column(passes: u32, columns: &[u8], j: u32) -> &[u8]
    ensures { result.now ≡ C.column_part passes columns.now j }
{
    let place = deskcheck_column(passes, columns, j);
    let first = place.first;
    let end = first + place.bytes;
    &columns[first..end]
}
