// The pass part by columns, for callers in C: what the library `columns` exports, each function with its contract there.
#![tactic(auto)]

ghost use Rattle.std.specs.Prelude.{◌≡◌, ◌+◌, ◌≤◌, length};
ghost use Rattle.columns.specs.Columns as C;
ghost use Rattle.columns.specs.Promise.{Rearranged};
ghost use Rattle.columns.specs.declared.Way.TheVariants as To;

use columns::ColumnPlace;

// The pass part by columns: 0, or 2 for the pass count or the length, then 6 for a target that is too short. The bytes of the
// target past them stay; a refusal leaves every byte.
#[unsafe(no_mangle)]
pub extern "C" fn deskcheck_columns(passes: u32, rows: &[u8], columns: &mut [u8]) -> u32
    ensures { Rearranged To.Columns passes rows.now columns.old result columns.new }
{
    columns::deskcheck_columns(passes, rows, columns)
}

// The way back.
#[unsafe(no_mangle)]
pub extern "C" fn deskcheck_rows(passes: u32, columns: &[u8], rows: &mut [u8]) -> u32
    ensures { Rearranged To.Rows passes columns.now rows.old result rows.new }
{
    columns::deskcheck_rows(passes, columns, rows)
}

// Where column j of so many passes stands, or 2. Refused or not, it is a part of the columns.
#[unsafe(no_mangle)]
pub extern "C" fn deskcheck_column(passes: u32, columns: &[u8], j: u32) -> ColumnPlace
    ensures place { result ≡ C.column_place passes (length columns.now) j }
    ensures inside { result.first + result.bytes ≤ length columns.now }
{
    columns::deskcheck_column(passes, columns, j)
}
