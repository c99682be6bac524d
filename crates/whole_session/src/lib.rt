// The whole session in one walk from fresh lists: every pass is judged, discards and actions are submitted at each buffer's end, and a row of nine
// numbers says of each pass: pass, refusal, place, earlier place, width, height, samples, clears returned, length of the discard list.
// The discards and a count of actions stand for the lists. In `words`: a row's numbers as bytes.
#![tactic(auto)]

pub mod words;

ghost use Rattle.std.specs.Prelude.{◌≡◌, ℕ, List, ◌+◌, ◌-◌, ◌*◌, ◌≤◌, ◌<◌, length, drop};
ghost use Rattle.std.specs.Iterator.{YieldsFirst, item_count};
ghost use Rattle.definition.specs.Sizes.{row_bytes, rows_bytes};
ghost use Rattle.definition.specs.Session.{session};
ghost use Rattle.definition.specs.Program.{ends_buffer, deskcheck};
ghost use Rattle.session.specs.Rows.{pass_in};
ghost use Rattle.whole_session.specs.Rows.{lines_from, rows_in, Reached, Advances, Walks};

use definition::sizes::{DISCARDS_BYTES, ROW_BYTES, ROW_NUMBERS};
use lists::{count, set_count};
use render_pass::summary::summarize;
use session::header::pass_count;
use session::{PassRow, pass_row};
use session_validation::ReadableSession;
use std::marker::Model;
use words::write_numbers;

// The row of a pass, and how many actions there are before the next one.
#[derive(Clone, Copy)]
pub struct Row {
    pub numbers: [u32; ROW_NUMBERS],
    pub actions: usize,
}

// Whether a buffer ends at a pass, number k of so many: by its flag, or as the last.
fn ends_buffer(pass: &PassRow, k: u32, passes: u32) -> bool
    requires { k < passes }
    ensures { result ≡ ends_buffer (pass_in pass.now) (passes - (k + 1)) }
{
    (pass.ends() == 1) | (k + 1 == passes)
}

// The row of pass k of so many of a session; the discards and the actions are then those from which the next pass starts.
pub fn next_row(
    s: ReadableSession<'_>,
    k: u32,
    passes: u32,
    discards: &mut [u8],
    actions: usize,
) -> Row
    requires there { k < passes }
    requires reached { Reached (session s.bytes.now) passes k discards.old actions }
    ensures { Advances (session s.entry.bytes.now) passes k result discards.new }
{
    let pass = pass_row(s.bytes, k);
    let said = summarize(&pass, discards, actions);
    let v = said.verdict;
    let numbers: [u32; ROW_NUMBERS] = [
        k,
        v.number,
        v.place,
        v.earlier,
        said.width,
        said.height,
        said.samples,
        said.clears as u32,
        count(discards) as u32,
    ];
    let mut actions = said.actions;
    if ends_buffer(&pass, k, passes) {
        set_count(discards, 0);
        actions = 0;
    }
    Row { numbers, actions }
}

// A walk over the passes of a readable session, from fresh lists: it gives the row of each.
#[derive(Drop)]
pub struct Walk<'a> {
    session: ReadableSession<'a>,
    passes: u32,

    // The next pass, and the discards and the number of actions that it starts from.
    k: u32,
    discards: [u8; DISCARDS_BYTES],
    actions: usize,
}

impl<'a> Model for Walk<'a> {
    ghost Value = { List (List ℕ) };

    ghost view = { λ w. lines_from w.session.bytes.now w.passes w.k };

    ghost invariant = { λ w. Walks w.session.bytes.now w.passes w.k w.discards w.actions };
}

impl<'a> Walk<'a> {
    // Before the first pass.
    pub fn new(session: ReadableSession<'a>) -> Self
        ensures { result ≡ deskcheck session.entry.bytes.now }
    {
        Walk {
            session,
            passes: pass_count(session.bytes),
            k: 0,
            discards: [0; DISCARDS_BYTES],
            actions: 0,
        }
    }
}

impl<'a> Iterator for Walk<'a> {
    type Item = [u32; ROW_NUMBERS];

    ghost next_gives = { YieldsFirst (λ w. w) };

    ghost remaining = { item_count (λ w. w) };

    fn next(&mut self) -> Option<[u32; ROW_NUMBERS]> {
        let k = self.k;
        if k >= self.passes {
            return None;
        }
        let row = next_row(
            self.session,
            k,
            self.passes,
            &mut self.discards,
            self.actions,
        );
        self.actions = row.actions;
        self.k = k + 1;
        Some(row.numbers)
    }
}

// The rows of a readable session as bytes; the bytes past them stay.
pub fn session_rows(s: ReadableSession<'_>, rows: &mut [u8])
    requires { rows_bytes ≤ length rows.old }
    ensures written { let b = s.entry.bytes.now in
        rows_in rows.new (session b).pass_count ≡ deskcheck b }
    ensures behind { let end = row_bytes * (session s.entry.bytes.now).pass_count in
        drop end rows.new ≡ drop end rows.old }
{
    let mut at: usize = 0;
    for row in Walk::new(s) {
        write_numbers(rows, at, &row);
        at += ROW_BYTES;
    }
}
