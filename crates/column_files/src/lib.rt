// Session files whose pass part is stored by columns, and back: what the programs `to_columns` and `to_rows` write for a file.
// A refused session gets the line that `deskcheck` prints.
#![tactic(auto)]

ghost use Rattle.std.specs.Prelude.{◌≡◌, true, false, List, ℕ, ◌≤◌, length, take, MatchResult, IfOk, IfSome};
ghost use Rattle.definition.specs.Sizes.{longest_session};
ghost use Rattle.report.specs.Held.{Holds};
ghost use Rattle.report.specs.Printed.{Printed};
ghost use Rattle.streams.specs.Answered.{Answered};
ghost use Rattle.column_files.specs.Files.{rearranged, written, held_written};

use columns::{Way, rearrange};
use report::{File, print_file};
use session::header::pass_count;
use session::pass_start;
use session_validation::{ReadableSession, validate_session};
use std::io;
use std::io::Read;
use streams::{BUFFER_BYTES, hold_file};

// A session, rearranged: its length.
#[tactic(auto, using(crate::proofs::Theorem::start_inside, crate::proofs::Written::session_fits))]
fn put_rearranged(way: Way, session: ReadableSession<'_>, out: &mut [u8]) -> usize
    requires { longest_session ≤ length out.old }
    ensures { Printed out.old (rearranged way session.entry.bytes.now) out.new result }
{
    let s = session.bytes;
    let start = pass_start(s);
    let (front, passes) = s.split_at(start);
    out[..start].copy_from_slice(front);
    // A readable session is not refused.
    let _ = rearrange(way, pass_count(s), passes, &mut out[start..]);
    s.len()
}

// What is written for a file, by what is held of it.
pub fn write_file(way: Way, file: File<'_>, out: &mut [u8]) -> usize
    requires { longest_session ≤ length out.old }
    ensures printed { let held = file.entry in
        Printed out.old (held_written way held.head.now held.bytes) out.new result }
    ensures defined { let held = file.entry in
        (whole : List ℕ) → Holds held.head.now held.bytes whole → take result out.new ≡ written way whole }
{
    match validate_session(file.head) {
        Ok(session) => put_rearranged(way, session, out),
        Err(_) => print_file(file, out),
    }
}

// What is to be written for the input: its length. Where reading failed there is nothing.
// `deskcheck` has the same three lines: shared, they would have each program's contract at a closure too, and be no shorter.
pub fn answer<R: Read>(way: Way, input: &mut R, out: &mut [u8]) -> io::Result<usize>
    requires { longest_session ≤ length out.old }
    ensures answered { MatchResult result
        (λ n. Answered (held_written way) (written way) out.old out.new n false)
        (λ _. Answered (held_written way) (written way) out.old out.new 0 true) }
    // Where it is known what the input is, it is the definition's.
    ensures known { IfOk result (λ n. IfSome (R.remaining input.old) (λ file.
        take n out.new ≡ written way file)) }
{
    let mut buffer = [0u8; BUFFER_BYTES];
    let file = hold_file(input, &mut buffer)?;
    Ok(write_file(way, file, out))
}
