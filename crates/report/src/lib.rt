// What `deskcheck` prints for a file, written to the front of a buffer of `PRINTED_BYTES` bytes: a line a pass.
// In `text` numbers and lines as bytes, in `file` what is held of a file, in `oversize` the refusal of one that is longer than any session.
#![tactic(auto)]

mod file;
mod oversize;
mod text;

ghost use Rattle.std.specs.Prelude.{◌≡◌, List, ℕ, ◌+◌, ◌*◌, ◌≤◌, length, take};
ghost use Rattle.definition.specs.Refusals.{number_of};
ghost use Rattle.definition.specs.Program.{deskcheck};
ghost use Rattle.report.specs.Text.{line_bytes, lines_text, printed_bytes, refusal_text, refusal_bytes};
ghost use Rattle.report.specs.Appended.{Appended};
ghost use Rattle.report.specs.Output.{output};
ghost use Rattle.report.specs.Held.{Holds, held_text};
ghost use Rattle.report.specs.Printed.{Printed};

use definition::refusals::Refusal;
use definition::sizes::{LONGEST_SESSION, MAX_PASSES};
pub use file::File;
use oversize::oversize_refusal;
pub use oversize::past_length_field;
use session_validation::{ReadableSession, validate_session};
use text::{LINE_BYTES, Text};
use whole_session::Walk;

// Bytes that the text for every file fits in.
pub const PRINTED_BYTES: usize = LINE_BYTES * (MAX_PASSES as usize);

// The lines of a session: each pass is judged, and its line is written.
fn push_lines(s: ReadableSession<'_>, text: &mut Text<'_>)
    requires room { text.old.end + printed_bytes ≤ length text.old.buffer.now }
    ensures appended { Appended text.old (lines_text (deskcheck s.entry.bytes.now)) text.new }
    ensures a_line_each { text.new.end ≤ text.old.end + printed_bytes }
{
    for row in Walk::new(s) {
        text.push_line(&row);
    }
}

// The lines of a session, at the front.
fn print_lines(session: ReadableSession<'_>, out: &mut [u8]) -> usize
    requires { printed_bytes ≤ length out.old }
    ensures { Printed out.old (output session.entry.bytes.now) out.new result }
{
    let mut text = Text {
        buffer: out,
        end: 0,
    };
    push_lines(session, &mut text);
    text.end
}

// The line of a refused session.
fn print_refusal(refusal: Refusal, out: &mut [u8]) -> usize
    requires { printed_bytes ≤ length out.old }
    ensures printed { Printed out.old (refusal_text (number_of refusal)) out.new result }
    ensures short { result ≤ refusal_bytes }
{
    let mut text = Text {
        buffer: out,
        end: 0,
    };
    text.push_refusal(refusal.number());
    text.end
}

// A file that the caller holds whole.
fn print_session(session: &[u8], out: &mut [u8]) -> usize
    requires { printed_bytes ≤ length out.old }
    ensures { Printed out.old (output session.now) out.new result }
{
    match validate_session(session) {
        Ok(readable) => print_lines(readable, out),
        Err(refusal) => print_refusal(refusal, out),
    }
}

// The text for what is held of a file. It is told from that alone; of every file that it is of, it is the definition's.
pub fn print_file(file: File<'_>, out: &mut [u8]) -> usize
    requires { printed_bytes ≤ length out.old }
    ensures printed { let held = file.entry in
        Printed out.old (held_text held.head.now held.bytes) out.new result }
    ensures defined { let held = file.entry in
        (whole : List ℕ) → Holds held.head.now held.bytes whole → take result out.new ≡ output whole }
{
    if file.head.len() <= LONGEST_SESSION {
        return print_session(file.head, out);
    }
    print_refusal(oversize_refusal(file.head, file.bytes), out)
}
