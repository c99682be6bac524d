// `deskcheck`: reads a session from standard input and prints its lines, or its refusal, to standard output.
// All between reading and writing (`streams`) is proved.
#![tactic(auto)]

ghost use Rattle.std.specs.Prelude.{◌≡◌, true, false, ◌≤◌, length, take, MatchResult, IfOk, IfSome};
ghost use Rattle.report.specs.Text.{printed_bytes};
ghost use Rattle.report.specs.Output.{output};
ghost use Rattle.report.specs.Held.{held_text};
ghost use Rattle.streams.specs.Answered.{Answered};

use report::{PRINTED_BYTES, print_file};
use std::io;
use std::io::Read;
use std::process::ExitCode;
use streams::{BUFFER_BYTES, hold_file, write_text};

// The text for the input: its length. Where reading failed there is none.
fn answer<R: Read>(input: &mut R, out: &mut [u8]) -> io::Result<usize>
    requires { printed_bytes ≤ length out.old }
    ensures answered { MatchResult result
        (λ n. Answered held_text output out.old out.new n false)
        (λ _. Answered held_text output out.old out.new 0 true) }
    // Where it is known what the input is, the text is the definition's.
    ensures known { IfOk result (λ n. IfSome (R.remaining input.old) (λ file.
        take n out.new ≡ output file)) }
{
    let mut buffer = [0u8; BUFFER_BYTES];
    let file = hold_file(input, &mut buffer)?;
    Ok(print_file(file, out))
}

// Reads standard input, and prints what the definition says of it.
fn main(rt: HostRuntime) -> ExitCode {
    let mut out = [0u8; PRINTED_BYTES];
    let text = answer(&mut rt.stdin(), &mut out);
    write_text(&rt, text.map(|n| &out[..n]))
}
