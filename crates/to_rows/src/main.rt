// `to_rows`: reads a session file from standard input and writes it with its pass part rearranged back to rows to standard output.
#![tactic(auto)]

use column_files::answer;
use columns::Way;
use std::process::ExitCode;
use streams::{BUFFER_BYTES, write_text};

// Reads standard input, and writes what the definition says of it.
fn main(rt: HostRuntime) -> ExitCode {
    let mut out = [0u8; BUFFER_BYTES];
    let text = answer(Way::Rows, &mut rt.stdin(), &mut out);
    write_text(&rt, text.map(|n| &out[..n]))
}
