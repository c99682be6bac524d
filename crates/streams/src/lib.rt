// Standard input and output, for programs: a file is read to its end, what was made of it is written. Every input has an
// answer: what is longer than any session is counted to its end. Where reading or writing fails, a line on standard error says so.
//
// What stands in a reader, and what a writer holds, the contracts say where that is known (`R.remaining`, `W.contents`). Of standard input
// and output it is not: there it remains to be believed that a read gives the input's next bytes and a write puts out those that it is given.
#![tactic(auto)]

ghost use Rattle.std.specs.Prelude.{◌≡◌, ℕ, List, ◌+◌, ◌≤◌, ◌<◌, length, take, drop, MatchResult, IfOk, IfSome, OnOk, OnErr};
ghost use Rattle.std.specs.Io.KnownBytes.{Appends, Consumes, IsAtEnd, Keeps};
ghost use Rattle.std.specs.Process.{exit_status};
ghost use Rattle.definition.specs.Sizes.{longest_session};
ghost use Rattle.report.specs.Oversize.{length_bound};
ghost use Rattle.report.specs.Held.{Enough, Holds};

use report::past_length_field;
use std::io;
use std::io::{Eprint, Print, Read, Write};
use std::process::ExitCode;

// Bytes of a buffer that is longer than any session.
pub const BUFFER_BYTES: usize = 65536;

// What was read: a buffer holds the first `held` bytes of an input of `bytes` bytes.
#[derive(Clone, Copy)]
pub struct File {
    pub held: usize,
    pub bytes: u64,
}

// One read, into the bytes from a place on. 0 bytes are the end of the input.
fn read_from<R: Read>(input: &mut R, buf: &mut [u8], at: usize) -> io::Result<usize>
    requires { at ≤ length buf.old }
    ensures front { take at buf.new ≡ take at buf.old }
    ensures fits { IfOk result (λ n. at + n ≤ length buf.new) }
    ensures ok { IfOk result (λ n.
        Consumes (R.remaining input.old) (R.remaining input.new) (take n (drop at buf.new))) }
    ensures end { IfOk result (λ n.
        n ≡ 0 → at < length buf.new → IsAtEnd (R.remaining input.new)) }
    ensures err { OnErr result (Keeps (R.remaining input.old) (R.remaining input.new)) }
{
    input.read(&mut buf[at..])
}

// Reads until the buffer is full or the input ends. The library's readers fill exactly, or a vector of the heap.
pub fn read_head<R: Read>(input: &mut R, buf: &mut [u8]) -> io::Result<usize>
    ensures fits { IfOk result (λ n. n ≤ length buf.new) }
    ensures ok { IfOk result (λ n.
        Consumes (R.remaining input.old) (R.remaining input.new) (take n buf.new)) }
    ensures end { IfOk result (λ n. n < length buf.new → IsAtEnd (R.remaining input.new)) }
    // What was read before the failure.
    ensures err { OnErr result ((n : ℕ) × (n ≤ length buf.new)
        × Consumes (R.remaining input.old) (R.remaining input.new) (take n buf.new)) }
{
    let mut at: usize = 0;
    while at < buf.len() {
        let more = read_from(input, buf, at)?;
        if more == 0 {
            return Ok(at);
        }
        at += more;
    }
    Ok(at)
}

// Reads on from so many bytes, to the end of the input or to a length that no length field has.
// The library's `copy` does not say what was read before a failure.
fn read_rest<R: Read>(input: &mut R, from: u64) -> io::Result<u64>
    ensures grows { IfOk result (λ n. from ≤ n) }
    ensures ok { IfOk result (λ n. (bs : List ℕ) × (n ≡ from + length bs)
        × Consumes (R.remaining input.old) (R.remaining input.new) bs) }
    ensures end { IfOk result (λ n. n < length_bound → IsAtEnd (R.remaining input.new)) }
    ensures err { OnErr result ((bs : List ℕ) × Consumes (R.remaining input.old) (R.remaining input.new) bs) }
{
    let mut bytes = from;
    let mut space = [0u8; BUFFER_BYTES];
    while !past_length_field(bytes) {
        let more = input.read(&mut space)?;
        if more == 0 {
            return Ok(bytes);
        }
        bytes += more as u64;
    }
    Ok(bytes)
}

// Reads the input: the whole of it into the buffer, or as much as the buffer holds, and the rest is counted.
pub fn read_file<R: Read>(input: &mut R, buf: &mut [u8]) -> io::Result<File>
    requires { longest_session < length buf.old }
    ensures ok { IfOk result (λ file. (file.held ≤ length buf.new) × Enough file.held file.bytes) }
    ensures known { IfOk result (λ file. IfSome (R.remaining input.old) (λ xs.
        Holds (take file.held buf.new) file.bytes xs)) }
    ensures err { OnErr result ((bs : List ℕ) × Consumes (R.remaining input.old) (R.remaining input.new) bs) }
{
    let held = read_head(input, buf)?;
    if held < buf.len() {
        return Ok(File {
            held: held,
            bytes: held as u64,
        });
    }
    let bytes = read_rest(input, held as u64)?;
    Ok(File {
        held: held,
        bytes: bytes,
    })
}

// Reads the input, and lends what the buffer holds of it.
pub fn hold_file<'a, R: Read>(input: &mut R, buf: &'a mut [u8]) -> io::Result<report::File<'a>>
    requires { longest_session < length buf.old }
    ensures fits { IfOk result (λ file. length file.head.now ≤ length buf.old) }
    ensures known { IfOk result (λ file. IfSome (R.remaining input.old) (λ xs.
        Holds file.head.now file.bytes xs)) }
    ensures err { OnErr result ((bs : List ℕ) × Consumes (R.remaining input.old) (R.remaining input.new) bs) }
{
    let file = read_file(input, buf)?;
    Ok(report::File {
        head: &buf[..file.held],
        bytes: file.bytes,
    })
}

// Writes all bytes. The library's `write_all` does not say what was written before a failure.
pub fn write_bytes<W: Write>(output: &mut W, bytes: &[u8]) -> io::Result<()>
    ensures ok { OnOk result (Appends (W.contents output.old) (W.contents output.new) bytes.now) }
    // What was written before the failure.
    ensures err { OnErr result ((k : ℕ) × (k ≤ length bytes.now)
        × Appends (W.contents output.old) (W.contents output.new) (take k bytes.now)) }
{
    let mut done: usize = 0;
    while done < bytes.len() {
        let more = output.write(&bytes[done..])?;
        if more == 0 {
            return Err(io::Error::from(io::ErrorKind::WriteZero));
        }
        done += more;
    }
    Ok(())
}

// Says on standard error which stream failed, and why: the status of a program that fails.
fn fail<R: Eprint>(rt: &R, stream: &str, error: io::Error) -> ExitCode
    ensures { exit_status result ≡ 1 }
{
    let _ = eprintln!(rt; "{stream}: {error}");
    ExitCode::FAILURE
}

// The status of a program that has written: 0, or 1 where it failed.
fn status<R: Eprint>(rt: &R, written: io::Result<()>) -> ExitCode
    ensures { MatchResult written (λ _. exit_status result ≡ 0) (λ _. exit_status result ≡ 1) }
{
    match written {
        Ok(()) => ExitCode::SUCCESS,
        Err(error) => fail(rt, "standard output", error),
    }
}

// Writes a text to standard output, unless a read failed: the status of the program.
pub fn write_text<R: Print + Eprint>(rt: &R, text: io::Result<&[u8]>) -> ExitCode
    ensures failed { OnErr text.entry (exit_status result ≡ 1) }
    ensures zero_or_one { exit_status result ≤ 1 }
{
    match text {
        Ok(bytes) => status(rt, write_bytes(&mut io::writer(rt), bytes)),
        Err(error) => fail(rt, "standard input", error),
    }
}
