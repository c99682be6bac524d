// Replays a fixed list of sessions with the Rust's answers, read from standard input, and prints how many agree. harness/README.md
// has the list's form: records of a session and the words of its answer.
#![tactic(auto)]

ghost use Rattle.std.specs.Prelude.{◌≡◌, ◌<◌, ◌≤◌, length, IfSome};
ghost use Rattle.definition.specs.Sizes.{max_passes};
ghost use Rattle.replay.specs.Room.{list_bytes};

use answer_words::{WORD_BYTES, numbers, reply, words};
use definition::sizes::{
    ACTIONS_BYTES, CLEARS_BYTES, DISCARDS_BYTES, MAX_PASSES, MAX_SURFACES, ROWS_BYTES,
};
use desk::{deskcheck_pass, deskcheck_session, deskcheck_submit};
use encoding::u32_at;
use session::header::{pass_count, texture_count};
use session::pass_row;
use session::surfaces::surfaces_before;
use std::io;
use streams::read_head;

// What the calls on one session are lent.
#[derive(Drop)]
struct Lent {
    discards: [u8; DISCARDS_BYTES],
    actions: [u8; ACTIONS_BYTES],
    clears: [u8; CLEARS_BYTES],
    status: [u8; MAX_SURFACES],
}

impl Lent {
    // Empty lists, and surfaces that nothing wrote.
    fn fresh() -> Lent {
        Lent {
            discards: [0; DISCARDS_BYTES],
            actions: [0; ACTIONS_BYTES],
            clears: [0; CLEARS_BYTES],
            status: [0; MAX_SURFACES],
        }
    }

    // What is left behind the words of a submission.
    fn submission<'a>(&mut self, session: &[u8], list: &'a [u8]) -> Option<&'a [u8]> {
        let number = deskcheck_submit(
            session,
            &mut self.discards,
            &mut self.actions,
            &self.clears,
            &mut self.status,
        );
        if number != 0 {
            return None;
        }
        let surfaces = surfaces_before(session, texture_count(session)) as u32;
        let counted = words(list, &[1, surfaces])?;
        numbers(
            counted,
            &self.status,
            0,
            surfaces.div_ceil(WORD_BYTES as u32),
        )
    }

    // What is left behind the words of pass k, and behind those of a submission if a buffer ends there.
    fn pass<'a>(&mut self, session: &[u8], rows: &[u8], k: u32, list: &'a [u8]) -> Option<&'a [u8]>
        requires { k < max_passes }
    {
        let r = deskcheck_pass(
            session,
            k,
            &mut self.discards,
            &mut self.actions,
            &mut self.clears,
            &self.status,
        );
        let replied = reply(list, k, &r, rows, &self.clears, &self.discards)?;
        let is_last = k + 1 == pass_count(session);
        if is_last | (pass_row(session, k).ends() == 1) {
            self.submission(session, replied)
        } else {
            words(replied, &[0])
        }
    }
}

// What is left of a list behind the answer to a session, all passes from fresh lists.
fn answer<'a>(session: &[u8], list: &'a [u8]) -> Option<&'a [u8]> {
    let mut rows = [0u8; ROWS_BYTES];
    let number = deskcheck_session(session, &mut rows);
    let mut rest = words(list, &[number])?;
    if number != 0 {
        return Some(rest);
    }
    let mut lent = Lent::fresh();
    for k in 0..pass_count(session).min(MAX_PASSES) {
        rest = lent.pass(session, &rows, k, rest)?;
    }
    Some(rest)
}

// The part at the front of a list, of as many units of bytes as the number before it says, and what is behind it; none where the list is cut off.
fn part(list: &[u8], unit: usize) -> Option<(&[u8], &[u8])>
    requires { unit ≤ 4 }
    ensures { IfSome result (λ split. length split.1.now < length list.now) }
{
    if list.len() < WORD_BYTES {
        return None;
    }
    let behind = &list[WORD_BYTES..];
    let bytes = unit * u32_at(list, 0) as usize;
    if behind.len() < bytes {
        return None;
    }
    Some(behind.split_at(bytes))
}

// A session, and the words that the Rust answered.
#[derive(Clone, Copy)]
struct Record<'a> {
    session: &'a [u8],
    words: &'a [u8],
}

// The record at the front of a list, and what is behind it; none where the list is cut off.
fn first_record(list: &[u8]) -> Option<(Record<'_>, &[u8])>
    ensures { IfSome result (λ split. length split.1.now < length list.now) }
{
    let (session, behind) = part(list, 1)?;
    let (words, rest) = part(behind, WORD_BYTES)?;
    Some((Record { session, words }, rest))
}

// Sessions of the list, and how many of them agree.
#[derive(Clone, Copy)]
struct Tally {
    sessions: usize,
    agree: usize,
}

// Replays the whole list. A record that is cut off ends it, and does not agree.
fn replay(list: &[u8]) -> Tally {
    let mut tally = Tally {
        sessions: 0,
        agree: 0,
    };
    let mut rest = list;
    // Not a `for`: a record's own numbers say how far the next one is.
    while !rest.is_empty() {
        tally.sessions += 1;
        let Some((record, behind)) = first_record(rest) else {
            break;
        };
        if answer(record.session, record.words).is_some_and(|left| left.is_empty()) {
            tally.agree += 1;
        }
        rest = behind;
    }
    tally
}

// Bytes that the list fits in.
const LIST_BYTES: usize = 600000;

// Room for the list.
fn room() -> [u8; LIST_BYTES]
    ensures { list_bytes ≡ length result }
{
    [0; LIST_BYTES]
}

// Reads the list from standard input, and prints how many sessions agree.
fn main(rt: HostRuntime) -> io::Result<()> {
    let mut space = room();
    let n = read_head(&mut rt.stdin(), &mut space)?;
    let Tally { sessions, agree } = replay(&space[..n]);
    println!(rt;
        "sessions with the Rust's answers, made by make-answers of the harness from seed 9020"
    )?;
    println!(rt; "{agree} of {sessions} agree")
}
