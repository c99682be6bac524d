// The entry points of the desk check, for callers in Rattle, and through desk_c for callers in C and Rust. Each tests its own input and has no
// `requires`; its contract is one promise (specs/Promise, specs/Whole), which says what the reply means and what the lent lists and status
// bytes then hold, refused or not. Behind each is a function that gives a result or a refusal, which the entry point turns into numbers.
// In EntryPoints of specs/ and proofs/: demand 3 of calls of deskcheck_pass and deskcheck_submit, one after the other from fresh buffers.
#![tactic(auto)]

pub mod index;

ghost use Rattle.std.specs.Prelude.{◌≡◌};
ghost use Rattle.definition.specs.Readable.{session_refusal};
ghost use Rattle.definition.specs.Refusals.{number_of, number_in};
ghost use Rattle.definition.specs.Surfaces.{surface_at};
ghost use Rattle.buffer_validation.specs.Buffers.{buffers};
ghost use Rattle.desk.specs.Entry.{entry_refusal};
ghost use Rattle.desk.specs.Reply.{refused_reply, reply_in};
ghost use Rattle.desk.specs.Promise.{PassPromise, SubmitPromise};
ghost use Rattle.desk.specs.Whole.{WholePromise};
ghost use Rattle.desk.specs.Index.{index_in, status_index};

use buffer_validation::{LentBuffers, surface_valid};
use definition::Surface;
use definition::by_refusal::refused_at;
use definition::refusals::Refusal;
use definition::sizes::ROWS_BYTES;
use definition::verdicts::NOWHERE;
use index::{SurfaceIndex, index_of};
use lists::set_count;
use render_pass::{Reply, check_pass, refusal};
use session::header::pass_count;
use session::pass_row;
use session_validation::validate_session;
use submission::submit;
use whole_session::session_rows;

// 0 for what is accepted, or the refusal's number.
fn number<T: Copy>(answer: Result<T, Refusal>) -> u32
    ensures { result ≡ number_in answer }
{
    match answer {
        Ok(_) => 0,
        Err(refusal) => refusal.number(),
    }
}

// The session's refusal: 0, or 1 to 4.
pub fn deskcheck_session_refusal(session: &[u8]) -> u32
    ensures { result ≡ session_refusal session.now }
{
    number(validate_session(session))
}

// The index of the status byte of a surface, of a readable session that has it.
fn status_index(session: &[u8], x: Surface) -> Result<u32, Refusal>
    ensures { index_in result ≡ status_index session.now x }
{
    validate_session(session)?;
    if !surface_valid(session, x) {
        return Err(Refusal::InvalidLent);
    }
    Ok(index_of(session, x))
}

// Where the status byte of a surface stands: 1 to 4 for the session, 6 for a surface that it does not have, or 0 and the index.
pub fn deskcheck_surface_index(
    session: &[u8],
    texture: u32,
    mip: u32,
    layer: u32,
    slice: u32,
) -> SurfaceIndex
    ensures { result ≡ status_index session.now (surface_at texture mip layer slice) }
{
    let x = Surface {
        texture,
        mip,
        layer,
        slice,
    };
    match status_index(session, x) {
        Ok(index) => SurfaceIndex { number: 0, index },
        Err(refusal) => SurfaceIndex {
            number: refusal.number(),
            index: 0,
        },
    }
}

// Whether a call can be judged: the buffers are long enough, the session is readable, and what is lent is valid.
fn opened(
    session: &[u8],
    discards: &[u8],
    actions: &[u8],
    clears: &[u8],
    status: &[u8],
) -> Result<(), Refusal>
    ensures { let b = buffers discards.now actions.now clears.now status.now in
        number_in result ≡ entry_refusal session.now b }
{
    let lent = LentBuffers {
        discards,
        actions,
        clears,
        status,
    };
    if lent.is_short() {
        return Err(Refusal::InvalidLent);
    }
    let readable = validate_session(session)?;
    if !lent.is_valid(readable) {
        return Err(Refusal::InvalidLent);
    }
    Ok(())
}

// A submission, or its refusal.
fn submitted(
    session: &[u8],
    discards: &mut [u8],
    actions: &mut [u8],
    clears: &[u8],
    status: &mut [u8],
) -> Result<(), Refusal>
    ensures { SubmitPromise session.now
        (buffers discards.old actions.old clears.now status.old)
        (number_in result)
        (buffers discards.new actions.new clears.now status.new) }
{
    opened(session, discards, actions, clears, status)?;
    submit(session, discards, actions, status);
    set_count(discards, 0);
    set_count(actions, 0);
    Ok(())
}

// A submission: 0, or 6 for a buffer that is too short, 1 to 4 for the session, 6 for what is lent. The counts of discards and actions
// are then 0 and the status bytes are the new ones; a refusal leaves every byte.
pub fn deskcheck_submit(
    session: &[u8],
    discards: &mut [u8],
    actions: &mut [u8],
    clears: &[u8],
    status: &mut [u8],
) -> u32
    ensures { SubmitPromise session.now
        (buffers discards.old actions.old clears.now status.old)
        result
        (buffers discards.new actions.new clears.now status.new) }
{
    number(submitted(session, discards, actions, clears, status))
}

// The reply to a pass that is judged, or why none is.
fn checked(
    session: &[u8],
    i: u32,
    discards: &mut [u8],
    actions: &mut [u8],
    clears: &mut [u8],
    status: &[u8],
) -> Result<Reply, Refusal>
    ensures { PassPromise session.now i
        (buffers discards.old actions.old clears.old status.now)
        (reply_in result)
        (buffers discards.new actions.new clears.new status.now) }
{
    opened(session, discards, actions, clears, status)?;
    if i >= pass_count(session) {
        return Err(Refusal::InvalidPass);
    }
    Ok(check_pass(&pass_row(session, i), discards, actions, clears))
}

// Refused, at no place.
fn refused(n: Refusal) -> Reply
    ensures { result ≡ refused_reply (number_of n) }
{
    refusal(refused_at(n, NOWHERE))
}

// The check of pass number i: 6 for a buffer that is too short, 1 to 4 for the session, 6 for what is lent, 5 and 10 to 51 for the pass.
// An accepted pass replaces the clears and leaves discards and actions as they are after it; a refusal leaves every byte.
pub fn deskcheck_pass(
    session: &[u8],
    i: u32,
    discards: &mut [u8],
    actions: &mut [u8],
    clears: &mut [u8],
    status: &[u8],
) -> Reply
    ensures { PassPromise session.now i
        (buffers discards.old actions.old clears.old status.now)
        result
        (buffers discards.new actions.new clears.new status.now) }
{
    match checked(session, i, discards, actions, clears, status) {
        Ok(reply) => reply,
        Err(refusal) => refused(refusal),
    }
}

// The rows of a readable session, or its refusal.
fn written(session: &[u8], rows: &mut [u8]) -> Result<(), Refusal>
    ensures { WholePromise session.now rows.old (number_in result) rows.new }
{
    if rows.len() < ROWS_BYTES {
        return Err(Refusal::InvalidLent);
    }
    session_rows(validate_session(session)?, rows);
    Ok(())
}

// The whole session from fresh lists: 6 for rows that are too short, 1 to 4 for the session, or 0. Then every pass has its row, and the
// bytes past the rows stay; a refusal leaves every byte.
pub fn deskcheck_session(session: &[u8], rows: &mut [u8]) -> u32
    ensures { WholePromise session.now rows.old result rows.new }
{
    number(written(session, rows))
}
