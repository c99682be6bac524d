// The C functions of include/deskcheck.h: each is the function of its name in desk, with its contract.
#![tactic(auto)]

ghost use Rattle.std.specs.Prelude.{◌≡◌};
ghost use Rattle.definition.specs.Readable.{session_refusal};
ghost use Rattle.definition.specs.Surfaces.{surface_at};
ghost use Rattle.buffer_validation.specs.Buffers.{buffers};
ghost use Rattle.desk.specs.Promise.{PassPromise, SubmitPromise};
ghost use Rattle.desk.specs.Whole.{WholePromise};
ghost use Rattle.desk.specs.Index.{status_index};

use desk::index::SurfaceIndex;
use render_pass::Reply;

// The session's refusal: 0, or 1 to 4.
#[unsafe(no_mangle)]
pub extern "C" fn deskcheck_session_refusal(session: &[u8]) -> u32
    ensures { result ≡ session_refusal session.now }
{
    desk::deskcheck_session_refusal(session)
}

// Where the status byte of a surface stands: 1 to 4 for the session, 6 for a surface that it does not have, or 0 and the index.
#[unsafe(no_mangle)]
pub extern "C" fn deskcheck_surface_index(
    session: &[u8],
    texture: u32,
    mip: u32,
    layer: u32,
    slice: u32,
) -> SurfaceIndex
    ensures { result ≡ status_index session.now (surface_at texture mip layer slice) }
{
    desk::deskcheck_surface_index(session, texture, mip, layer, slice)
}

// A submission: 0, or 6 for a buffer that is too short, 1 to 4 for the session, 6 for what is lent. The counts of discards and actions
// are then 0 and the status bytes are the new ones; a refusal leaves every byte.
#[unsafe(no_mangle)]
pub extern "C" fn deskcheck_submit(
    session: &[u8],
    discards: &mut [u8],
    actions: &mut [u8],
    clears: &[u8],
    status: &mut [u8],
) -> u32
    ensures { SubmitPromise session.now
        (buffers discards.old actions.old clears.now status.old)
        result
        (buffers discards.new actions.new clears.now status.new) }
{
    desk::deskcheck_submit(session, discards, actions, clears, status)
}

// The check of pass number i: 6 for a buffer that is too short, 1 to 4 for the session, 6 for what is lent, 5 and 10 to 51 for the pass.
// An accepted pass replaces the clears and leaves discards and actions as they are after it; a refusal leaves every byte.
#[unsafe(no_mangle)]
pub extern "C" fn deskcheck_pass(
    session: &[u8],
    i: u32,
    discards: &mut [u8],
    actions: &mut [u8],
    clears: &mut [u8],
    status: &[u8],
) -> Reply
    ensures { PassPromise session.now i
        (buffers discards.old actions.old clears.old status.now)
        result
        (buffers discards.new actions.new clears.new status.now) }
{
    desk::deskcheck_pass(session, i, discards, actions, clears, status)
}

// The whole session from fresh lists: 6 for rows that are too short, 1 to 4 for the session, or 0. Then every pass has its row, and the
// bytes past the rows stay; a refusal leaves every byte.
#[unsafe(no_mangle)]
pub extern "C" fn deskcheck_session(session: &[u8], rows: &mut [u8]) -> u32
    ensures { WholePromise session.now rows.old result rows.new }
{
    desk::deskcheck_session(session, rows)
}
