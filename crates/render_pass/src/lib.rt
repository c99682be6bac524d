// The check of one pass: numbers 5 and 10 to 51, the reply, and what it leaves in the lent lists (RenderPassInfo).
// It decides first and writes last: judging reads the lists where they are lent, and only an accepted pass is recorded.
// In `summary`: the same of a pass of a whole session, where the discards and a count of actions stand for the lists.
#![tactic(auto)]

pub mod summary;

ghost use Rattle.std.specs.Prelude.{◌≡◌, true, cond, ◌+◌, ◌*◌, ◌≤◌};
ghost use Rattle.definition.specs.Sizes.{max_slots, max_discards, max_actions, max_attachments};
ghost use Rattle.definition.specs.Session.{session};
ghost use Rattle.definition.specs.Check.{check, view_steps};
ghost use Rattle.definition.specs.Verdict.{is_accepted};
ghost use Rattle.definition.specs.Pass as Pass;
ghost use Rattle.session.specs.Rows.{pass_in, session_in};
ghost use Rattle.lists.specs.Lent.{bytes};
ghost use Rattle.attachments.specs.Attached.{is_depth_read_only, is_stencil_read_only, divergent_in};
ghost use Rattle.render_pass.specs.Outcome.{replied, RoomOf, Checkable, Checked};

use attachment_checks::{bytes_fit, depth_stencil_step, slot_steps};
use attachments::resolve::{plans_of, replies_of};
use attachments::{DepthStencilPart, depth_stencil_part, empty_reply};
use definition::by_refusal::refused_at;
use definition::refusals::Refusal;
use definition::sizes::{MAX_ACTIONS, MAX_ATTACHMENTS};
use definition::verdicts::{NOWHERE, is_accepted, then};
use definition::{Attachment, Progress, Seen, Verdict};
use descriptor::fill_arc_desc;
use lists::count;
use memory_init::tally::{Tally, tally_pass};
use recording::record_pass;
use session::PassRow;
use session_validation::pass_valid;
use view_checks::mask::mask_verdict;
use view_checks::views::none_seen;

// The reply to one pass, as C callers see it: numbers, and attachments in as many records as a pass has at most. Of a refused pass every
// field after `earlier` is 0. Of the lent clears, the first `clears` are returned.
#[repr(C)]
#[derive(Clone, Copy)]
pub struct Reply {
    pub number: u32,
    pub place: u32,
    pub earlier: u32,
    pub width: u32,
    pub height: u32,
    pub samples: u32,
    pub depth_read_only: u32,
    pub stencil_read_only: u32,
    pub divergent: u32,
    pub clears: u32,
    pub count: u32,
    pub attachments: [Attachment; MAX_ATTACHMENTS],
}

// 30 to 48 and 51: the depth-stencil view, then each slot, then the mask.
fn view_steps(pass: &PassRow) -> Progress
    requires { (pass_in pass.now).colors ≤ max_slots }
    ensures { result ≡ view_steps (session_in pass.now) (pass_in pass.now) }
{
    let n = pass.colors();
    let fit = bytes_fit(pass, n);
    let walked = slot_steps(pass, fit, depth_stencil_step(pass), n);
    let seen = walked.seen;
    Progress {
        verdict: then(
            walked.verdict,
            mask_verdict(pass.session, pass.mask(), seen.layers),
        ),
        seen,
    }
}

// 5, 10 to 48 and 51, and what the views have fixed.
fn start(pass: &PassRow) -> Progress
    ensures { result ≡ check (session_in pass.now) (pass_in pass.now) }
{
    if !pass_valid(pass) {
        return Progress {
            verdict: refused_at(Refusal::InvalidPass, NOWHERE),
            seen: none_seen(),
        };
    }
    let ops = fill_arc_desc(pass);
    if !is_accepted(ops) {
        return Progress {
            verdict: ops,
            seen: none_seen(),
        };
    }
    view_steps(pass)
}

// 49 if a step has no room for its discards, then 50 if the end has none for all actions, of which there are so many.
#[tactic(auto, using(crate::proofs::Outcome::steps_full, crate::proofs::Outcome::actions_full, crate::proofs::Outcome::all_fits))]
fn room_verdict(t: Tally, actions: usize) -> Result<(), Refusal>
    requires few_actions { actions ≤ max_actions }
    requires few_added { t.added ≤ max_attachments * (max_discards + 1) }
    ensures { RoomOf t actions result }
{
    if !t.fits {
        return Err(Refusal::TooManyDiscards);
    }
    if actions + t.added > MAX_ACTIONS {
        return Err(Refusal::TooManyActions);
    }
    Ok(())
}

// 1 for true.
fn flag(b: bool) -> u32
    ensures { result ≡ cond b 1 0 }
{
    if b { 1 } else { 0 }
}

// Whether the pass only reads the depth of its depth-stencil attachment, if it has one.
fn is_depth_read_only(d: &Option<DepthStencilPart>) -> bool
    ensures { result ≡ is_depth_read_only d.now }
{
    match d {
        Some(d) => d.is_depth_read_only,
        None => false,
    }
}

// Whether it only reads the stencil.
fn is_stencil_read_only(d: &Option<DepthStencilPart>) -> bool
    ensures { result ≡ is_stencil_read_only d.now }
{
    match d {
        Some(d) => d.is_stencil_read_only,
        None => false,
    }
}

// The number of the aspect that diverges, or 0.
fn divergent(d: &Option<DepthStencilPart>) -> u32
    ensures { result ≡ divergent_in d.now }
{
    let Some(d) = d else {
        return 0;
    };
    match d.divergent {
        Some(aspect) => aspect as u32,
        None => 0,
    }
}

// A refused pass replies with no attachments or clears.
pub fn refusal(v: Verdict) -> Reply
    ensures { result ≡ replied (Pass.refusal v) }
{
    Reply {
        number: v.number,
        place: v.place,
        earlier: v.earlier,
        width: 0,
        height: 0,
        samples: 0,
        depth_read_only: 0,
        stencil_read_only: 0,
        divergent: 0,
        clears: 0,
        count: 0,
        attachments: [empty_reply(); MAX_ATTACHMENTS],
    }
}

// A pass that 5, 10 to 48 and 51 accept: 49 and 50, then what it leaves in the lists, and its reply.
fn finish(
    pass: &PassRow,
    seen: Seen,
    discards: &mut [u8],
    actions: &mut [u8],
    clears: &mut [u8],
) -> Reply
    requires judged { let p = check (session_in pass.now) (pass_in pass.now) in
        (is_accepted p.verdict ≡ true) × (seen ≡ p.seen) }
    requires checkable { Checkable (session_in pass.now) (bytes discards.old actions.old clears.old) }
    ensures { Checked (session_in pass.now) (pass_in pass.now)
        (bytes discards.old actions.old clears.old)
        result
        (bytes discards.new actions.new clears.new) }
{
    let d = depth_stencil_part(pass);
    let n = pass.colors();
    let resolved = plans_of(pass, &d, n);
    let plans = resolved.as_slice();
    let t = tally_pass(discards, plans);
    if let Err(why) = room_verdict(t, count(actions)) {
        return refusal(refused_at(why, NOWHERE));
    }
    record_pass(discards, actions, clears, plans, t);
    let replies = replies_of(pass, &d, n);
    let records = replies.records;
    Reply {
        number: 0,
        place: NOWHERE,
        earlier: NOWHERE,
        width: seen.width,
        height: seen.height,
        samples: seen.samples,
        depth_read_only: flag(is_depth_read_only(&d)),
        stencil_read_only: flag(is_stencil_read_only(&d)),
        divergent: divergent(&d),
        clears: t.returned as u32,
        count: replies.count,
        attachments: records,
    }
}

// One pass check, of a session whose views can be read, on lent lists that are in range.
pub fn check_pass(
    pass: &PassRow,
    discards: &mut [u8],
    actions: &mut [u8],
    clears: &mut [u8],
) -> Reply
    requires { Checkable (session_in pass.now) (bytes discards.old actions.old clears.old) }
    ensures { Checked (session_in pass.now) (pass_in pass.now)
        (bytes discards.old actions.old clears.old)
        result
        (bytes discards.new actions.new clears.new) }
{
    let judged = start(pass);
    let verdict = judged.verdict;
    if !is_accepted(verdict) {
        return refusal(verdict);
    }
    let seen = judged.seen;
    finish(pass, seen, discards, actions, clears)
}
