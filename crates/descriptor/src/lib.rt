// The operations that a pass asks for: numbers 10 to 26, in document 01's order (fill_arc_desc).
// Every function is total, and its contract is an equation with the definition.
#![tactic(auto)]

ghost use Rattle.std.specs.Prelude.{◌≡◌};
ghost use Rattle.definition.specs.Check as Ck;
ghost use Rattle.definition.specs.Session.{session};
ghost use Rattle.session.specs.Rows.{pass_in, session_in};

use channel::pass::verdict_of;
use channel::{LoadOp, StoreOp, check_transient_attachment_ops};
use definition::by_refusal::{refused_at, unless};
use definition::refusals::Refusal;
use definition::verdicts::{AT_DEPTH_STENCIL, NOWHERE, accepted, either, then};
use definition::{Channel, Slot, Verdict};
use depth_stencil::{depth_channel, depth_resolved, stencil_channel, stencil_resolved};
use formats::{has_depth, has_stencil, is_depth_stencil};
use session::derived::{is_none, strict, transient};
use session::header::max_colors;
use session::{PassRow, view};

// 11 and 12, of slot k.
#[tactic(auto, unfolding(definition::specs::Check::slot_ops))]
fn slot_ops(s: &[u8], c: Slot, k: u32) -> Verdict
    ensures { result ≡ Ck.slot_ops (session s.now) c k }
{
    if is_none(c.view) {
        return accepted();
    }
    let load = LoadOp::of(c.load, c.clear);
    let store = StoreOp::from(c.store);
    let cared = !(load.ignores() & strict(s));
    let lasting = !transient(view(s, c.view));
    let passing = check_transient_attachment_ops(load, store);
    then(
        unless(cared, Refusal::ColorDontCare, k),
        unless(lasting | passing, Refusal::InvalidTransientOp, k),
    )
}

// Of the first n slots, in order.
#[tactic(auto, unfolding(definition::specs::Check::color_ops), using(session::proofs::Rows::without_ops_lem))]
fn color_ops(pass: &PassRow, n: u32) -> Verdict
    ensures { result ≡ Ck.color_ops (session_in pass.now) (pass_in pass.now) n }
{
    let mut judged = accepted();
    for k in 0..n {
        judged = then(
            judged,
            slot_ops(pass.session, pass.slot_without_clear(k), k),
        );
    }
    judged
}

// 13 to 26, of a depth-stencil view of this format: 14 to 24 only for an aspect that it has.
#[tactic(auto, unfolding(definition::specs::Check::channel_ops))]
fn channel_ops(
    strict: bool,
    transient: bool,
    format: u32,
    depth: Channel,
    stencil: Channel,
) -> Verdict
    ensures { result ≡ Ck.channel_ops strict transient format depth stencil }
{
    let has_depth = has_depth(format);
    let has_stencil = has_stencil(format);
    let aspects = unless(
        is_depth_stencil(format),
        Refusal::InvalidDepthStencilFormat,
        AT_DEPTH_STENCIL,
    );
    let passing_depth = either(
        transient & has_depth,
        depth_channel(depth).check_transient(
            Refusal::InvalidTransientDepthOps.number(),
            Refusal::ReadOnlyTransientDepth.number(),
        ),
        accepted(),
    );
    let passing_stencil = either(
        transient & has_stencil,
        stencil_channel(stencil).check_transient(
            Refusal::InvalidTransientStencilOps.number(),
            Refusal::ReadOnlyTransientStencil.number(),
        ),
        accepted(),
    );
    let depth_ops = verdict_of(depth_resolved(has_depth, strict, depth));
    let stencil_ops = verdict_of(stencil_resolved(has_stencil, strict, stencil));
    let resolved = then(depth_ops, stencil_ops);
    then(
        aspects,
        then(passing_depth, then(passing_stencil, resolved)),
    )
}

// The same of a pass, where it has a depth-stencil view.
#[tactic(auto, unfolding(definition::specs::Check::depth_stencil_ops))]
fn depth_stencil_ops(pass: &PassRow) -> Verdict
    ensures { result ≡ Ck.depth_stencil_ops (session_in pass.now) (pass_in pass.now) }
{
    let k = pass.depth_stencil();
    if is_none(k) {
        return accepted();
    }
    let v = view(pass.session, k);
    channel_ops(
        strict(pass.session),
        transient(v),
        v.format,
        pass.depth(),
        pass.stencil(),
    )
}

// 10 to 26. A pass of more colours than there may be is not looked at further.
pub fn fill_arc_desc(pass: &PassRow) -> Verdict
    ensures { result ≡ Ck.ops_verdict (session_in pass.now) (pass_in pass.now) }
{
    let n = pass.colors();
    if n > max_colors(pass.session) {
        return refused_at(Refusal::TooMany, NOWHERE);
    }
    then(color_ops(pass, n), depth_stencil_ops(pass))
}
