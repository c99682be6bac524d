// The attachments of a pass, each alone: what it does to the lists and what it replies (RenderPassInfo::start, finish).
// In `effect`: the action, the discard and the divergent aspect by its operations alone; in `resolve` all attachments of a pass.
// Every function is total, and its contract is an equation with the definition, under the translations of specs/.
#![tactic(auto)]

pub mod effect;
pub mod resolve;

ghost use Rattle.std.specs.Prelude.{◌≡◌};
ghost use Rattle.definition.specs.Formats.{has_depth, has_stencil};
ghost use Rattle.definition.specs.Session as Se;
ghost use Rattle.definition.specs.Session.{Session, session};
ghost use Rattle.definition.specs.Attachments as At;
ghost use Rattle.definition.specs.Pass.{attachment_reply, depth_stencil_usage, depth_stencil_reply};
ghost use Rattle.definition.specs.declared.Range as Ra;
ghost use Rattle.channel.specs.Pass.{resolved_in};
ghost use Rattle.laws.specs.Plans.{plan_of};
ghost use Rattle.session.specs.Rows.{pass_in, session_in};
ghost use Rattle.memory_init.specs.Plans.{plan_in};
ghost use Rattle.attachments.specs.Attached.{Present, PartOf, blank};

use channel::color::ops_of;
use channel::pass::{ResolvedPassChannel, or_read_only};
use definition::{Attachment, Range, Slot, View, black};
use depth_stencil::{depth_resolved, stencil_resolved};
use effect::{
    Aspect, COLOR_TARGET, depth_stencil_effect, depth_stencil_usage, regular_effect, resolve_effect,
};
use formats::{has_depth, has_stencil};
use memory_init::Planned;
use session::derived::{
    is_none, read_only_depth_stencil, slice_range, strict, texture_binding, view_range,
};
use session::{PassRow, view};

// The depth-stencil attachment of a pass: what it does to the lists, what it replies, which channels it only reads, and the
// aspect that is cleared after the pass.
#[derive(Clone, Copy)]
pub struct DepthStencilPart {
    pub planned: Planned,
    pub reply: Attachment,
    pub is_depth_read_only: bool,
    pub is_stencil_read_only: bool,
    pub divergent: Option<Aspect>,
}

// A record of a reply that stands for no attachment.
pub fn empty_reply() -> Attachment
    ensures { result ≡ blank }
{
    Attachment {
        view: 0,
        usage: 0,
        ops: 0,
        stencil_ops: 0,
        color: black(),
        depth: 0.0,
        stencil: 0,
    }
}

// ── depth-stencil

// The depth channel of a pass, resolved for a format.
fn depth_ops(pass: &PassRow, format: u32) -> ResolvedPassChannel<f32>
    ensures { resolved_in result ≡ At.depth_ops (session_in pass.now) (pass_in pass.now) format }
{
    or_read_only(depth_resolved(has_depth(format), strict(pass.session), pass.depth()))
}

// Its stencil channel.
fn stencil_ops(pass: &PassRow, format: u32) -> ResolvedPassChannel<u32>
    ensures { resolved_in result ≡ At.stencil_ops (session_in pass.now) (pass_in pass.now) format }
{
    or_read_only(stencil_resolved(has_stencil(format), strict(pass.session), pass.stencil()))
}

// The usage of a depth-stencil view v.
fn usage_of(
    s: &[u8],
    v: View,
    depth: ResolvedPassChannel<f32>,
    stencil: ResolvedPassChannel<u32>,
) -> u32
    ensures { result ≡ depth_stencil_usage (session s.now) v (resolved_in depth).read_only (resolved_in stencil).read_only }
{
    depth_stencil_usage(
        depth,
        stencil,
        read_only_depth_stencil(s),
        texture_binding(v),
    )
}

// What a depth-stencil attachment of view k with these channels replies.
fn depth_stencil_reply(
    k: u32,
    usage: u32,
    depth: ResolvedPassChannel<f32>,
    stencil: ResolvedPassChannel<u32>,
) -> Attachment
    ensures { result ≡ depth_stencil_reply k usage (resolved_in depth) (resolved_in stencil) }
{
    Attachment {
        view: k,
        usage,
        ops: depth.hal_ops(),
        stencil_ops: stencil.hal_ops(),
        color: black(),
        depth: depth.clear_value(),
        stencil: stencil.clear_value(),
    }
}

// The depth-stencil attachment of view k, a view of this format, with these channels.
fn depth_stencil_of(
    s: &[u8],
    k: u32,
    format: u32,
    depth: ResolvedPassChannel<f32>,
    stencil: ResolvedPassChannel<u32>,
) -> DepthStencilPart
    ensures { let S = session s.now in
        let range = Se.view_range (S.view k) in
        Present S result (At.depth_stencil k range (has_depth format) (has_stencil format) (resolved_in depth) (resolved_in stencil)) }
{
    let v = view(s, k);
    let effect = depth_stencil_effect(has_depth(format), has_stencil(format), depth, stencil);
    let usage = usage_of(s, v, depth, stencil);
    DepthStencilPart {
        planned: Planned {
            range: view_range(v),
            kind: effect.kind,
            discards: effect.discards,
        },
        reply: depth_stencil_reply(k, usage, depth, stencil),
        is_depth_read_only: depth.is_readonly(),
        is_stencil_read_only: stencil.is_readonly(),
        divergent: effect.divergent,
    }
}

// A plan that does nothing.
pub fn no_plan() -> Planned {
    Planned {
        range: Range {
            texture: 0,
            mip: 0,
            mips: 0,
            layer: 0,
            layers: 0,
            slice: 0,
        },
        kind: None,
        discards: false,
    }
}

// The depth-stencil attachment of a pass, if it has one, with its channels resolved.
pub fn depth_stencil_part(pass: &PassRow) -> Option<DepthStencilPart>
    ensures { let S = session_in pass.now in
        PartOf S result (At.depth_stencil_part S (pass_in pass.now)) }
{
    let k = pass.depth_stencil();
    if is_none(k) {
        return None;
    }
    let format = view(pass.session, k).format;
    Some(depth_stencil_of(
        pass.session,
        k,
        format,
        depth_ops(pass, format),
        stencil_ops(pass, format),
    ))
}

// ── colours and resolve targets

// What a colour does to the lists.
pub fn color_planned(s: &[u8], c: Slot) -> Planned
    ensures { plan_in result ≡ plan_of (At.color_of (session s.now) c) }
{
    let effect = regular_effect(ops_of(c));
    Planned {
        range: slice_range(view(s, c.view), c.slice),
        kind: effect.kind,
        discards: effect.discards,
    }
}

// What a resolve target does to the lists.
pub fn resolve_planned(s: &[u8], target: u32) -> Planned
    ensures { plan_in result ≡ plan_of (At.resolve_to target (Se.slice_range ((session s.now).view target) 0)) }
{
    let effect = resolve_effect();
    Planned {
        range: slice_range(view(s, target), 0),
        kind: effect.kind,
        discards: effect.discards,
    }
}

// What a colour replies. A value that is not cleared is zero.
pub fn color_reply(c: Slot) -> Attachment
    ensures { (S : Session) → result ≡ attachment_reply S (At.color_of S c) }
{
    let ops = ops_of(c);
    Attachment {
        view: c.view,
        usage: COLOR_TARGET,
        ops: ops.hal_ops(),
        color: ops.clear_value(),
        ..empty_reply()
    }
}

// What a resolve target replies: it has no operations.
pub fn resolve_reply(target: u32) -> Attachment
    ensures { (S : Session) (range : Ra.Range) → result ≡ attachment_reply S (At.resolve_to target range) }
{
    Attachment {
        view: target,
        usage: COLOR_TARGET,
        ..empty_reply()
    }
}
