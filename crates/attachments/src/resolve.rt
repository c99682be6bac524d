// The attachments of a pass, in fixed arrays: depth-stencil, then each colour and its resolve target, in the Rust's order. What each does to
// the lists is resolved once, for judging and recording; what the reply says of it only where there is a reply. Records past the count are
// blank, so that a reply is determined whole.
ghost use Rattle.std.specs.Prelude.{◌≡◌, not, ◌&&◌, ◌++◌, map, take, length, ◌≤◌};
ghost use Rattle.definition.specs.Sizes.{max_slots, max_attachments};
ghost use Rattle.definition.specs.Session.{session, is_none};
ghost use Rattle.definition.specs.Attachments.{depth_stencil_part, slot_parts};
ghost use Rattle.attachments.specs.Attached.{PartOf};
ghost use Rattle.definition.specs.Pass.{attachment_reply};
ghost use Rattle.laws.specs.Plans.{plan_of};
ghost use Rattle.session.specs.Rows.{pass_in, session_in};
ghost use Rattle.memory_init.specs.Plans.{plans_in};
ghost use Rattle.attachments.specs.Resolved.{listed};

use crate::{
    DepthStencilPart, color_planned, color_reply, empty_reply, no_plan, resolve_planned,
    resolve_reply,
};
use definition::sizes::MAX_ATTACHMENTS;
use definition::{Attachment, Slot};
use memory_init::Planned;
use session::PassRow;
use session::derived::is_none;

// What the attachments of a pass do to the lists, in order: the first `count`.
#[derive(Clone, Copy)]
pub struct Plans {
    pub planned: [Planned; MAX_ATTACHMENTS],
    pub count: u32,
    ghost few: { count ≤ max_attachments },
}

impl Plans {
    // All of them.
    pub fn as_slice(&self) -> &[Planned]
        ensures all { result.now ≡ take self.now.count self.now.planned }
        ensures few { length result.now ≤ max_attachments }
    {
        &self.planned[..self.count as usize]
    }
}

// The attachments of a reply: the first `count` records.
#[repr(C)]
#[derive(Clone, Copy)]
pub struct Attachments {
    pub records: [Attachment; MAX_ATTACHMENTS],
    pub count: u32,
}

// Whether the slot is not empty.
fn occupied(c: Slot) -> bool
    ensures { result ≡ not (is_none c.view) }
{
    !is_none(c.view)
}

// Whether the slot has a resolve target.
fn resolves(c: Slot) -> bool
    ensures { result ≡ (not (is_none c.view) && not (is_none c.resolve)) }
{
    !is_none(c.view) & !is_none(c.resolve)
}

// What they do to the lists: the pass's depth-stencil attachment d, then each colour of the first n slots and its resolve target.
pub fn plans_of(pass: &PassRow, d: &Option<DepthStencilPart>, n: u32) -> Plans
    requires part_of { PartOf (session_in pass.now) d.now (depth_stencil_part (session_in pass.now) (pass_in pass.now)) }
    requires few_slots { n ≤ max_slots }
    ensures plans { let S = session_in pass.now in
        let p = pass_in pass.now in
        plans_in (take result.count result.planned) ≡ map plan_of (depth_stencil_part S p ++ slot_parts S p n) }
    ensures whole { length result.planned ≡ max_attachments }
{
    let mut planned = [no_plan(); MAX_ATTACHMENTS];
    let mut count = 0u32;
    if let Some(d) = d {
        planned[0] = d.planned;
        count = 1;
    }
    for k in 0..n {
        let c = pass.slot_without_clear(k);
        if occupied(c) {
            planned[count as usize] = color_planned(pass.session, c);
            count += 1;
        }
        if resolves(c) {
            planned[count as usize] = resolve_planned(pass.session, c.resolve);
            count += 1;
        }
    }
    Plans { planned, count }
}

// What the reply says of them. The walk is that of plans_of, with a reply for each plan: one walk over both would take as many lines for
// what it makes of an attachment as it saves.
pub fn replies_of(pass: &PassRow, d: &Option<DepthStencilPart>, n: u32) -> Attachments
    requires part_of { PartOf (session_in pass.now) d.now (depth_stencil_part (session_in pass.now) (pass_in pass.now)) }
    requires few_slots { n ≤ max_slots }
    ensures { let S = session_in pass.now in
        let p = pass_in pass.now in
        result ≡ listed (map (attachment_reply S) (depth_stencil_part S p ++ slot_parts S p n)) }
{
    let mut records = [empty_reply(); MAX_ATTACHMENTS];
    let mut count = 0u32;
    if let Some(d) = d {
        records[0] = d.reply;
        count = 1;
    }
    for k in 0..n {
        let c = pass.slot(k);
        if occupied(c) {
            records[count as usize] = color_reply(c);
            count += 1;
        }
        if resolves(c) {
            records[count as usize] = resolve_reply(c.resolve);
            count += 1;
        }
    }
    Attachments { records, count }
}
