// The checks of an attachment: numbers 30 to 48 and 51, the views of a pass in order, depth-stencil first; colour slots and resolve targets.
// What is asked of every view is `view_checks`'. Every public function is total, and its contract is an equation with the definition.
#![tactic(auto)]

ghost use Rattle.std.specs.Prelude.{◌≡◌, ◌++◌, leb, ◌+◌, ◌<◌, ◌≤◌, min};
ghost use Rattle.definition.specs.Sizes.{max_slots};
ghost use Rattle.definition.specs.Session.{session};
ghost use Rattle.definition.specs.Views as Vw;
ghost use Rattle.definition.specs.Check as Ck;
ghost use Rattle.session.specs.Rows.{pass_in, session_in};
ghost use Rattle.view_checks.specs.Taken.{taken_in};

use definition::by_refusal::{unless, unless_against};
use definition::refusals::Refusal;
use definition::sizes::MAX_SLOTS;
use definition::verdicts::{AT_DEPTH_STENCIL, accepted, either, is_accepted, then};
use definition::{Progress, Seen, Slot, Verdict, View};
use formats::{is_color, with_color};
use session::derived::{depth_of, extent_of, is_d2, is_d2_array, is_d3, is_none, transient};
use session::header::color_bytes;
use session::{PassRow, view, view_format};
use view_checks::overlap::{check_attachment_overlap, check_resolve_overlap};
use view_checks::views::{
    add_view, check_multiview, depth_stencil_view, none_seen, renderable, see_view,
};

// 39, 38 and 40: a slice is given for a D3 view, inside its mip's depth, and for no other.
#[tactic(auto, unfolding(definition::specs::Views::slice_verdict))]
fn slice_verdict(s: &[u8], c: Slot, v: View, place: u32) -> Verdict
    ensures { result ≡ Vw.slice_verdict (session s.now) c v place }
{
    let given = unless(c.sliced == 1, Refusal::MissingDepthSlice, place);
    let inside = unless(c.slice < depth_of(s, v), Refusal::DepthSliceLimit, place);
    let absent = unless(c.sliced == 0, Refusal::UnneededDepthSlice, place);
    either(is_d3(v), then(given, inside), absent)
}

// A resolve target against its colour view v: 35 and 42 to 45.
#[tactic(auto, unfolding(definition::specs::Views::target_of))]
fn target_of(s: &[u8], seen: Seen, v: View, target: View, place: u32) -> Verdict
    ensures { result ≡ Vw.target_of (session s.now) seen v target place }
{
    let from = extent_of(s, v);
    let to = extent_of(s, target);
    let extent = unless_against(
        (from.width == to.width) & (from.height == to.height),
        Refusal::DimensionMismatch,
        place,
        seen.last,
    );
    let samples = unless(
        (from.samples != 1) & (to.samples == 1),
        Refusal::InvalidResolveSampleCounts,
        place,
    );
    let format = unless(
        v.format == target.format,
        Refusal::MismatchedResolveFormat,
        place,
    );
    let resolvable = unless(
        target.resolvable == 1,
        Refusal::UnsupportedResolveFormat,
        place,
    );
    let kept = unless(
        !transient(target),
        Refusal::InvalidTransientResolveTarget,
        place,
    );
    then(extent, then(samples, then(format, then(resolvable, kept))))
}

// A colour slot of a pass, and the view that it names.
#[derive(Clone, Copy)]
struct ColorSlot<'a> {
    pass: &'a PassRow<'a>,
    k: u32,
    slot: Slot,
    view: View,
    ghost inside: { k < max_slots },
}

impl ColorSlot<'_> {
    // The colour view, of a pass whose colours fit into a sample or not: 30 to 40, 51, 41.
    #[tactic(auto, unfolding(definition::specs::Views::color_view))]
    fn color_view(&self, seen: Seen, fit: bool) -> Verdict
        ensures { let a = self.now in
            result ≡ Vw.color_view (session_in a.pass.now) seen fit (taken_in a.pass.now a.k) a.slot a.view a.k }
    {
        let s = self.pass.session;
        let v = self.view;
        let place = self.k;
        let layers = check_multiview(s, seen, v, place);
        let extent = add_view(s, seen, v, place);
        let format = unless(is_color(v.format), Refusal::InvalidFormat, place);
        let slice = slice_verdict(s, self.slot, v, place);
        let bytes = unless(fit, Refusal::TooManyColorBytes, place);
        let free = check_attachment_overlap(self.pass, place, v, self.slot.slice, place);
        then(
            layers,
            then(extent, then(format, then(slice, then(bytes, free)))),
        )
    }

    // A resolve target by itself: 30 to 33, 48, 41 and 34. The colour view is taken, and so is what the slots before take.
    #[tactic(auto, unfolding(definition::specs::Views::target_view))]
    fn target_view(&self, seen: Seen, target: View, place: u32) -> Verdict
        ensures { let a = self.now in
            let taken = Vw.takes a.view a.slot.slice ++ taken_in a.pass.now a.k in
            result ≡ Vw.target_view (session_in a.pass.now) seen taken target place }
    {
        let layers = check_multiview(self.pass.session, seen, target, place);
        let flat = unless(
            is_d2(target) | is_d2_array(target),
            Refusal::InvalidResolveDimension,
            place,
        );
        let free = check_resolve_overlap(
            self.pass,
            self.k,
            self.view,
            self.slot.slice,
            target,
            place,
        );
        let fit = unless(renderable(target), Refusal::NotRenderable, place);
        then(layers, then(flat, then(free, fit)))
    }

    // The resolve target: 30 to 33, 48, 41, 34, 35, 42 to 45.
    #[tactic(auto, unfolding(definition::specs::Views::resolve_view))]
    fn resolve_view(&self, seen: Seen, target: View, place: u32) -> Verdict
        ensures { let a = self.now in
            let taken = Vw.takes a.view a.slot.slice ++ taken_in a.pass.now a.k in
            result ≡ Vw.resolve_view (session_in a.pass.now) seen taken a.view target place }
    {
        then(
            self.target_view(seen, target, place),
            target_of(self.pass.session, seen, self.view, target, place),
        )
    }

    // The resolve target, where the slot has one.
    #[tactic(auto, unfolding(definition::specs::Check::resolve_step))]
    fn resolve_step(&self, seen: Seen) -> Progress
        ensures { let a = self.now in
            result ≡ Ck.resolve_step (session_in a.pass.now) seen (taken_in a.pass.now a.k) a.slot a.view a.k }
    {
        if is_none(self.slot.resolve) {
            return Progress {
                verdict: accepted(),
                seen,
            };
        }
        let place = MAX_SLOTS + self.k;
        let target = view(self.pass.session, self.slot.resolve);
        Progress {
            verdict: self.resolve_view(seen, target, place),
            seen,
        }
    }

    // The colour view, then its resolve target.
    #[tactic(auto, unfolding(definition::specs::Check::color_step))]
    fn color_step(&self, seen: Seen, fit: bool) -> Progress
        ensures { let a = self.now in
            result ≡ Ck.color_step (session_in a.pass.now) seen fit (taken_in a.pass.now a.k) a.slot a.view a.k }
    {
        let color = self.color_view(seen, fit);
        if is_accepted(color) {
            return self.resolve_step(see_view(self.pass.session, seen, self.view, self.k));
        }
        Progress {
            verdict: color,
            seen,
        }
    }
}

// The depth-stencil view of the pass, where it has one.
#[tactic(auto, unfolding(definition::specs::Check::depth_stencil_step))]
pub fn depth_stencil_step(pass: &PassRow) -> Progress
    ensures { result ≡ Ck.depth_stencil_step (session_in pass.now) (pass_in pass.now) }
{
    let k = pass.depth_stencil();
    let seen = none_seen();
    if is_none(k) {
        return Progress {
            verdict: accepted(),
            seen,
        };
    }
    let v = view(pass.session, k);
    Progress {
        verdict: depth_stencil_view(pass.session, v),
        seen: see_view(pass.session, seen, v, AT_DEPTH_STENCIL),
    }
}

// Slot k, where it is not empty.
#[tactic(auto, unfolding(definition::specs::Check::slot_step), using(session::proofs::Rows::without_step))]
fn slot_step(pass: &PassRow, fit: bool, k: u32, seen: Seen) -> Progress
    requires { k < max_slots }
    ensures { result ≡ Ck.slot_step (session_in pass.now) (pass_in pass.now) fit k seen }
{
    let slot = pass.slot_without_clear(k);
    if is_none(slot.view) {
        return Progress {
            verdict: accepted(),
            seen,
        };
    }
    let color = ColorSlot {
        pass,
        k,
        slot,
        view: view(pass.session, slot.view),
    };
    color.color_step(seen, fit)
}

// Slot k after a: nothing more once the pass is refused.
#[tactic(auto, unfolding(definition::specs::Check::next_slot))]
fn next_slot(pass: &PassRow, fit: bool, k: u32, a: Progress) -> Progress
    requires { k < max_slots }
    ensures { result ≡ Ck.next_slot (session_in pass.now) (pass_in pass.now) fit k a }
{
    if is_accepted(a.verdict) {
        return slot_step(pass, fit, k, a.seen);
    }
    a
}

// The bytes of a sample with slot k more: at most 19.
fn with_slot(pass: &PassRow, k: u32, bytes: u32) -> u64
    ensures { (result ≡ Ck.with_slot (session_in pass.now) ((pass_in pass.now).slot k) bytes)
        × (result ≤ bytes + 19) }
{
    let v = pass.slot_view(k);
    if is_none(v) {
        return bytes as u64;
    }
    with_color(bytes, view_format(pass.session, v))
}

// The colour bytes of a sample, of the first n slots, and of no more than a pass may have.
fn sample_bytes(pass: &PassRow, n: u32) -> u32
    ensures { result ≡ Ck.sample_bytes (session_in pass.now) (pass_in pass.now) (min n max_slots) }
{
    let slots = n.min(MAX_SLOTS);
    let mut bytes = 0u32;
    for k in 0..slots {
        bytes = with_slot(pass, k, bytes) as u32;
    }
    bytes
}

// Whether they are within the session's limit.
pub fn bytes_fit(pass: &PassRow, n: u32) -> bool
    ensures { let bytes = Ck.sample_bytes (session_in pass.now) (pass_in pass.now) (min n max_slots) in
        result ≡ leb bytes (session_in pass.now).color_bytes }
{
    sample_bytes(pass, n) <= color_bytes(pass.session)
}

// The first n slots, after a. No more are looked at than a pass may have: one of more is refused as 5.
pub fn slot_steps(pass: &PassRow, fit: bool, a: Progress, n: u32) -> Progress
    ensures { result ≡ Ck.slot_steps (session_in pass.now) (pass_in pass.now) fit a (min n max_slots) }
{
    let slots = n.min(MAX_SLOTS);
    let mut b = a;
    for k in 0..slots {
        b = next_slot(pass, fit, k, b);
    }
    b
}
