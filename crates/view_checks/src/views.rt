// One view as an attachment of a pass: numbers 30 to 36, and what it fixes for the views after it.
// Every function is total, and its contract is an equation with the definition.
ghost use Rattle.std.specs.Prelude.{◌≡◌};
ghost use Rattle.definition.specs.Session.{session};
ghost use Rattle.definition.specs.Views as Vw;

use definition::by_refusal::{unless, unless_against};
use definition::refusals::Refusal;
use definition::verdicts::{AT_DEPTH_STENCIL, NOWHERE, accepted, either, then};
use definition::{Seen, Verdict, View};
use session::derived::{extent_of, is_d2, is_d2_array, is_d3, multiview, render_attachment};
use session::header::max_multiview;

// Before the first view.
pub fn none_seen() -> Seen
    ensures { result ≡ Vw.none_seen }
{
    Seen {
        layers: 0,
        width: 0,
        height: 0,
        samples: 0,
        last: NOWHERE,
    }
}

// Whether no view is accepted yet.
fn is_first(seen: Seen) -> bool
    ensures { result ≡ Vw.is_first seen }
{
    seen.layers == 0
}

// Whether the view is of one layer, and so not a multiview.
fn one_layer(v: View) -> bool
    ensures { result ≡ Vw.one_layer v }
{
    v.layers < 2
}

// W3C "renderable texture view".
#[tactic(auto, unfolding(definition::specs::Views::renderable))]
pub fn renderable(v: View) -> bool
    ensures { result ≡ Vw.renderable v }
{
    render_attachment(v) & (is_d2(v) | is_d2_array(v) | is_d3(v)) & (v.mips == 1)
}

// 30; then 32 and 33 for the first view, 31 for the others. A view of one layer needs neither feature nor limit.
pub fn check_multiview(s: &[u8], seen: Seen, v: View, place: u32) -> Verdict
    ensures { result ≡ Vw.multiview_verdict (session s.now) seen v place }
{
    let first = is_first(seen);
    let matching = unless(v.layers == seen.layers, Refusal::MultiviewMismatch, place);
    if one_layer(v) {
        return either(first, accepted(), matching);
    }
    let array = unless(is_d2_array(v), Refusal::MultiviewDimensionMismatch, place);
    let feature = unless(multiview(s), Refusal::MissingMultiview, place);
    let most = unless(
        v.layers <= max_multiview(s),
        Refusal::TooManyMultiviewViews,
        place,
    );
    then(array, either(first, then(feature, most), matching))
}

// 34 to 36: renderable, and of the extent and sample count of the views before it.
#[tactic(auto, unfolding(definition::specs::Views::view_verdict))]
pub fn add_view(s: &[u8], seen: Seen, v: View, place: u32) -> Verdict
    ensures { result ≡ Vw.view_verdict (session s.now) seen v place }
{
    let first = is_first(seen);
    let e = extent_of(s, v);
    let same_extent = (e.width == seen.width) & (e.height == seen.height);
    let same_samples = e.samples == seen.samples;
    let target = unless(renderable(v), Refusal::NotRenderable, place);
    let extent = unless_against(
        first | same_extent,
        Refusal::DimensionMismatch,
        place,
        seen.last,
    );
    let samples = unless_against(
        first | same_samples,
        Refusal::SampleCountMismatch,
        place,
        seen.last,
    );
    then(target, then(extent, samples))
}

// A depth-stencil view: 30 to 36.
#[tactic(auto, unfolding(definition::specs::Views::depth_stencil_view))]
pub fn depth_stencil_view(s: &[u8], v: View) -> Verdict
    ensures { result ≡ Vw.depth_stencil_view (session s.now) v }
{
    let seen = none_seen();
    then(
        check_multiview(s, seen, v, AT_DEPTH_STENCIL),
        add_view(s, seen, v, AT_DEPTH_STENCIL),
    )
}

// What is seen after a depth-stencil or colour view: the first fixes layers, extent and samples.
#[tactic(auto, unfolding(definition::specs::Views::see_view))]
pub fn see_view(s: &[u8], seen: Seen, v: View, place: u32) -> Seen
    ensures { result ≡ Vw.see_view (session s.now) seen v place }
{
    if is_first(seen) {
        let e = extent_of(s, v);
        return Seen {
            layers: v.layers,
            width: e.width,
            height: e.height,
            samples: e.samples,
            last: place,
        };
    }
    Seen {
        last: place,
        ..seen
    }
}
