// Verdicts: what a check answers, and how the answers of two checks are put in order.
// Every function is total, and its contract is the definition of the same name.
ghost use Rattle.std.specs.Prelude.{◌≡◌, cond};
ghost use Rattle.definition.specs.Verdict as D;
ghost use Rattle.definition.specs.Verdict.{◌then◌};

use crate::Verdict;

// The place of a verdict that has none.
pub const NOWHERE: u32 = 17;

// The place of the depth-stencil view.
pub const AT_DEPTH_STENCIL: u32 = 16;

// Accepted.
pub fn accepted() -> Verdict
    ensures { result ≡ D.accepted }
{
    Verdict {
        number: 0,
        place: NOWHERE,
        earlier: NOWHERE,
    }
}

// Whether nothing is refused.
pub fn is_accepted(v: Verdict) -> bool
    ensures { result ≡ D.is_accepted v }
{
    v.number == 0
}

// Refused as n at the place.
pub fn refused_at(n: u32, place: u32) -> Verdict
    ensures { result ≡ D.refused_at n place }
{
    Verdict {
        number: n,
        place,
        earlier: NOWHERE,
    }
}

// Number n at the place, where the test fails.
#[tactic(auto, unfolding(crate::specs::Verdict::unless))]
pub fn unless(ok: bool, n: u32, place: u32) -> Verdict
    ensures { result ≡ D.unless ok n place }
{
    either(ok, accepted(), refused_at(n, place))
}

// The same, compared with the view at an earlier place.
#[tactic(auto, unfolding(crate::specs::Verdict::unless_against))]
pub fn unless_against(ok: bool, n: u32, place: u32, earlier: u32) -> Verdict
    ensures { result ≡ D.unless_against ok n place earlier }
{
    either(
        ok,
        accepted(),
        Verdict {
            number: n,
            place,
            earlier,
        },
    )
}

// The first refusal of two checks.
pub fn then(v: Verdict, w: Verdict) -> Verdict
    ensures { result ≡ (v then w) }
{
    either(is_accepted(v), w, v)
}

// v where the test holds, else w.
pub fn either(test: bool, v: Verdict, w: Verdict) -> Verdict
    ensures { result ≡ cond test v w }
{
    if test { v } else { w }
}
