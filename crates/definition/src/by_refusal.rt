// Verdicts of a refusal by its name: each is the function of its name in `verdicts`, of the refusal's number.
ghost use Rattle.std.specs.Prelude.{◌≡◌};
ghost use Rattle.definition.specs.Refusals.{number_of};
ghost use Rattle.definition.specs.Verdict as D;

use crate::refusals::Refusal;
use crate::{Verdict, verdicts};

// Refused at the place.
pub fn refused_at(refusal: Refusal, place: u32) -> Verdict
    ensures { result ≡ D.refused_at (number_of refusal) place }
{
    verdicts::refused_at(refusal.number(), place)
}

// Refused at the place, where the test fails.
pub fn unless(ok: bool, refusal: Refusal, place: u32) -> Verdict
    ensures { result ≡ D.unless ok (number_of refusal) place }
{
    verdicts::unless(ok, refusal.number(), place)
}

// The same, compared with the view at an earlier place.
pub fn unless_against(ok: bool, refusal: Refusal, place: u32, earlier: u32) -> Verdict
    ensures { result ≡ D.unless_against ok (number_of refusal) place earlier }
{
    verdicts::unless_against(ok, refusal.number(), place, earlier)
}
