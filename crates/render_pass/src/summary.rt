// A pass of a whole session, of which a row says the verdict, the extent, the samples and how many clears and discards there are. No row
// depends on the actions or the clears themselves, so that the discards and a count of actions stand for the lists.
ghost use Rattle.std.specs.Prelude.{◌≡◌, true};
ghost use Rattle.definition.specs.Session.{session};
ghost use Rattle.definition.specs.Check.{check};
ghost use Rattle.definition.specs.Verdict.{is_accepted};
ghost use Rattle.session.specs.Rows.{pass_in, session_in};
ghost use Rattle.render_pass.specs.Summary.{Summarizable, Summarized, refused_summary};

use crate::{room_verdict, start};
use attachments::depth_stencil_part;
use attachments::resolve::plans_of;
use definition::by_refusal::refused_at;
use definition::verdicts::{NOWHERE, accepted, is_accepted};
use definition::{Seen, Verdict};
use discard_list::record_discards;
use memory_init::tally::tally_pass;
use session::PassRow;

// What a row says of a pass, and how many actions there are after it.
#[derive(Clone, Copy)]
pub struct PassSummary {
    pub verdict: Verdict,
    pub width: u32,
    pub height: u32,
    pub samples: u32,
    pub clears: usize,
    pub actions: usize,
}

// Of a refused pass: the lists keep their entries.
fn refused_summary(v: Verdict, actions: usize) -> PassSummary
    ensures { result ≡ refused_summary v actions }
{
    PassSummary {
        verdict: v,
        width: 0,
        height: 0,
        samples: 0,
        clears: 0,
        actions: actions,
    }
}

// A pass that 5, 10 to 48 and 51 accept: 49 and 50, then the discards that it leaves.
fn finish_summary(pass: &PassRow, seen: Seen, discards: &mut [u8], actions: usize) -> PassSummary
    requires judged { let p = check (session_in pass.now) (pass_in pass.now) in
        (is_accepted p.verdict ≡ true) × (seen ≡ p.seen) }
    requires summarizable { Summarizable (session_in pass.now) discards.old actions }
    ensures { Summarized (session_in pass.now) (pass_in pass.now) discards.old actions result discards.new }
{
    let d = depth_stencil_part(pass);
    let resolved = plans_of(pass, &d, pass.colors());
    let plans = resolved.as_slice();
    let t = tally_pass(discards, plans);
    if let Err(why) = room_verdict(t, actions) {
        return refused_summary(refused_at(why, NOWHERE), actions);
    }
    record_discards(discards, plans, t.leaving);
    PassSummary {
        verdict: accepted(),
        width: seen.width,
        height: seen.height,
        samples: seen.samples,
        clears: t.returned,
        actions: actions + t.added,
    }
}

// The check of a pass of a session whose views can be read, from these discards and so many actions.
pub fn summarize(pass: &PassRow, discards: &mut [u8], actions: usize) -> PassSummary
    requires { Summarizable (session_in pass.now) discards.old actions }
    ensures { Summarized (session_in pass.now) (pass_in pass.now) discards.old actions result discards.new }
{
    let judged = start(pass);
    let verdict = judged.verdict;
    if !is_accepted(verdict) {
        return refused_summary(verdict, actions);
    }
    let seen = judged.seen;
    finish_summary(pass, seen, discards, actions)
}
