// The questions of a plan check, put in order.
ghost use Rattle.std.specs.Prelude.{◌≡◌, ◌≤◌, min, IfOk, MatchResult};
ghost use Rattle.plans.specs.Answers.{Accepted, FirstNo, RangesHold, CodesFit, LaneHolds};

use crate::kind::Kind;
use crate::layout::Layout;
use crate::questions::zeros_fit;
use crate::refusal::PlanRefusal;
use crate::request::Request;
use crate::sum::Corrected;

// The longest interval that is ever taken.
const MOST_INTERVAL: u32 = 65536;

// The interval of a plan: the one that was asked for, or the longest that the lane takes.
fn interval_taken(asked: u32, most: u32) -> u32
    ensures asked { 1 ≤ asked → result ≡ asked }
    ensures left { asked ≡ 0 → result ≡ min most 65536 }
{
    if asked == 0 {
        most.min(MOST_INTERVAL)
    } else {
        asked
    }
}

// The numbers of the plan that is made of a request, with its interval, or the first question that gets a no.
// Inlined: the check of each kind takes the numbers apart at once, and a call would hand them over in memory.
#[inline(always)]
pub(crate) fn answer(kind: Kind, request: &Request) -> Result<Request, PlanRefusal>
    ensures answer { MatchResult result (λ n. Accepted kind request.now n) (λ e. FirstNo kind request.now e) }
    ensures ranges { IfOk result (λ n. RangesHold kind n) }
    ensures codes { IfOk result (λ n. CodesFit kind n) }
    ensures lane { IfOk result (λ n. LaneHolds kind n) }
{
    if !kind.takes_sizes(request) {
        return Err(PlanRefusal::Sizes);
    }
    if !kind.takes_depth(request) {
        return Err(PlanRefusal::Depth);
    }
    let layout = Layout {
        kind,
        request: *request,
    };
    if !request.counts_fit() {
        return Err(PlanRefusal::Counts);
    }
    let shape = layout.shape();
    if !zeros_fit(&shape, request.zeros) {
        return Err(PlanRefusal::ZeroPoints);
    }
    let corrected = Corrected {
        shape,
        zeros: request.zeros,
    };
    if !layout.products_fit() {
        return Err(PlanRefusal::Products);
    }
    let most = layout.most_steps();
    if most < request.interval.max(1) {
        return Err(PlanRefusal::Lane);
    }
    if !corrected.sum_fits(request.longest) {
        return Err(PlanRefusal::Sum);
    }
    let interval = interval_taken(request.interval, most);
    Ok(Request {
        interval,
        ..*request
    })
}
