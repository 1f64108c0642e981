// What every plan type offers: its check, its numbers and its facts.
ghost use Rattle.std.specs.Prelude.{◌≡◌};
ghost use Rattle.codes.specs.declared.facts.Facts.{Facts};
ghost use Rattle.plans.specs.declared.kind.Kind.{Kind};
ghost use Rattle.plans.specs.declared.request.Request.{Request};
ghost use Rattle.plans.specs.Answers.{Answered, RangesHold, CodesFit, LaneHolds};
ghost use Rattle.plans.specs.Plans.{FactsOf};

use crate::check::answer;
use crate::kind::Kind;
use crate::layout::Layout;
use crate::plan::{Plan, PlanKind};
use crate::refusal::PlanRefusal;
use crate::request::Request;
use codes::facts::Facts;
use std::marker::PhantomData;

// A plan type of one kind. Every value of it passed the check.
pub trait CheckedPlan: Sized {
    ghost kind: { Kind };

    ghost given: { Self → Request };

    // Puts the questions of the kind in order: a plan, or the first question that gets a no.
    fn check(request: &Request) -> Result<Self, PlanRefusal>
        ensures { Answered kind given request.now result };

    // The numbers of the request, with the interval that was taken.
    fn numbers(&self) -> Request
        ensures { result ≡ given self.now };

    // What a kernel of this plan keeps to.
    fn facts(&self) -> Facts
        ensures { FactsOf kind (given self.now) result };

    ghost ranges: { (plan : Self) → RangesHold kind (given plan) };

    ghost codes: { (plan : Self) → CodesFit kind (given plan) };

    ghost lane: { (plan : Self) → LaneHolds kind (given plan) };
}

// A plan of each kind, by the kind that its type has.
impl<K: PlanKind> CheckedPlan for Plan<K> {
    ghost kind = { K.KIND };

    ghost given = { λ plan. plan.numbers };

    ghost ranges = { λ plan. plan.ranges };

    ghost codes = { λ plan. plan.codes };

    ghost lane = { λ plan. plan.lane };

    fn check(request: &Request) -> Result<Plan<K>, PlanRefusal> {
        let numbers = answer(K::KIND, request)?;
        Ok(Plan {
            numbers,
            kind: PhantomData,
        })
    }

    fn numbers(&self) -> Request {
        self.numbers
    }

    fn facts(&self) -> Facts {
        facts_of(K::KIND, &self.numbers)
    }
}

// The facts of a plan with these numbers.
fn facts_of(kind: Kind, numbers: &Request) -> Facts
    requires ranges { RangesHold kind numbers.now }
    requires codes { CodesFit kind numbers.now }
    ensures { FactsOf kind numbers.now result }
{
    let layout = Layout {
        kind,
        request: *numbers,
    };
    Facts {
        shape: layout.shape(),
        interval: numbers.interval,
        rows: numbers.rows as usize,
        longest: numbers.longest,
        zeros: numbers.zeros,
    }
}
