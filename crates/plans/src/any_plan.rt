// A plan of any kind, where the kind comes as a number.
ghost use Rattle.plans.specs.AnyPlans.{kind_of, numbers_of, NumberedAnswer};
ghost use Rattle.plans.specs.Plans.{FactsOf};

use crate::checked_plan::CheckedPlan;
use crate::kind::Kind;
use crate::plan::{P1Plan, P2Plan, Plan, PlanesPlan, SplitPlan};
use crate::refusal::PlanRefusal;
use crate::request::Request;
use codes::facts::Facts;

// An enum and no dyn: what is made from a plan has a type of its own.
#[derive(Clone, Copy)]
pub enum AnyPlan {
    P1(P1Plan),
    P2(P2Plan),
    Planes(PlanesPlan),
    Split(SplitPlan),
}

impl AnyPlan {
    // Puts the question of the kind, and then those that the kind asks: a plan, or the first question that gets a no.
    pub fn check(kind: u16, request: &Request) -> Result<AnyPlan, PlanRefusal>
        ensures { NumberedAnswer kind request.now result }
    {
        match Kind::try_from(kind)? {
            Kind::P1 => Plan::check(request).map(AnyPlan::P1),
            Kind::P2 => Plan::check(request).map(AnyPlan::P2),
            Kind::Planes => Plan::check(request).map(AnyPlan::Planes),
            Kind::Split => Plan::check(request).map(AnyPlan::Split),
        }
    }

    // What a kernel of this plan keeps to.
    pub fn facts(&self) -> Facts
        ensures { FactsOf (kind_of self.now) (numbers_of self.now) result }
    {
        match self {
            AnyPlan::P1(plan) => plan.facts(),
            AnyPlan::P2(plan) => plan.facts(),
            AnyPlan::Planes(plan) => plan.facts(),
            AnyPlan::Split(plan) => plan.facts(),
        }
    }
}
