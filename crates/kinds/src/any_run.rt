// A run on a kernel of any kind, made from a plan of that kind.
ghost use Rattle.std.specs.Prelude.{◌≡◌, length, drop};
ghost use Rattle.kinds.specs.Laws.{PlanLaw, run_kind};
ghost use Rattle.plans.specs.AnyPlans.{kind_of, numbers_of};

use lanes::p1::P1;
use lanes::p2::P2;
use planes::planes::Planes;
use plans::any_plan::AnyPlan;
use runs::calls::{Answer, Call};
use runs::planned::replay_planned;
use runs::replay::Run;
use split::split::Split;

// An enum and no dyn: a run has the type of its kernel.
#[derive(Drop)]
pub enum AnyRun {
    P1(Run<P1>),
    P2(Run<P2>),
    Planes(Run<Planes>),
    Split(Run<Split>),
}

// Makes the kernel of an accepted plan, opens a run on it and makes a list of calls. Each answer goes to the place of its
// call; a call that has no such place is not made.
pub fn replay_plan(plan: AnyPlan, calls: &[Call], answers: &mut [Answer]) -> AnyRun
    ensures kind { run_kind result ≡ kind_of plan }
    ensures law { PlanLaw (kind_of plan) (numbers_of plan) calls.now answers.new }
    ensures rest { drop (length calls.now) answers.new ≡ drop (length calls.now) answers.old }
    ensures places { length answers.new ≡ length answers.old }
{
    match plan {
        AnyPlan::P1(plan) => AnyRun::P1(replay_planned(plan, calls, answers)),
        AnyPlan::P2(plan) => AnyRun::P2(replay_planned(plan, calls, answers)),
        AnyPlan::Planes(plan) => AnyRun::Planes(replay_planned(plan, calls, answers)),
        AnyPlan::Split(plan) => AnyRun::Split(replay_planned(plan, calls, answers)),
    }
}
