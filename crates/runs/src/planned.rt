// From a plan to the law: what a kernel of a plan promises leaves nothing to assume.
ghost use Rattle.std.specs.Prelude.{◌≡◌, [], length, drop};
ghost use Rattle.plans.specs.Plans.{FactsOf};
ghost use Rattle.runs.specs.Law.{kernel_of, open_at, Lawful};

use crate::calls::{Answer, Call};
use crate::replay::{Run, replay};
use kernels::planned::Planned;

// Makes the kernel of an accepted plan, opens a run on it and makes a list of calls, as `replay` does.
pub fn replay_planned<K: Planned>(plan: K::Plan, calls: &[Call], answers: &mut [Answer]) -> Run<K>
    ensures facts { FactsOf K.Plan.CheckedPlan.kind (K.Plan.CheckedPlan.given plan) (K.Kernel.means (kernel_of result)).facts }
    ensures law { Lawful K.Kernel.means (K.Kernel.means (kernel_of result)).facts (K.Kernel.unpacked (K.Kernel.means (kernel_of result)).facts.shape) calls.now answers.new (open_at []) result }
    ensures rest { drop (length calls.now) answers.new ≡ drop (length calls.now) answers.old }
    ensures places { length answers.new ≡ length answers.old }
{
    replay(K::of_plan(plan), calls, answers)
}
