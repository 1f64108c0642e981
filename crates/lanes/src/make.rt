// What sets the two makes of lane kernels apart: how wide their lanes are, and in how many bits they add up.
ghost use Rattle.std.specs.Prelude.{ℕ};
ghost use Rattle.codes.specs.declared.shape.Shape.{Shape};
ghost use Rattle.codes.specs.declared.facts.Facts.{Facts};
ghost use Rattle.plans.specs.Plans.{FactsOf};
ghost use Rattle.lanes.specs.Makes.{Ready};

use crate::accumulator::Accumulator;
use plans::plan::{Plan, PlanKind};

pub trait LaneMake: PlanKind {
    type Accumulator: Accumulator;

    ghost width: { Shape → ℕ };

    // The bits of a lane of a plan's words, by a formula of each make. Lanes of that width hold what the codes of the plan can give.
    fn lane_width(plan: &Plan<Self>) -> u32
        ensures { (f : Facts) → FactsOf Self.KIND plan.now.numbers f → Ready Self.Accumulator.bits f result (width f.shape) plan.now.numbers.depth plan.now.numbers.weight_size plan.now.numbers.activation_size };
}
