// The first make of lane kernels: lanes of 16 / d bits, and accumulators of 16 bits.
ghost use Rattle.std.specs.Prelude.{◌≡◌};
ghost use Rattle.plans.specs.declared.kind.Kind.TheVariants.{P1 as Kind1};
ghost use Rattle.plans.specs.Lanes.{lane_width};
ghost use Rattle.plans.specs.Questions.{GoodDepth};
ghost use Rattle.lanes.specs.Lanes.{p1_width};

use crate::kernel::LaneKernel;
use crate::make::LaneMake;
use plans::checked_plan::CheckedPlan;
use plans::plan::{OfP1, Plan};
use plans::request::Request;

pub type P1 = LaneKernel<OfP1>;

impl LaneMake for OfP1 {
    type Accumulator = u16;

    ghost width = { p1_width };

    fn lane_width(plan: &Plan<OfP1>) -> u32 {
        width_of(&plan.numbers())
    }
}

// The 16 bits of a word, shared out evenly.
fn width_of(numbers: &Request) -> u32
    requires { GoodDepth Kind1 numbers.now }
    ensures { result ≡ lane_width Kind1 numbers.now }
{
    (16 / numbers.depth) as u32
}
