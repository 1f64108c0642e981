// The second make of lane kernels: lanes that share what the highest code leaves, and accumulators of 32 bits.
ghost use Rattle.std.specs.Prelude.{◌≡◌};
ghost use Rattle.plans.specs.declared.kind.Kind.TheVariants.{P2 as Kind2};
ghost use Rattle.plans.specs.Lanes.{lane_width};
ghost use Rattle.plans.specs.Questions.{GoodSizes, GoodDepth};
ghost use Rattle.lanes.specs.Lanes.{p2_width};

use crate::kernel::LaneKernel;
use crate::make::LaneMake;
use plans::checked_plan::CheckedPlan;
use plans::plan::{OfP2, Plan};
use plans::request::Request;

pub type P2 = LaneKernel<OfP2>;

impl LaneMake for OfP2 {
    type Accumulator = u32;

    ghost width = { p2_width };

    fn lane_width(plan: &Plan<OfP2>) -> u32 {
        width_of(&plan.numbers())
    }
}

// What the wider codes leave of a word, shared out between the other lanes.
fn width_of(numbers: &Request) -> u32
    requires sizes { GoodSizes Kind2 numbers.now }
    requires depth { GoodDepth Kind2 numbers.now }
    ensures { result ≡ lane_width Kind2 numbers.now }
{
    let bits = numbers.weight_size.max(numbers.activation_size);
    ((16 - bits) / (numbers.depth - 1)) as u32
}
