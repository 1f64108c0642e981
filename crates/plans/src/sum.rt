// The question of the sum: whether the exact sum of any columns that a run may accept is a signed 32-bit number.
ghost use Rattle.std.specs.Prelude.{◌≡◌, ◌*◌, ◌≤◌, max, MatchBool};
ghost use Rattle.codes.specs.Codes.{Within};
ghost use Rattle.codes.specs.Shapes.{EndsRules, ShapeRules, ZerosWithin, SumOverflows};
ghost use Rattle.plans.specs.Bounds.{reach_below, reach_above, rise, fall};

use codes::ends::Ends;
use codes::shape::Shape;
use codes::zero_points::ZeroPoints;

// How far codes lie below and above their zero point at the most.
#[derive(Clone, Copy)]
struct Reach {
    below: u32,
    above: u32,
}

fn reach_of(ends: Ends, zero: i16) -> Reach
    requires ends { EndsRules ends }
    requires zero { Within ends zero }
    ensures below { result.below ≡ reach_below ends zero }
    ensures above { result.above ≡ reach_above ends zero }
    ensures small { (result.below ≤ 510) × (result.above ≤ 510) }
{
    let low = ends.low as i32;
    let high = ends.high as i32;
    let at = zero as i32;
    Reach {
        below: (at - low) as u32,
        above: (high - at) as u32,
    }
}

// Codes within their ends, and the zero points that are taken off them.
#[derive(Clone, Copy)]
pub(crate) struct Corrected {
    pub(crate) shape: Shape,
    pub(crate) zeros: ZeroPoints,
    ghost shape_rules: { ShapeRules shape },
    ghost zeros_rule: { ZerosWithin shape zeros },
}

impl Corrected {
    // Whether the exact sum of any so many columns is a signed 32-bit number.
    pub(crate) fn sum_fits(&self, longest: u32) -> bool
        ensures { MatchBool result (SumOverflows self.now.shape self.now.zeros longest → ⊥) (SumOverflows self.now.shape self.now.zeros longest) }
    {
        let (rise, fall) = self.extremes();
        let most = longest as u64 * rise as u64;
        let least = longest as u64 * fall as u64;
        most < 0x8000_0000 && least <= 0x8000_0000
    }

    // The most that one column adds to a sum, and the most that it takes off.
    fn extremes(&self) -> (u32, u32)
        ensures rise { result.0 ≡ rise self.now.shape self.now.zeros }
        ensures fall { result.1 ≡ fall self.now.shape self.now.zeros }
    {
        let weight = reach_of(self.shape.weight_ends, self.zeros.weight);
        let activation = reach_of(self.shape.activation_ends, self.zeros.activation);
        let rise = (weight.below * activation.below).max(weight.above * activation.above);
        let fall = (weight.below * activation.above).max(weight.above * activation.below);
        (rise, fall)
    }
}
