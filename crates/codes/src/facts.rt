// The fixed facts of a kernel. Their rules are part of the type, so whoever is handed facts knows that they hold.
ghost use Rattle.codes.specs.Codes.{Range};
ghost use Rattle.codes.specs.Shapes.{ShapeRules, ZerosWithin, SumOverflows};

use crate::shape::Shape;
use crate::zero_points::ZeroPoints;

// The shape of the packing, the most steps between drains, the rows, the most columns of a run, and the zero points.
#[derive(Clone, Copy)]
pub struct Facts {
    pub shape: Shape,
    pub interval: u32,
    pub rows: usize,
    pub longest: u32,
    pub zeros: ZeroPoints,
    ghost shape_rules: { ShapeRules shape },
    ghost interval_rule: { Range 1 65536 interval },
    ghost rows_rule: { Range 1 64 rows },
    ghost longest_rule: { Range 1 65536 longest },
    ghost zeros_rule: { ZerosWithin shape zeros },
    ghost sum_rule: { SumOverflows shape zeros longest → ⊥ },
}
