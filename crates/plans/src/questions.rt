// The questions of a plan check that are ranges of plain numbers, and the one on products.
ghost use Rattle.std.specs.Prelude.{◌≡◌, MatchBool};
ghost use Rattle.codes.specs.Shapes.{ZerosWithin};
ghost use Rattle.plans.specs.Questions.{largest_size, GoodSizes, GoodDepth, GoodCounts, BadProduct};

use crate::kind::Kind;
use crate::layout::Layout;
use crate::request::Request;
use codes::shape::Shape;
use codes::zero_points::ZeroPoints;

impl Kind {
    pub(crate) fn takes_sizes(self, request: &Request) -> bool
        ensures { MatchBool result (GoodSizes self request.now) (GoodSizes self request.now → ⊥) }
    {
        let most = self.largest_size();
        1 <= request.weight_size
            && request.weight_size <= most
            && 1 <= request.activation_size
            && request.activation_size <= most
    }

    pub(crate) fn takes_depth(self, request: &Request) -> bool
        ensures { MatchBool result (GoodDepth self request.now) (GoodDepth self request.now → ⊥) }
    {
        match self {
            Kind::P1 => 1 <= request.depth && request.depth <= 8,
            Kind::P2 => 2 <= request.depth && request.depth <= 8,
            Kind::Planes => request.depth == 16,
            Kind::Split => request.depth == 2,
        }
    }

    fn largest_size(self) -> u16
        ensures { result ≡ largest_size self }
    {
        match self {
            Kind::P1 | Kind::P2 | Kind::Planes => 8,
            Kind::Split => 127,
        }
    }
}

impl Request {
    pub(crate) fn counts_fit(&self) -> bool
        ensures { MatchBool result (GoodCounts self.now) (GoodCounts self.now → ⊥) }
    {
        1 <= self.rows
            && self.rows <= 64
            && 1 <= self.longest
            && self.longest <= 65536
            && self.interval <= 65536
    }
}

impl Layout {
    // Whether every product of two codes lies within -127 to 127, which only the signed split is asked.
    pub(crate) fn products_fit(&self) -> bool
        ensures { MatchBool result (BadProduct self.now.kind self.now.request → ⊥) (BadProduct self.now.kind self.now.request) }
    {
        match self.kind {
            Kind::P1 | Kind::P2 | Kind::Planes => true,
            Kind::Split => self.request.weight_size * self.request.activation_size <= 127,
        }
    }
}

pub(crate) fn zeros_fit(shape: &Shape, zeros: ZeroPoints) -> bool
    ensures { MatchBool result (ZerosWithin shape.now zeros) (ZerosWithin shape.now zeros → ⊥) }
{
    shape.weight_ends.hold(zeros.weight) && shape.activation_ends.hold(zeros.activation)
}
