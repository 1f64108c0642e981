// The codes, groups and words of a kind with sizes and a depth.
ghost use Rattle.std.specs.Prelude.{◌≡◌, ◌-◌, ◌^◌, ◌<◌, MatchResult};
ghost use Rattle.codes.specs.Codes.{Range};
ghost use Rattle.codes.specs.Shapes.{ShapeRules};
ghost use Rattle.plans.specs.Kinds.{ends_of, group_size, group_words, shape_of};
ghost use Rattle.plans.specs.Bounds.{top_code};
ghost use Rattle.plans.specs.Questions.{largest_size, GoodSizes, GoodDepth};

use crate::kind::Kind;
use crate::request::Request;
use codes::ends::Ends;
use codes::shape::Shape;

// A request whose sizes and depth its kind can pack.
#[derive(Clone, Copy)]
pub(crate) struct Layout {
    pub(crate) kind: Kind,
    pub(crate) request: Request,
    ghost sizes: { GoodSizes kind request },
    ghost depth: { GoodDepth kind request },
}

impl Layout {
    // The shape of the packing.
    pub(crate) fn shape(&self) -> Shape
        ensures value { result ≡ shape_of self.now.kind self.now.request }
        ensures rules { ShapeRules result }
    {
        let Layout { kind, request } = *self;
        Shape {
            weight_ends: kind.ends(request.weight_size),
            activation_ends: kind.ends(request.activation_size),
            group: self.group_size(),
            weight_words: kind.group_words(request.weight_size),
            activation_words: kind.group_words(request.activation_size),
        }
    }

    // The codes of a group.
    fn group_size(&self) -> usize
        ensures { result ≡ group_size self.now.kind self.now.request }
    {
        match self.kind {
            Kind::P1 | Kind::P2 => self.request.depth as usize,
            Kind::Planes => 16,
            Kind::Split => 2,
        }
    }
}

impl Kind {
    // The highest code of a size.
    pub(crate) fn top_code(self, size: u16) -> u32
        requires { Range 1 (largest_size self) size }
        ensures value { result ≡ top_code self size }
        ensures small { Range 1 255 result }
    {
        match self {
            Kind::P1 | Kind::P2 | Kind::Planes => low_ones(size),
            Kind::Split => size as u32,
        }
    }

    // The ends of the codes of a size.
    fn ends(self, size: u16) -> Ends
        requires { Range 1 (largest_size self) size }
        ensures { result ≡ ends_of self size }
    {
        let high = self.top_code(size) as i16;
        match self {
            Kind::P1 | Kind::P2 | Kind::Planes => Ends { low: 0, high },
            Kind::Split => Ends { low: -high, high },
        }
    }

    // The words of a packed group of codes of a size.
    fn group_words(self, size: u16) -> usize
        ensures { result ≡ group_words self size }
    {
        match self {
            Kind::P1 | Kind::P2 | Kind::Split => 1,
            Kind::Planes => size as usize,
        }
    }
}

// 2 to the power n, less 1.
pub(crate) fn low_ones(n: u16) -> u32
    requires { n < 32 }
    ensures { result ≡ 2 ^ n - 1 }
{
    (1u32 << n) - 1
}
