// The plan of each kind: the numbers of an accepted request, with the interval that was taken. That no codes overflow the
// lane within that interval is part of the type, and so is every other rule of the kind.
ghost use Rattle.std.specs.Prelude.{◌≡◌, ⊤};
ghost use Rattle.plans.specs.declared.kind.Kind.{Kind};
ghost use Rattle.plans.specs.declared.kind.Kind.TheVariants.{P1, P2, Planes, Split};
ghost use Rattle.plans.specs.Answers.{RangesHold, CodesFit, LaneHolds};

use crate::kind::Kind;
use crate::request::Request;
use std::alloc::AllocError;
use std::marker::PhantomData;

// The kind that a type of plan is of.
pub trait PlanKind {
    ghost KIND: { Kind };

    const KIND: Kind;
}

// The first lane packing: d codes in lanes of 16 / d bits, added up in 16 bits.
#[derive(Clone, Copy)]
pub struct OfP1;

impl PlanKind for OfP1 {
    ghost KIND = { P1 };

    const KIND: Kind = Kind::P1;
}

// The second lane packing: wider lanes, since the top code of a word needs no full lane, added up in 32 bits.
#[derive(Clone, Copy)]
pub struct OfP2;

impl PlanKind for OfP2 {
    ghost KIND = { P2 };

    const KIND: Kind = Kind::P2;
}

// Bit planes: word k holds bit k of 16 codes.
#[derive(Clone, Copy)]
pub struct OfPlanes;

impl PlanKind for OfPlanes {
    ghost KIND = { Planes };

    const KIND: Kind = Kind::Planes;
}

// Signed split sums: two signed codes a word, each place with a lane of its own.
#[derive(Clone, Copy)]
pub struct OfSplit;

impl PlanKind for OfSplit {
    ghost KIND = { Split };

    const KIND: Kind = Kind::Split;
}

// An accepted request of one kind.
#[derive(Copy)]
pub struct Plan<K: PlanKind> {
    pub(crate) numbers: Request,
    pub(crate) kind: PhantomData<K>,
    ghost ranges: { RangesHold K.KIND numbers },
    ghost codes: { CodesFit K.KIND numbers },
    ghost lane: { LaneHolds K.KIND numbers },
}

// The derive is refused over ghost fields where `Copy` hangs on a parameter.
impl<K: PlanKind + Copy> Clone for Plan<K> {
    ghost is_clone = { λ plan copy. copy ≡ plan };

    ghost is_infallible = { λ _. ⊤ };

    fn clone(&self) -> Result<Plan<K>, AllocError> {
        Ok(*self)
    }
}

pub type P1Plan = Plan<OfP1>;

pub type P2Plan = Plan<OfP2>;

pub type PlanesPlan = Plan<OfPlanes>;

pub type SplitPlan = Plan<OfSplit>;
