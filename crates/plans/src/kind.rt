// The four kinds of plan, and the numbers that stand for them.
ghost use Rattle.plans.specs.Kinds.{KindNumbered};

use crate::refusal::PlanRefusal;

// Two lane packings (P1, P2), bit planes, and signed split sums. What a kind fixes is a match in one function each, so that
// the four rules are read beside one another; a kind comes as a number.
#[derive(Clone, Copy, Debug, PartialEq, Eq)]
pub enum Kind {
    P1,
    P2,
    Planes,
    Split,
}

// The kind that a number stands for. Any other number is refused as unknown.
impl TryFrom<u16> for Kind {
    type Error = PlanRefusal;

    ghost try_from_gives = { KindNumbered };

    fn try_from(number: u16) -> Result<Kind, PlanRefusal> {
        match number {
            1 => Ok(Kind::P1),
            2 => Ok(Kind::P2),
            3 => Ok(Kind::Planes),
            4 => Ok(Kind::Split),
            _ => Err(PlanRefusal::UnknownKind),
        }
    }
}
