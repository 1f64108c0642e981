// Why a plan is refused.
ghost use Rattle.std.specs.Prelude.{◌≡◌};
ghost use Rattle.plans.specs.Questions.{refusal_number};

// The first question that gets a no, each with its number.
#[derive(Clone, Copy, Debug, PartialEq, Eq)]
pub enum PlanRefusal {
    UnknownKind = 1,
    Sizes = 2,
    Depth = 3,
    Counts = 4,
    ZeroPoints = 5,
    Products = 6,
    Lane = 7,
    Sum = 8,
}

impl PlanRefusal {
    // The number of the question.
    pub fn number(self) -> u8
        ensures { result ≡ refusal_number self }
    {
        self as u8
    }
}
