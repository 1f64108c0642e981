// The replies to plans, to refusals, and to the answers of a run.
ghost use Rattle.std.specs.Prelude.{◌≡◌};
ghost use Rattle.replies.specs.Answers.{plan_refused, pack_refused, unpack_refused, row_refused, step_refused, feed_refused, read_refused, answered};
ghost use Rattle.replies.specs.Plans.{checked};

use crate::reply::Reply;
use kernels::refusal::{PackRefusal, RowRefusal, StepRefusal, UnpackRefusal};
use plans::any_plan::AnyPlan;
use plans::refusal::PlanRefusal;
use runs::calls::Answer;
use runs::refusal::{FeedRefusal, ReadRefusal};

impl From<PlanRefusal> for Reply {
    ghost from_gives = { λ refusal reply. reply ≡ plan_refused refusal };

    fn from(refusal: PlanRefusal) -> Reply {
        Reply::Refused {
            number: refusal.number(),
        }
    }
}

impl From<Result<AnyPlan, PlanRefusal>> for Reply {
    ghost from_gives = { λ answer reply. reply ≡ checked answer };

    fn from(answer: Result<AnyPlan, PlanRefusal>) -> Reply {
        answer.map_or_else(
            Reply::from,
            |plan| Reply::Accepted {
                interval: plan.facts().interval,
            },
        )
    }
}

impl From<PackRefusal> for Reply {
    ghost from_gives = { λ refusal reply. reply ≡ pack_refused refusal };

    fn from(refusal: PackRefusal) -> Reply {
        let number = refusal.number();
        match refusal {
            PackRefusal::Code { place } => Reply::RefusedAt { number, place },
            _ => Reply::Refused { number },
        }
    }
}

impl From<UnpackRefusal> for Reply {
    ghost from_gives = { λ refusal reply. reply ≡ unpack_refused refusal };

    fn from(refusal: UnpackRefusal) -> Reply {
        let number = refusal.number();
        match refusal {
            UnpackRefusal::Group { group: place } => Reply::RefusedAt { number, place },
            _ => Reply::Refused { number },
        }
    }
}

// This and the other refusals without places: one call of `number` each, on a type of its own.
impl From<RowRefusal> for Reply {
    ghost from_gives = { λ refusal reply. reply ≡ row_refused refusal };

    fn from(refusal: RowRefusal) -> Reply {
        Reply::Refused {
            number: refusal.number(),
        }
    }
}

impl From<StepRefusal> for Reply {
    ghost from_gives = { λ refusal reply. reply ≡ step_refused refusal };

    fn from(refusal: StepRefusal) -> Reply {
        Reply::Refused {
            number: refusal.number(),
        }
    }
}

impl From<FeedRefusal> for Reply {
    ghost from_gives = { λ refusal reply. reply ≡ feed_refused refusal };

    fn from(refusal: FeedRefusal) -> Reply {
        let number = refusal.number();
        match refusal {
            FeedRefusal::Weights { row, group } => Reply::RefusedInRow { number, row, group },
            FeedRefusal::Activations { group: place } => Reply::RefusedAt { number, place },
            _ => Reply::Refused { number },
        }
    }
}

impl From<ReadRefusal> for Reply {
    ghost from_gives = { λ refusal reply. reply ≡ read_refused refusal };

    fn from(refusal: ReadRefusal) -> Reply {
        Reply::Refused {
            number: refusal.number(),
        }
    }
}

impl From<Answer> for Reply {
    ghost from_gives = { λ answer reply. reply ≡ answered answer };

    fn from(answer: Answer) -> Reply {
        match answer {
            Answer::Fed => Reply::Fed,
            Answer::FeedRefused(refusal) => refusal.into(),
            Answer::Settled => Reply::Settled,
            Answer::Sum { sum, steps, drains } => Reply::Sum { sum, steps, drains },
            Answer::ReadRefused(refusal) => refusal.into(),
            Answer::Resumed => Reply::Resumed,
            Answer::Cleared => Reply::Cleared,
            Answer::Misplaced => Reply::Misplaced,
        }
    }
}
