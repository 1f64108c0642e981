// Kernels that are made from plans.
ghost use Rattle.std.specs.Prelude.{◌≡◌, ℕ, pos};
ghost use Rattle.plans.specs.Plans.{FactsOf};

use crate::kernel::Kernel;
use plans::checked_plan::CheckedPlan;

// A kernel that is made from an accepted plan of its own kind, with totals and steps 0.
pub trait Planned: Kernel {
    type Plan: CheckedPlan;

    fn of_plan(plan: Self::Plan) -> Self
        ensures facts { FactsOf Self.Plan.CheckedPlan.kind (Self.Plan.CheckedPlan.given plan) (Self.Kernel.means result).facts }
        ensures empty { (row : ℕ) → ((Self.Kernel.means result).total row ≡ pos 0) × ((Self.Kernel.means result).steps row ≡ 0) };
}
