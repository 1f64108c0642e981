// The product of two packed groups, by any kernel.
ghost use Rattle.std.specs.Prelude.{◌≡◌};
ghost use Rattle.kernels.specs.Answers.{step_gain};
ghost use Rattle.kernels.specs.declared.refusal.StepRefusal.TheVariants.{Row};
ghost use Rattle.kernels.specs.Meanings.{Drained};

use crate::kernel::Kernel;
use crate::refusal::{RowRefusal, StepRefusal};

// The product of two packed groups: drains a row, takes one step and drains it again. Whatever is answered, the row has
// been drained.
#[tactic(auto, unfolding(crate::specs::Answers::step_gain))]
pub fn group_product<K: Kernel>(
    kernel: &mut K,
    row: usize,
    weights: &[u16],
    activations: &[u16],
) -> Result<i64, StepRefusal>
    ensures answer { result ≡ step_gain (K.Kernel.unpacked (K.Kernel.means kernel.old).facts.shape) (K.Kernel.means kernel.old).facts row 0 weights.now activations.now }
    ensures after { Drained row (K.Kernel.means kernel.old) (K.Kernel.means kernel.new) }
{
    kernel.drain(row)?;
    kernel.step(row, weights, activations)?;
    let total = kernel.drain(row)?;
    Ok(total)
}

// Where a drain is refused, so is the step.
impl From<RowRefusal> for StepRefusal {
    ghost from_gives = { λ _ refusal. refusal ≡ Row };

    fn from(_: RowRefusal) -> StepRefusal {
        StepRefusal::Row
    }
}
