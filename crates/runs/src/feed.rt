// The steps of a feed, and the drains that it and a settle make, row by row.
ghost use Rattle.std.specs.Prelude.{◌≡◌, ℕ, ◌*◌, length, ◌==◌};
ghost use Rattle.runs.specs.Passes.{DrainedInto, StepsInto, StepsRow, FeedsRow};

use crate::kept::RowRecord;
use kernels::kernel::Kernel;

// Takes the groups of a row in, and the sum of its weight codes. Answers the drains that it made, which are counted. The
// words are those of one row and of all activations, cut anew at each turn, and the record is lent for that turn alone.
pub(crate) fn feed_row<K: Kernel>(
    kernel: &mut K,
    row: usize,
    kept: &mut RowRecord,
    sum: i64,
    weights: &[u16],
    activations: &[u16],
) -> u64
    ensures facts { (K.Kernel.means kernel.new).facts ≡ (K.Kernel.means kernel.old).facts }
    ensures after { (groups : ℕ) → length weights.now ≡ groups * (K.Kernel.means kernel.old).facts.shape.weight_words → length activations.now ≡ groups * (K.Kernel.means kernel.old).facts.shape.activation_words → FeedsRow (K.Kernel.unpacked (K.Kernel.means kernel.old).facts.shape) (K.Kernel.means kernel.old) row kept.old sum weights.now activations.now groups result (K.Kernel.means kernel.new) kept.new }
{
    kept.weight_sum = kept.weight_sum.wrapping_add(sum);
    step_groups(kernel, row, kept, weights, activations)
}

// One step a group. A row whose steps reach the interval is drained there.
fn step_groups<K: Kernel>(
    kernel: &mut K,
    row: usize,
    kept: &mut RowRecord,
    weights: &[u16],
    activations: &[u16],
) -> u64
    ensures facts { (K.Kernel.means kernel.new).facts ≡ (K.Kernel.means kernel.old).facts }
    ensures after { (groups : ℕ) → length weights.now ≡ groups * (K.Kernel.means kernel.old).facts.shape.weight_words → length activations.now ≡ groups * (K.Kernel.means kernel.old).facts.shape.activation_words → StepsRow (K.Kernel.unpacked (K.Kernel.means kernel.old).facts.shape) (K.Kernel.means kernel.old) row kept.old weights.now activations.now groups result (K.Kernel.means kernel.new) kept.new }
{
    let shape = kernel.facts().shape;
    let left = weights.chunks_exact(shape.weight_words);
    let right = activations.chunks_exact(shape.activation_words);
    let mut drains = 0u64;
    for (weights, activations) in left.zip(right) {
        let made = step_group(kernel, row, kept, weights, activations);
        drains = drains.wrapping_add(made);
    }
    drains
}

// One step, and a drain where the row's steps reach the interval.
fn step_group<K: Kernel>(
    kernel: &mut K,
    row: usize,
    kept: &mut RowRecord,
    weights: &[u16],
    activations: &[u16],
) -> u64
    ensures facts { (K.Kernel.means kernel.new).facts ≡ (K.Kernel.means kernel.old).facts }
    ensures after { StepsInto (K.Kernel.unpacked (K.Kernel.means kernel.old).facts.shape) (K.Kernel.means kernel.old) row kept.old weights.now activations.now result (K.Kernel.means kernel.new) kept.new }
{
    // The words were checked, so no step is refused.
    let _ = kernel.step(row, weights, activations);
    let steps = kernel.steps(row).unwrap_or(0);
    if is_full(steps, kernel.facts().interval) {
        drain_row(kernel, row, kept)
    } else {
        0
    }
}

// Drains a row that has steps into its record, and answers how many drains that was.
pub(crate) fn drain_row<K: Kernel>(kernel: &mut K, row: usize, kept: &mut RowRecord) -> u64
    ensures after { DrainedInto (K.Kernel.means kernel.old) row kept.old result (K.Kernel.means kernel.new) kept.new }
{
    if kernel.steps(row).unwrap_or(0) == 0 {
        return 0;
    }
    let total = kernel.drain(row).unwrap_or(0);
    kept.drained = kept.drained.wrapping_add(total);
    1
}

// Whether a row has made all the steps of its interval.
fn is_full(steps: u32, interval: u32) -> bool
    ensures { result ≡ (steps == interval) }
{
    interval == steps
}
