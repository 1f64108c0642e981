// Runs: open ones, which are fed, and settled ones, which are read.
ghost use Rattle.std.specs.Prelude.{◌≡◌, ◌*◌, ◌<◌, []};
ghost use Rattle.runs.specs.Stories.{Story};
ghost use Rattle.runs.specs.Feeds.{feed_columns, FeedPacks};
ghost use Rattle.runs.specs.Tells.{Tells, TellsSettled, nothing_kept, record_at};
ghost use Rattle.runs.specs.Calls.{KeptIfRefused, Feeds, Settles, Reads};
ghost use Rattle.runs.specs.Passes.{Takes, minus_product, plus_columns, corrected_sum};

use crate::checked::Columns;
use crate::feed::{drain_row, feed_row};
use crate::kept::{Kept, accepted_with, counted, steps_of};
use crate::refusal::{FeedRefusal, ReadRefusal};
use crate::sums::check;
use codes::zero_points::ZeroPoints;
use kernels::kernel::Kernel;
use kernels::lists::groups_taken;

// A run that takes columns in.
#[derive(Drop)]
pub struct OpenRun<K: Kernel> {
    kernel: K,
    kept: Kept,
}

// A run whose rows are drained, so that its sums can be read.
#[derive(Drop)]
pub struct SettledRun<K: Kernel> {
    kernel: K,
    kept: Kept,
}

impl<K: Kernel> OpenRun<K> {
    // Opens a run on a kernel: drains its 64 rows and drops what they held.
    pub fn open(mut kernel: K) -> OpenRun<K>
        ensures facts { (K.Kernel.means result.kernel).facts ≡ (K.Kernel.means kernel).facts }
        ensures story { Tells (K.Kernel.means result.kernel) result.kept [] }
    {
        // The rows are the kernel's own, no list to go over.
        for row in 0..64 {
            let _ = kernel.drain(row);
        }
        OpenRun {
            kernel,
            kept: Kept::nothing(),
        }
    }

    // Takes in n columns: the words of their weights, row after row, and of their activations. A refusal changes nothing.
    pub fn feed(
        &mut self,
        count: usize,
        weights: &[u16],
        activations: &[u16],
    ) -> Result<(), FeedRefusal>
        ensures refused { KeptIfRefused result self.old self.new }
        ensures after { Feeds (K.Kernel.unpacked (K.Kernel.means self.old.kernel).facts.shape) count weights.now activations.now result (K.Kernel.means self.old.kernel) self.old.kept (K.Kernel.means self.new.kernel) self.new.kept }
        ensures packs { FeedPacks (K.Kernel.packed (K.Kernel.means self.old.kernel).facts.shape) (K.Kernel.means self.old.kernel).facts count weights.now activations.now (feed_columns (K.Kernel.unpacked (K.Kernel.means self.old.kernel).facts.shape) (K.Kernel.means self.old.kernel).facts count weights.now activations.now) result }
    {
        let columns = check(
            &self.kernel,
            self.kept.accepted,
            count,
            weights,
            activations,
        )?;
        take_in(&mut self.kernel, &mut self.kept, &columns);
        Ok(())
    }

    // Drains each row that has steps.
    pub fn settle(self) -> SettledRun<K>
        ensures after { Settles (K.Kernel.means self.kernel) self.kept (K.Kernel.means result.kernel) result.kept }
    {
        let OpenRun {
            mut kernel,
            mut kept,
        } = self;
        for (row, record) in kept.rows.iter_mut().enumerate() {
            let made = drain_row(&mut kernel, row, record);
            kept.drains = counted(kept.drains, made);
        }
        SettledRun { kernel, kept }
    }
}

impl<K: Kernel> SettledRun<K> {
    // The exact sum of a row, and the steps and drains of all rows, since the start.
    pub fn read(&self, row: usize) -> Result<(i32, u64, u64), ReadRefusal>
        ensures { Reads (K.Kernel.means self.now.kernel) self.now.kept row result }
    {
        let facts = self.kernel.facts();
        if row >= facts.rows {
            return Err(ReadRefusal::Row);
        }
        // The sum of a settled run fits.
        let sum = i32::try_from(corrected_sum(&self.kept, row, facts.zeros)).unwrap_or(0);
        Ok((sum, self.kept.steps, self.kept.drains))
    }

    // Goes on with all sums kept.
    pub fn resume(self) -> OpenRun<K>
        ensures kernel { result.kernel ≡ self.kernel }
        ensures kept { result.kept ≡ self.kept }
    {
        let SettledRun { kernel, kept } = self;
        OpenRun { kernel, kept }
    }

    // Starts anew, with sums, counts and accepted columns at 0.
    pub fn clear(self) -> OpenRun<K>
        ensures kernel { result.kernel ≡ self.kernel }
        ensures kept { result.kept ≡ nothing_kept }
        ensures story { (s : Story) → TellsSettled (K.Kernel.means self.kernel) self.kept s → Tells (K.Kernel.means result.kernel) result.kept [] }
    {
        let SettledRun { kernel, mut kept } = self;
        kept.clear();
        OpenRun { kernel, kept }
    }
}

// The pass over the rows of a feed that was checked: each row takes one step a group.
fn take_in<K: Kernel>(kernel: &mut K, kept: &mut Kept, columns: &Columns)
    ensures facts { (K.Kernel.means kernel.new).facts ≡ (K.Kernel.means kernel.old).facts }
    ensures after { Takes (K.Kernel.unpacked (K.Kernel.means kernel.old).facts.shape) columns.now (K.Kernel.means kernel.old) kept.old (K.Kernel.means kernel.new) kept.new }
{
    let facts = kernel.facts();
    let groups = groups_taken(facts, columns.count);
    let size = groups * facts.shape.weight_words;
    let parts = columns.weights.chunks_exact(size);
    // The records are indexed, since a `zip` over `iter_mut` leaves open what it wrote.
    for (row, weights) in (0..facts.rows).zip(parts) {
        let sum = columns.weight_sums[row];
        let record = &mut kept.rows[row];
        let made = feed_row(kernel, row, record, sum, weights, columns.activations);
        kept.drains = counted(kept.drains, made);
    }
    kept.activation_sum = kept.activation_sum.wrapping_add(columns.activation_sum);
    kept.accepted = accepted_with(kept.accepted, columns.count);
    kept.steps = counted(kept.steps, steps_of(facts.rows, groups));
}

// The sum of a row's products less what the zero points add to it. Sums on the way may wrap; what a run reads never does.
fn corrected_sum(kept: &Kept, row: usize, zeros: ZeroPoints) -> i64
    requires { row < 64 }
    ensures { result ≡ corrected_sum zeros (record_at kept.now row).drained (record_at kept.now row).weight_sum kept.now.activation_sum kept.now.accepted }
{
    let of_row = kept.rows[row];
    let less = minus_product(of_row.drained, zeros.activation, of_row.weight_sum);
    let least = minus_product(less, zeros.weight, kept.activation_sum);
    plus_columns(least, kept.accepted, zeros)
}

fn minus_product(from: i64, zero: i16, sum: i64) -> i64
    ensures { result ≡ minus_product from zero sum }
{
    from.wrapping_sub(i64::from(zero).wrapping_mul(sum))
}

// The product of the zero points is added once a column: fill has no columns.
fn plus_columns(from: i64, columns: u32, zeros: ZeroPoints) -> i64
    ensures { result ≡ plus_columns from columns zeros }
{
    let both = i64::from(zeros.weight).wrapping_mul(i64::from(zeros.activation));
    from.wrapping_add(i64::from(columns).wrapping_mul(both))
}
