// The kernel of signed split sums.
ghost use Rattle.std.specs.Prelude.{◌≡◌, ℕ, ◌&&◌, ◌*◌, ◌^◌, ◌<◌, get_or, OnOk, slice_index_or};
ghost use Rattle.kernels.specs.Answers.{step_answer, step_gain};
ghost use Rattle.kernels.specs.Allowed.{StepAllowed};
ghost use Rattle.codes.specs.declared.side.Side.TheVariants.{Weights, Activations};
ghost use Rattle.codes.specs.Shapes.{ends_on};
ghost use Rattle.split.specs.Words.{packed_split, unpacked_split, is_packing};
ghost use Rattle.split.specs.Rows.{ShapeFits, RowHolds, most_of};
ghost use Rattle.split.specs.Tables.{empty_row, split_means};
ghost use Rattle.split.specs.Packings;

use crate::bytes::{code_at, is_word, word_of};
use crate::split_row::SplitRow;
use codes::facts::Facts;
use codes::side::Side;
use kernels::kernel::Kernel;
use kernels::planned::Planned;
use kernels::questions::{ask_code, ask_group, ask_step, lengths_fit, may_step};
use kernels::refusal::{CodeRefusal, PackRefusal, RowRefusal, StepRefusal};
use kernels::table::{Row, row_at, take_row};
use plans::checked_plan::CheckedPlan;
use plans::plan::SplitPlan;

// A kernel of signed split sums: what it keeps to, and its rows, in memory of a fixed size. No lane leaves the 16 bits of its number.
#[derive(Drop)]
pub struct Split {
    facts: Facts,
    rows: [SplitRow; 64],
    ghost shape_rule: { ShapeFits facts.shape },
    ghost lane_rule: { facts.interval * most_of facts.shape < 2 ^ 15 },
    ghost rows_rule: { (row : ℕ) → RowHolds (most_of facts.shape) facts.interval (slice_index_or rows row empty_row) },
}

impl Kernel for Split {
    ghost means = { λ k. split_means k.facts k.rows };

    ghost packed = { packed_split };

    ghost unpacked = { unpacked_split };

    ghost packs = { λ k. Packings.packs k.facts.shape k.shape_rule };

    ghost unpacks = { λ k. Packings.unpacks k.facts.shape k.shape_rule };

    fn facts(&self) -> Facts {
        self.facts
    }

    // These calls stand in each make: a function for them would be no shorter.
    fn steps(&self, row: usize) -> Result<u32, RowRefusal> {
        self.rows
            .get(row)
            .map(|record| record.steps)
            .ok_or(RowRefusal::Row)
    }

    fn pack_group(&self, side: Side, codes: &[i16], words: &mut [u16]) -> Result<(), PackRefusal> {
        ask_group(&self.facts.shape, side, codes, words.len())?;
        words[0] = word_of(codes);
        Ok(())
    }

    fn read_code(&self, side: Side, words: &[u16], place: usize) -> Result<i16, CodeRefusal> {
        let packing = self.is_packing(side, words);
        ask_code(&self.facts.shape, side, words.len(), packing, place)?;
        Ok(code_at(words[0], place))
    }

    fn step(
        &mut self,
        row: usize,
        weights: &[u16],
        activations: &[u16],
    ) -> Result<(), StepRefusal> {
        self.ask(row, weights, activations)?;
        let record = &mut self.rows[row];
        record.add(weights[0], activations[0]);
        Ok(())
    }

    fn drain(&mut self, row: usize) -> Result<i64, RowRefusal> {
        let drained = take_row(&mut self.rows, row)?;
        Ok(drained.total())
    }
}

impl Planned for Split {
    type Plan = SplitPlan;

    fn of_plan(plan: SplitPlan) -> Split {
        Split {
            facts: plan.facts(),
            rows: [SplitRow::empty(); 64],
        }
    }
}

impl Split {
    // The questions of a step, in their order.
    fn ask(&self, row: usize, weights: &[u16], activations: &[u16]) -> Result<(), StepRefusal>
        ensures answer { result ≡ step_answer (step_gain (unpacked_split self.now.facts.shape) self.now.facts row (get_or self.now.rows row empty_row).steps weights.now activations.now) }
        ensures yes { OnOk result (StepAllowed (unpacked_split self.now.facts.shape) self.now.facts row (get_or self.now.rows row empty_row).steps weights.now activations.now) }
    {
        ask_step(
            row < 64,
            lengths_fit(&self.facts.shape, weights.len(), activations.len()),
            self.are_packings(weights, activations),
            may_step(&self.facts, row_at(&self.rows, row).steps),
        )
    }

    // Whether both sides are packings.
    fn are_packings(&self, weights: &[u16], activations: &[u16]) -> bool
        ensures { result ≡ (is_packing (ends_on self.now.facts.shape Weights) weights.now && is_packing (ends_on self.now.facts.shape Activations) activations.now) }
    {
        self.is_packing(Side::Weights, weights) && self.is_packing(Side::Activations, activations)
    }

    // Whether these are one word, and a packing of that side.
    fn is_packing(&self, side: Side, words: &[u16]) -> bool
        ensures { result ≡ is_packing (ends_on self.now.facts.shape side) words.now }
    {
        words.len() == 1 && is_word(self.facts.shape.ends(side), words[0])
    }
}
