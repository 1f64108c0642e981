// The make of bit planes: 16 codes a group, one word for each of their bits, and lanes of 32 bits.
ghost use Rattle.std.specs.Prelude.{◌≡◌, ℕ, ◌*◌, ◌^◌, ◌<◌, get_or, OnOk, slice_index_or};
ghost use Rattle.kernels.specs.Answers.{step_answer, step_gain};
ghost use Rattle.kernels.specs.Allowed.{StepAllowed};
ghost use Rattle.planes.specs.Planes.{packed_planes, unpacked_planes};
ghost use Rattle.planes.specs.Rows.{ShapeFits, RowHolds, most_of, empty_row, planes_means};
ghost use Rattle.planes.specs.Packings;

use crate::planes_row::PlanesRow;
use crate::words::{PlaneWords, write_planes};
use codes::facts::Facts;
use codes::side::Side;
use kernels::kernel::Kernel;
use kernels::planned::Planned;
use kernels::questions::{ask_code, ask_group, ask_step, lengths_fit, may_step};
use kernels::refusal::{CodeRefusal, PackRefusal, RowRefusal, StepRefusal};
use kernels::table::{Row, row_at, take_row};
use plans::checked_plan::CheckedPlan;
use plans::plan::PlanesPlan;

// A kernel of bit planes: what it keeps to, and its rows, in memory of a fixed size. No row's total leaves its lane within an interval.
#[derive(Drop)]
pub struct Planes {
    facts: Facts,
    rows: [PlanesRow; 64],
    ghost shape_rule: { ShapeFits facts.shape },
    ghost lane_rule: { facts.interval * most_of facts.shape < 2 ^ 32 },
    ghost rows_rule: { (row : ℕ) → RowHolds (most_of facts.shape) (slice_index_or rows row empty_row) },
}

impl Kernel for Planes {
    ghost means = { λ k. planes_means k.facts k.rows };

    ghost packed = { packed_planes };

    ghost unpacked = { unpacked_planes };

    ghost packs = { λ k. Packings.packs k.facts.shape k.shape_rule };

    ghost unpacks = { λ k. Packings.unpacks k.facts.shape k.shape_rule };

    fn facts(&self) -> Facts {
        self.facts
    }

    // These calls stand in each make: a function for them would be no shorter.
    fn steps(&self, row: usize) -> Result<u32, RowRefusal> {
        self.rows
            .get(row)
            .map(|record| record.steps)
            .ok_or(RowRefusal::Row)
    }

    fn pack_group(&self, side: Side, codes: &[i16], words: &mut [u16]) -> Result<(), PackRefusal> {
        ask_group(&self.facts.shape, side, codes, words.len())?;
        write_planes(codes, words);
        Ok(())
    }

    fn read_code(&self, side: Side, words: &[u16], place: usize) -> Result<i16, CodeRefusal> {
        ask_code(&self.facts.shape, side, words.len(), true, place)?;
        Ok(PlaneWords { words }.code_at(place))
    }

    fn step(
        &mut self,
        row: usize,
        weights: &[u16],
        activations: &[u16],
    ) -> Result<(), StepRefusal> {
        self.ask(row, weights, activations)?;
        let weights = PlaneWords { words: weights };
        let activations = PlaneWords { words: activations };
        let sum = weights.sum_with(&activations);
        let record = &mut self.rows[row];
        record.add(sum);
        Ok(())
    }

    fn drain(&mut self, row: usize) -> Result<i64, RowRefusal> {
        let drained = take_row(&mut self.rows, row)?;
        Ok(drained.lane as i64)
    }
}

impl Planned for Planes {
    type Plan = PlanesPlan;

    fn of_plan(plan: PlanesPlan) -> Planes {
        Planes {
            facts: plan.facts(),
            rows: [PlanesRow::empty(); 64],
        }
    }
}

impl Planes {
    // The questions of a step, in their order. Any words of the right number are packings.
    fn ask(&self, row: usize, weights: &[u16], activations: &[u16]) -> Result<(), StepRefusal>
        ensures answer { result ≡ step_answer (step_gain (unpacked_planes self.now.facts.shape) self.now.facts row (get_or self.now.rows row empty_row).steps weights.now activations.now) }
        ensures yes { OnOk result (StepAllowed (unpacked_planes self.now.facts.shape) self.now.facts row (get_or self.now.rows row empty_row).steps weights.now activations.now) }
    {
        ask_step(
            row < 64,
            lengths_fit(&self.facts.shape, weights.len(), activations.len()),
            true,
            may_step(&self.facts, row_at(&self.rows, row).steps),
        )
    }
}
