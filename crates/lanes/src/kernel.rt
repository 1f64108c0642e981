// The kernel of both makes: lanes in the words of a group, and accumulators of which one lane is read.
ghost use Rattle.std.specs.Prelude.{◌≡◌, ℕ, ◌*◌, ◌^◌, ◌<◌, ◌≤◌, get_or, OnOk, slice_index_or};
ghost use Rattle.kernels.specs.Answers.{step_answer, step_gain};
ghost use Rattle.kernels.specs.Allowed.{StepAllowed};
ghost use Rattle.lanes.specs.Words.{packed_lanes, unpacked_lanes};
ghost use Rattle.lanes.specs.Rows.{RowHolds, most_of};
ghost use Rattle.lanes.specs.Tables.{empty_row, lanes_means};
ghost use Rattle.lanes.specs.Packings.{packs_at, unpacks_at};
ghost use Rattle.lanes.specs.Sizes.{laid};

use crate::accumulator::Accumulator;
use crate::lanes::Lanes;
use crate::make::LaneMake;
use crate::row::LaneRow;
use codes::facts::Facts;
use codes::side::Side;
use kernels::kernel::Kernel;
use kernels::planned::Planned;
use kernels::refusal::{CodeRefusal, PackRefusal, RowRefusal, StepRefusal};
use kernels::table::{Row, row_at, take_row};
use plans::plan::Plan;
use std::marker::PhantomData;

// A kernel of lanes: its lanes, and its rows, in memory of a fixed size. No row's total leaves its lane.
#[derive(Drop)]
pub struct LaneKernel<M: LaneMake> {
    lanes: Lanes,
    rows: [LaneRow<M::Accumulator>; 64],
    make: PhantomData<M>,
    ghost width_rule: { lanes.width ≡ M.width lanes.facts.shape },
    ghost word_rule: { lanes.width * lanes.depth ≤ M.Accumulator.bits },
    ghost lane_rule: { lanes.facts.interval * most_of lanes.depth lanes.weight_size lanes.activation_size < 2 ^ lanes.width },
    ghost rows_rule: { (row : ℕ) → RowHolds lanes.width lanes.depth (most_of lanes.depth lanes.weight_size lanes.activation_size) lanes.facts.interval (get_or rows row (empty_row M.Accumulator.ZERO)).steps (M.Accumulator.value (get_or rows row (empty_row M.Accumulator.ZERO)).accumulator) },
}

impl<M: LaneMake> Kernel for LaneKernel<M> {
    ghost means = { λ k. lanes_means M.Accumulator.ZERO M.Accumulator.value k.lanes.width k.lanes.depth k.lanes.facts k.rows };

    ghost packed = { λ s. packed_lanes (M.width s) s };

    ghost unpacked = { λ s. unpacked_lanes (M.width s) s };

    ghost packs = { λ k.
        let l = k.lanes in
        packs_at l.facts.shape l.width (M.width l.facts.shape) l.depth l.weight_size l.activation_size k.width_rule l.shape_rule (laid l) };

    ghost unpacks = { λ k.
        let l = k.lanes in
        unpacks_at l.facts.shape (M.width l.facts.shape) l.depth l.weight_size l.activation_size l.shape_rule };

    fn facts(&self) -> Facts {
        self.lanes.facts
    }

    // These calls stand in each make: a function for them would be no shorter.
    fn steps(&self, row: usize) -> Result<u32, RowRefusal> {
        self.rows
            .get(row)
            .map(|record| record.steps)
            .ok_or(RowRefusal::Row)
    }

    fn pack_group(&self, side: Side, codes: &[i16], words: &mut [u16]) -> Result<(), PackRefusal> {
        self.lanes.pack_group(side, codes, words)
    }

    fn read_code(&self, side: Side, words: &[u16], place: usize) -> Result<i16, CodeRefusal> {
        self.lanes.read_code(side, words, place)
    }

    fn step(
        &mut self,
        row: usize,
        weights: &[u16],
        activations: &[u16],
    ) -> Result<(), StepRefusal> {
        self.ask(row, weights, activations)?;
        let record = &mut self.rows[row];
        record.add(weights[0], activations[0]);
        Ok(())
    }

    fn drain(&mut self, row: usize) -> Result<i64, RowRefusal> {
        let drained = take_row(&mut self.rows, row)?;
        Ok(self.lanes.read(drained.accumulator.value()) as i64)
    }
}

impl<M: LaneMake> Planned for LaneKernel<M> {
    type Plan = Plan<M>;

    fn of_plan(plan: Plan<M>) -> LaneKernel<M> {
        LaneKernel {
            lanes: Lanes::of_plan(&plan),
            rows: [LaneRow::empty(); 64],
            make: PhantomData,
        }
    }
}

impl<M: LaneMake> LaneKernel<M> {
    // The questions of a step, in their order.
    fn ask(&self, row: usize, weights: &[u16], activations: &[u16]) -> Result<(), StepRefusal>
        ensures answer { result ≡ step_answer (step_gain (unpacked_lanes (M.width self.now.lanes.facts.shape) self.now.lanes.facts.shape) self.now.lanes.facts row (get_or self.now.rows row (empty_row M.Accumulator.ZERO)).steps weights.now activations.now) }
        ensures yes { OnOk result (StepAllowed (unpacked_lanes self.now.lanes.width self.now.lanes.facts.shape) self.now.lanes.facts row (get_or self.now.rows row (empty_row M.Accumulator.ZERO)).steps weights.now activations.now) }
    {
        self.lanes
            .ask_step(row, row_at(&self.rows, row).steps, weights, activations)
    }
}
