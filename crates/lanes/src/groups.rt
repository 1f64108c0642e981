// What both makes do with groups: packing one, reading a code of one, and the questions of a step. A clause that takes a
// width holds at the width of the lanes, by whatever name a make has for it.
ghost use Rattle.std.specs.Prelude.{◌≡◌, ℕ, ◌-◌, ◌^◌, ◌&&◌, length, is_ok, if◌then◌else◌, OnOk, nat_lt};
ghost use Rattle.kernels.specs.Groups.{filled};
ghost use Rattle.kernels.specs.Answers.{group_answer, code_answer, step_answer, step_gain};
ghost use Rattle.kernels.specs.Allowed.{StepAllowed};
ghost use Rattle.lanes.specs.Words.{packed_lanes, unpacked_lanes, is_packing};

use crate::lanes::Lanes;
use codes::side::Side;
use kernels::questions::{ask_code, ask_group, ask_step, lengths_fit, may_step};
use kernels::refusal::{CodeRefusal, PackRefusal, StepRefusal};

impl Lanes {
    // Packs a group of codes into its word.
    pub(crate) fn pack_group(
        &self,
        side: Side,
        codes: &[i16],
        words: &mut [u16],
    ) -> Result<(), PackRefusal>
        ensures answer { result ≡ group_answer self.now.facts.shape side codes.now (length words.old) }
        ensures after { (width : ℕ) → self.now.width ≡ width → words.new ≡ (if is_ok result then packed_lanes width self.now.facts.shape side (filled self.now.facts.shape.group codes.now) else words.old) }
    {
        ask_group(&self.facts.shape, side, codes, words.len())?;
        words[0] = self.word(side, codes);
        Ok(())
    }

    // The code at a place of a packed group.
    pub(crate) fn read_code(
        &self,
        side: Side,
        words: &[u16],
        place: usize,
    ) -> Result<i16, CodeRefusal>
        ensures { (width : ℕ) → self.now.width ≡ width → result ≡ code_answer (unpacked_lanes width self.now.facts.shape) self.now.facts.shape side words.now place }
    {
        ask_code(
            &self.facts.shape,
            side,
            words.len(),
            self.is_packing(side, words),
            place,
        )?;
        Ok(self.code(side, words[0], place))
    }

    // The questions of a step of a row that has made so many steps.
    pub(crate) fn ask_step(
        &self,
        row: usize,
        steps: u32,
        weights: &[u16],
        activations: &[u16],
    ) -> Result<(), StepRefusal>
        ensures answer { (width : ℕ) → self.now.width ≡ width → result ≡ step_answer (step_gain (unpacked_lanes width self.now.facts.shape) self.now.facts row steps weights.now activations.now) }
        ensures yes { OnOk result (StepAllowed (unpacked_lanes self.now.width self.now.facts.shape) self.now.facts row steps weights.now activations.now) }
    {
        ask_step(
            row < 64,
            lengths_fit(&self.facts.shape, weights.len(), activations.len()),
            self.are_packings(weights, activations),
            self.may_step(steps),
        )
    }

    // Whether both sides are packings.
    fn are_packings(&self, weights: &[u16], activations: &[u16]) -> bool
        ensures { result ≡ (is_packing (2 ^ self.now.width) self.now.depth (2 ^ self.now.weight_size - 1) weights.now && is_packing (2 ^ self.now.width) self.now.depth (2 ^ self.now.activation_size - 1) activations.now) }
    {
        self.is_packing(Side::Weights, weights) && self.is_packing(Side::Activations, activations)
    }

    // Whether a row that has made so many steps may make one more before it is drained.
    fn may_step(&self, steps: u32) -> bool
        ensures { result ≡ nat_lt steps self.now.facts.interval }
    {
        may_step(&self.facts, steps)
    }
}
