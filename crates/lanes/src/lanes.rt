// The lanes of one word: where the codes of a group stand in it, and what is read of it.
ghost use Rattle.std.specs.Prelude.{◌≡◌, ◌+◌, ◌-◌, ◌*◌, ◌^◌, ◌<◌, ◌≤◌, true, length, pos, slice_index_or};
ghost use Rattle.std.specs.List.{AllByRecursion};
ghost use Rattle.codes.specs.Codes.{Range, Within};
ghost use Rattle.plans.specs.Kinds.{bit_ends};
ghost use Rattle.lanes.specs.Lanes.{lane_for, lane_of, word_from, read_lane};
ghost use Rattle.lanes.specs.Words.{is_packed_word, is_packing, codes_in, mask_of};
ghost use Rattle.lanes.specs.Rows.{SizeFits, ShapeFits, size_on};
ghost use Rattle.lanes.specs.Makes.{Kept};
ghost use Rattle.plans.specs.Plans.{FactsOf};

use crate::make::LaneMake;
use codes::facts::Facts;
use codes::side::Side;
use plans::checked_plan::CheckedPlan;
use plans::plan::Plan;

// What a kernel keeps to, the bits of a lane, the codes of a word, the bits of the codes of each side, and the mask of each
// side: the word of its highest codes. A word is a packing just where it has no bit outside the mask of its side.
#[derive(Clone, Copy)]
pub(crate) struct Lanes {
    pub(crate) facts: Facts,
    width: u32,
    depth: u32,
    weight_size: u32,
    activation_size: u32,
    weight_mask: u16,
    activation_mask: u16,
    ghost shape_rule: { ShapeFits facts.shape depth weight_size activation_size },
    ghost width_rule: { width ≤ 16 },
    ghost depth_rule: { Range 1 8 depth },
    ghost weights_rule: { SizeFits width depth weight_size },
    ghost activations_rule: { SizeFits width depth activation_size },
    ghost weight_mask_rule: { weight_mask ≡ mask_of width depth weight_size },
    ghost activation_mask_rule: { activation_mask ≡ mask_of width depth activation_size },
}

impl Lanes {
    // The lanes of a plan's words.
    pub(crate) fn of_plan<M: LaneMake>(plan: &Plan<M>) -> Lanes
        ensures facts { FactsOf M.PlanKind.KIND plan.now.numbers result.facts }
        ensures width { result.width ≡ M.width result.facts.shape }
        ensures kept { Kept M.Accumulator.bits result.facts result.width result.depth result.weight_size result.activation_size }
    {
        let facts = plan.facts();
        let numbers = plan.numbers();
        let width = M::lane_width(plan);
        let depth = numbers.depth as u32;
        let weight_size = numbers.weight_size as u32;
        let activation_size = numbers.activation_size as u32;
        Lanes {
            facts,
            width,
            depth,
            weight_size,
            activation_size,
            weight_mask: mask_of(width, depth, weight_size),
            activation_mask: mask_of(width, depth, activation_size),
        }
    }

    // The word of a group of codes, of which those past the end are 0.
    pub(crate) fn word(&self, side: Side, codes: &[i16]) -> u16
        requires count { length codes.now ≤ self.now.depth }
        requires within { AllByRecursion (Within (bit_ends (size_on self.now.weight_size self.now.activation_size side))) codes.now }
        ensures { result ≡ word_from self.now.width self.now.depth side 0 codes.now }
    {
        let mut word = 0u32;
        for (place, code) in codes.iter().enumerate() {
            word += (code.unsigned_abs() as u32) << (self.width * self.lane(side, place as u32));
        }
        word as u16
    }

    // Whether these are one word, and a packing.
    pub(crate) fn is_packing(&self, side: Side, words: &[u16]) -> bool
        ensures { result ≡ is_packing (2 ^ self.now.width) self.now.depth (2 ^ size_on self.now.weight_size self.now.activation_size side - 1) words.now }
    {
        words.len() == 1 && self.is_word(side, words[0])
    }

    // The code at a place of a packing.
    pub(crate) fn code(&self, side: Side, word: u16, place: usize) -> i16
        requires there { place < self.now.depth }
        requires packs { is_packed_word (2 ^ self.now.width) self.now.depth (2 ^ size_on self.now.weight_size self.now.activation_size side - 1) word ≡ true }
        ensures { result ≡ slice_index_or (codes_in (2 ^ self.now.width) self.now.depth side word) place (pos 0) }
    {
        lane_of(word as u32, self.width, self.lane(side, place as u32)) as i16
    }

    // The total that an accumulator holds. What climbs above the lane that is read is lost on purpose.
    pub(crate) fn read(&self, accumulator: u32) -> u32
        ensures { result ≡ read_lane self.now.width self.now.depth accumulator }
    {
        lane_of(accumulator, self.width, self.depth - 1)
    }

    // Whether a word is a packing: no bit stands outside the mask of its side.
    fn is_word(&self, side: Side, word: u16) -> bool
        ensures { result ≡ is_packed_word (2 ^ self.now.width) self.now.depth (2 ^ size_on self.now.weight_size self.now.activation_size side - 1) word }
    {
        word & !self.mask(side) == 0
    }

    // The word of the highest codes of a side.
    fn mask(&self, side: Side) -> u16
        ensures { result ≡ mask_of self.now.width self.now.depth (size_on self.now.weight_size self.now.activation_size side) }
    {
        match side {
            Side::Weights => self.weight_mask,
            Side::Activations => self.activation_mask,
        }
    }

    // The lane of a place: weights stand the other way round, so that the products of a group meet in one lane.
    fn lane(&self, side: Side, place: u32) -> u32
        requires { place < self.now.depth }
        ensures { result ≡ lane_for side self.now.depth place }
    {
        match side {
            Side::Weights => self.depth - 1 - place,
            Side::Activations => place,
        }
    }
}

// The word of a full group of highest codes of that many bits.
fn mask_of(width: u32, depth: u32, size: u32) -> u16
    requires width { width ≤ 16 }
    requires depth { Range 1 8 depth }
    requires size { SizeFits width depth size }
    ensures { result ≡ mask_of width depth size }
{
    let high = (1u32 << size) - 1;
    let mut mask = 0u32;
    // Once a lane: nothing is indexed.
    for _lane in 0..depth {
        mask = (mask << width) + high;
    }
    mask as u16
}

// What a lane of a word holds.
fn lane_of(word: u32, width: u32, lane: u32) -> u32
    requires width { width ≤ 16 }
    requires lane { width * lane ≤ 16 }
    ensures { result ≡ lane_of width lane word }
{
    (word >> (width * lane)) & ((1u32 << width) - 1)
}
