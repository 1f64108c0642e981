// What a row of a lane kernel keeps: its steps since the last drain, and an accumulator.
ghost use Rattle.std.specs.Prelude.{◌≡◌, ◌+◌, ◌*◌, ◌%◌, ◌^◌, ◌<◌};
ghost use Rattle.lanes.specs.Tables.{empty_row};

use crate::accumulator::Accumulator;
use kernels::table::Row;

#[derive(Clone, Copy)]
pub(crate) struct LaneRow<A> {
    pub(crate) steps: u32,
    pub(crate) accumulator: A,
}

impl<A: Accumulator> LaneRow<A> {
    // Adds the product of two words, cut to the bits of the accumulator.
    pub(crate) fn add(&mut self, weights: u16, activations: u16)
        requires { self.old.steps < 65536 }
        ensures steps { self.new.steps ≡ self.old.steps + 1 }
        ensures accumulator { A.value self.new.accumulator ≡ (A.value self.old.accumulator + (weights * activations) % 2 ^ A.bits) % 2 ^ A.bits }
    {
        self.accumulator = self.accumulator.add_product(weights, activations);
        self.steps += 1;
    }
}

impl<A: Accumulator> Row for LaneRow<A> {
    ghost empty = { empty_row A.ZERO };

    fn empty() -> LaneRow<A> {
        LaneRow {
            steps: 0,
            accumulator: A::ZERO,
        }
    }

    fn clear(&mut self) {
        self.steps = 0;
        self.accumulator = A::ZERO;
    }
}
