// What a row keeps: its steps since the last drain, and a lane for each place of a group.
ghost use Rattle.std.specs.Prelude.{◌≡◌, ◌+◌, ◌<◌, ◌+ℤ◌};
ghost use Rattle.split.specs.Lanes.{product_at, InLane};
ghost use Rattle.split.specs.Tables.{empty_row};

use crate::bytes::code_at;
use kernels::table::Row;

#[derive(Clone, Copy)]
pub(crate) struct SplitRow {
    pub(crate) steps: u32,
    first: i16,
    second: i16,
}

impl SplitRow {
    // Adds the product of the first codes to the first lane, and of the second codes to the second.
    pub(crate) fn add(&mut self, weights: u16, activations: u16)
        requires steps { self.old.steps < 65536 }
        requires first { InLane (self.old.first +ℤ product_at 0 weights activations) }
        requires second { InLane (self.old.second +ℤ product_at 1 weights activations) }
        ensures steps { self.new.steps ≡ self.old.steps + 1 }
        ensures first { self.new.first ≡ self.old.first +ℤ product_at 0 weights activations }
        ensures second { self.new.second ≡ self.old.second +ℤ product_at 1 weights activations }
    {
        self.first += product_at(weights, activations, 0);
        self.second += product_at(weights, activations, 1);
        self.steps += 1;
    }

    // The total of a row: the sum of its lanes.
    pub(crate) fn total(&self) -> i64
        ensures { result ≡ self.now.first +ℤ self.now.second }
    {
        self.first as i64 + self.second as i64
    }
}

impl Row for SplitRow {
    ghost empty = { empty_row };

    fn empty() -> SplitRow {
        SplitRow {
            steps: 0,
            first: 0,
            second: 0,
        }
    }

    fn clear(&mut self) {
        self.steps = 0;
        self.first = 0;
        self.second = 0;
    }
}

// The product of the codes at a place of two words.
fn product_at(weights: u16, activations: u16, place: usize) -> i16
    requires { place < 2 }
    ensures { result ≡ product_at place weights activations }
{
    code_at(weights, place) * code_at(activations, place)
}
