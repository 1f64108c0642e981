// What a row of bit planes keeps: its steps since the last drain, and a lane of 32 bits.
ghost use Rattle.std.specs.Prelude.{◌≡◌, ◌+◌, ◌^◌, ◌<◌};
ghost use Rattle.planes.specs.Rows.{empty_row};

use kernels::table::Row;

#[derive(Clone, Copy)]
pub(crate) struct PlanesRow {
    pub(crate) steps: u32,
    pub(crate) lane: u32,
}

impl PlanesRow {
    // Adds the sum over the planes of a group, for which the lane has room.
    pub(crate) fn add(&mut self, sum: u32)
        requires steps { self.old.steps < 65536 }
        requires lane { self.old.lane + sum < 2 ^ 32 }
        ensures steps { self.new.steps ≡ self.old.steps + 1 }
        ensures lane { self.new.lane ≡ self.old.lane + sum }
    {
        self.lane += sum;
        self.steps += 1;
    }
}

impl Row for PlanesRow {
    ghost empty = { empty_row };

    fn empty() -> PlanesRow {
        PlanesRow { steps: 0, lane: 0 }
    }

    fn clear(&mut self) {
        self.steps = 0;
        self.lane = 0;
    }
}
