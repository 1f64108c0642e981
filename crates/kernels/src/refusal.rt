// Why a call of a kernel, or of what is written over kernels, refuses.
ghost use Rattle.std.specs.Prelude.{◌≡◌};
ghost use Rattle.kernels.specs.Refusals.{pack_number, unpack_number, code_number, row_number, step_number};

// Codes are not packed. Cases that hold places have no numbers of their own to cast, so `number` gives them,
// here and of `UnpackRefusal`.
#[derive(Clone, Copy, Debug, PartialEq, Eq)]
pub enum PackRefusal {
    // No codes, or more than may be packed at once.
    Count,
    // Not exactly the words that are needed.
    Words,
    // The code at this place, the first one, lies outside its ends.
    Code { place: usize },
}

impl PackRefusal {
    pub fn number(self) -> u8
        ensures { result ≡ pack_number self }
    {
        match self {
            PackRefusal::Count => 11,
            PackRefusal::Words => 12,
            PackRefusal::Code { place: _ } => 13,
        }
    }
}

// Words are not unpacked.
#[derive(Clone, Copy, Debug, PartialEq, Eq)]
pub enum UnpackRefusal {
    // No codes, or more than may be unpacked at once.
    Count,
    // Not exactly the words that are needed.
    Words,
    // This group, the first one, is not the packing of its codes.
    Group { group: usize },
}

impl UnpackRefusal {
    pub fn number(self) -> u8
        ensures { result ≡ unpack_number self }
    {
        match self {
            UnpackRefusal::Count => 11,
            UnpackRefusal::Words => 12,
            UnpackRefusal::Group { group: _ } => 14,
        }
    }
}

// A code of a packed group is not read.
#[derive(Clone, Copy, Debug, PartialEq, Eq)]
pub enum CodeRefusal {
    Place = 11, // The place is past the group.
    Length = 22, // Not the words of one group.
    Packing = 23, // The words are no packing.
}

impl CodeRefusal {
    pub fn number(self) -> u8
        ensures { result ≡ code_number self }
    {
        self as u8 // 11, 22 or 23
    }
}

// A row is not drained, or not asked for its steps.
#[derive(Clone, Copy, Debug, PartialEq, Eq)]
pub enum RowRefusal {
    Row = 21, // There is no such row.
}

impl RowRefusal {
    pub fn number(self) -> u8
        ensures { result ≡ row_number self }
    {
        self as u8
    }
}

// A row takes no step.
#[derive(Clone, Copy, Debug, PartialEq, Eq)]
pub enum StepRefusal {
    Row = 21, // There is no such row.
    Length = 22, // Not the words of one group, on one side or both.
    Packing = 23, // The words are no packing, on one side or both.
    Interval = 24, // The row has made all the steps of its interval.
}

impl StepRefusal {
    pub fn number(self) -> u8
        ensures { result ≡ step_number self }
    {
        self as u8 // 21 to 24
    }
}
