// Why a call of a run refuses.
ghost use Rattle.std.specs.Prelude.{◌≡◌};
ghost use Rattle.runs.specs.Refusals.{feed_number, read_number};

// Columns are not taken in. Cases that hold places have no numbers of their own to cast, so `number` gives them.
#[derive(Clone, Copy, Debug, PartialEq, Eq)]
pub enum FeedRefusal {
    // No columns.
    NoColumns,
    // More columns than the run may still accept.
    TooMany,
    // Not exactly the words that the weights of all rows take.
    WeightLength,
    // Not exactly the words that the activations take.
    ActivationLength,
    // This group of this row, the first one, is not the packing of its codes.
    Weights { row: usize, group: usize },
    // This group of the activations, the first one, is not the packing of its codes.
    Activations { group: usize },
}

impl FeedRefusal {
    pub fn number(self) -> u8
        ensures { result ≡ feed_number self }
    {
        match self {
            FeedRefusal::NoColumns => 31,
            FeedRefusal::TooMany => 32,
            FeedRefusal::WeightLength => 33,
            FeedRefusal::ActivationLength => 34,
            FeedRefusal::Weights { row: _, group: _ } => 35,
            FeedRefusal::Activations { group: _ } => 36,
        }
    }
}

// A row is not read.
#[derive(Clone, Copy, Debug, PartialEq, Eq)]
pub enum ReadRefusal {
    // The run has no such row.
    Row = 41,
}

impl ReadRefusal {
    pub fn number(self) -> u8
        ensures { result ≡ read_number self }
    {
        self as u8
    }
}
