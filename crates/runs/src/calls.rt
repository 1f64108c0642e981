// Calls of a run, and what each answers.
use crate::refusal::{FeedRefusal, ReadRefusal};

#[derive(Clone, Copy, Debug, PartialEq, Eq)]
pub enum Call<'a> {
    // The words of the weights, row after row, and of the activations of so many columns.
    Feed {
        count: usize,
        weights: &'a [u16],
        activations: &'a [u16],
    },
    Settle,
    Read {
        row: usize,
    },
    Resume,
    Clear,
}

// One case an answer, and no Result inside one: the law has a clause for each.
#[derive(Clone, Copy, Debug, PartialEq, Eq)]
pub enum Answer {
    Fed,
    FeedRefused(FeedRefusal),
    Settled,
    // The exact sum of a row, and the steps and drains of all rows, since the start.
    Sum { sum: i32, steps: u64, drains: u64 },
    ReadRefused(ReadRefusal),
    Resumed,
    Cleared,
    // An open run is not read, resumed or cleared; a settled one is not fed or settled.
    Misplaced,
}
