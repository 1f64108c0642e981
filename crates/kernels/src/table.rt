// The records of a kernel's rows.
ghost use Rattle.std.specs.Prelude.{◌≡◌, is_ok, if◌then◌else◌, slice_index_or, slice_set};
ghost use Rattle.kernels.specs.Answers.{row_answer};

use crate::refusal::RowRefusal;

// What a row of a kernel keeps.
pub trait Row: Copy {
    ghost empty: { Self };

    // A row with total and steps 0.
    fn empty() -> Self
        ensures { result ≡ empty };

    // Sets total and steps to 0.
    fn clear(&mut self)
        ensures { self.new ≡ empty };
}

// The record of a row. Past the table stand empty records.
pub fn record_at<R: Copy>(records: &[R], row: usize, empty: R) -> R
    ensures { result ≡ slice_index_or records.now row empty }
{
    records.get(row).copied().unwrap_or(empty)
}

// What a row keeps. Past the table stand empty rows.
pub fn row_at<R: Row>(rows: &[R], row: usize) -> R
    ensures { result ≡ slice_index_or rows.now row R.empty }
{
    record_at(rows, row, R::empty())
}

// Answers what a row kept, and empties it.
pub fn take_row<R: Row>(rows: &mut [R; 64], row: usize) -> Result<R, RowRefusal>
    ensures answer { result ≡ row_answer row (slice_index_or rows.old row R.empty) }
    ensures after { rows.new ≡ (if is_ok result then slice_set rows.old row R.empty else rows.old) }
{
    if row >= 64 {
        return Err(RowRefusal::Row);
    }
    let kept = rows[row];
    let taken = &mut rows[row];
    taken.clear();
    Ok(kept)
}
