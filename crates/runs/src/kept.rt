// What a run keeps beside its kernel, since its start.
ghost use Rattle.std.specs.Prelude.{◌≡◌, ◌+◌, ◌*◌, ◌%◌, ◌^◌, ◌<◌, ◌≤◌};
ghost use Rattle.runs.specs.Tells.{empty_record, nothing_kept};

// What a row has been drained of, and the sum of its weight codes.
#[derive(Clone, Copy)]
pub(crate) struct RowRecord {
    pub(crate) drained: i64,
    pub(crate) weight_sum: i64,
}

impl RowRecord {
    // Sets both sums to 0.
    pub(crate) fn clear(&mut self)
        ensures { self.new ≡ empty_record }
    {
        self.drained = 0;
        self.weight_sum = 0;
    }
}

// A record for each row, in memory of a fixed size, the sum of the activation codes, the columns accepted, and the steps
// and drains of all rows.
#[derive(Drop)]
pub(crate) struct Kept {
    pub(crate) rows: [RowRecord; 64],
    pub(crate) activation_sum: i64,
    pub(crate) accepted: u32,
    pub(crate) steps: u64,
    pub(crate) drains: u64,
}

impl Kept {
    // What a run keeps at its start.
    pub(crate) fn nothing() -> Kept
        ensures { result ≡ nothing_kept }
    {
        Kept {
            rows: [RowRecord {
                drained: 0,
                weight_sum: 0,
            }; 64],
            activation_sum: 0,
            accepted: 0,
            steps: 0,
            drains: 0,
        }
    }

    // Sets all sums and counts to 0.
    pub(crate) fn clear(&mut self)
        ensures { self.new ≡ nothing_kept }
    {
        for record in self.rows.iter_mut() {
            record.clear();
        }
        self.activation_sum = 0;
        self.accepted = 0;
        self.steps = 0;
        self.drains = 0;
    }
}

// A count of steps or drains with some more. It never wraps in a run that tells a story.
pub(crate) fn counted(count: u64, more: u64) -> u64
    ensures { result ≡ (count + more) % 2 ^ 64 }
{
    count.wrapping_add(more)
}

// The columns accepted, with those of a feed.
pub(crate) fn accepted_with(accepted: u32, columns: usize) -> u32
    requires { columns ≤ 65536 }
    ensures { result ≡ (accepted + columns) % 2 ^ 32 }
{
    accepted.wrapping_add(columns as u32)
}

// The steps of all rows, where each takes one a group.
pub(crate) fn steps_of(rows: usize, groups: usize) -> u64
    requires { rows * groups < 2 ^ 32 }
    ensures { result ≡ rows * groups }
{
    (rows * groups) as u64
}
