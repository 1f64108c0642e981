// The columns of a feed.
ghost use Rattle.codes.specs.Codes.{Range};

// Columns that were checked: their words, and the sums of their codes. The sums of the rows' weights stand in a table of
// their own, since no record changes before all words are checked.
#[derive(Clone, Copy)]
pub(crate) struct Columns<'a> {
    pub(crate) count: usize,
    pub(crate) weights: &'a [u16],
    pub(crate) activations: &'a [u16],
    pub(crate) weight_sums: [i64; 64],
    pub(crate) activation_sum: i64,
    ghost few: { Range 1 65536 count },
}
