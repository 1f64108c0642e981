// The questions of a feed, and the sums of the codes that its words pack.
ghost use Rattle.std.specs.Prelude.{◌≡◌, ◌+◌, ◌*◌, ◌||◌, length, Ok, IfOk, nat_le, nat_lt};
ghost use Rattle.codes.specs.declared.side.Side.TheVariants.{Weights};
ghost use Rattle.codes.specs.Codes.{Range};
ghost use Rattle.kernels.specs.Lists.{words_for, is_zero, first_codes, unpacked_list};
ghost use Rattle.runs.specs.Feeds.{row_codes, ask_sizes};
ghost use Rattle.runs.specs.Passes.{group_total, list_total, RowsTotal, Checked};

use crate::checked::Columns;
use crate::refusal::FeedRefusal;
use codes::facts::Facts;
use codes::side::Side;
use kernels::kernel::Kernel;
use kernels::lists::groups_taken;

// The questions of a feed in their order, and its columns where all get a yes.
pub(crate) fn check<'a, K: Kernel>(
    kernel: &K,
    accepted: u32,
    count: usize,
    weights: &'a [u16],
    activations: &'a [u16],
) -> Result<Columns<'a>, FeedRefusal>
    ensures given { IfOk result (λ c. (c.count ≡ count) × (c.weights ≡ weights.entry) × (c.activations ≡ activations.entry)) }
    ensures checked { Checked (K.Kernel.unpacked (K.Kernel.means kernel.now).facts.shape) (K.Kernel.means kernel.now).facts accepted count weights.now activations.now result }
{
    let facts = kernel.facts();
    ask_sizes(facts, accepted, count, weights.len(), activations.len())?;
    let weight_sums = row_sums(kernel, count, weights)?;
    let activation_sum = list_sum(kernel, Side::Activations, count, activations).map_err(
        |group| FeedRefusal::Activations { group },
    )?;
    Ok(Columns {
        count,
        weights,
        activations,
        weight_sums,
        activation_sum,
    })
}

// The questions on the numbers of columns and words.
fn ask_sizes(
    facts: Facts,
    accepted: u32,
    count: usize,
    weights: usize,
    activations: usize,
) -> Result<(), FeedRefusal>
    ensures { result ≡ ask_sizes facts accepted count weights activations (Ok tt) }
{
    if count < 1 {
        return Err(FeedRefusal::NoColumns);
    }
    if !has_room(facts, accepted, count) {
        return Err(FeedRefusal::TooMany);
    }
    let groups = groups_taken(facts, count);
    if weights != facts.rows * (groups * facts.shape.weight_words) {
        return Err(FeedRefusal::WeightLength);
    }
    if activations != groups * facts.shape.activation_words {
        return Err(FeedRefusal::ActivationLength);
    }
    Ok(())
}

// Whether a run that has accepted so many columns may accept so many more.
fn has_room(facts: Facts, accepted: u32, count: usize) -> bool
    ensures { result ≡ nat_le (accepted + count) facts.longest }
{
    let longest = facts.longest as usize;
    count <= longest && accepted as usize <= longest - count
}

// The sum of the weight codes of each row, or a refusal for the first row with a bad group.
fn row_sums<K: Kernel>(kernel: &K, count: usize, weights: &[u16]) -> Result<[i64; 64], FeedRefusal>
    requires count { Range 1 65536 count }
    requires exact { length weights.now ≡ (K.Kernel.means kernel.now).facts.rows * words_for (K.Kernel.means kernel.now).facts.shape Weights count }
    ensures { RowsTotal (row_codes (K.Kernel.unpacked (K.Kernel.means kernel.now).facts.shape) (K.Kernel.means kernel.now).facts.shape count weights.now) (K.Kernel.means kernel.now).facts.rows result }
{
    let facts = kernel.facts();
    let size = groups_taken(facts, count) * facts.shape.weight_words;
    let mut sums = [0i64; 64];
    // The sums are indexed, since a `zip` over `iter_mut` leaves open what it wrote.
    for (row, words) in weights.chunks_exact(size).enumerate() {
        sums[row] = list_sum(kernel, Side::Weights, count, words).map_err(
            |group| FeedRefusal::Weights { row, group },
        )?;
    }
    Ok(sums)
}

// The sum of the codes that the words of a list pack, or the first bad group: each caller has a refusal of its own for it.
fn list_sum<K: Kernel>(kernel: &K, side: Side, count: usize, words: &[u16]) -> Result<i64, usize>
    requires exact { length words.now ≡ words_for (K.Kernel.means kernel.now).facts.shape side count }
    ensures { result ≡ list_total (unpacked_list (K.Kernel.unpacked (K.Kernel.means kernel.now).facts.shape) (K.Kernel.means kernel.now).facts.shape side count words.now) }
{
    let shape = kernel.facts().shape;
    let mut sum = 0i64;
    for (group, part) in words.chunks_exact(shape.words(side)).enumerate() {
        let more = group_sum(kernel, side, part, count - group * shape.group).ok_or(group)?;
        sum = sum.wrapping_add(more);
    }
    Ok(sum)
}

// The sum of the codes of a group whose places from `used` on are fill, or none where the words are no packing of such a group.
fn group_sum<K: Kernel>(kernel: &K, side: Side, words: &[u16], used: usize) -> Option<i64>
    ensures { result ≡ group_total (first_codes used (K.Kernel.unpacked (K.Kernel.means kernel.now).facts.shape side words.now)) }
{
    let mut sum = 0i64;
    // A kernel is asked for each code, so there is no list to go over.
    for place in 0..kernel.facts().shape.group {
        let code = kernel.read_code(side, words, place).ok()?;
        if !may_stand(place, used, code) {
            return None;
        }
        sum = sum.wrapping_add(i64::from(code));
    }
    Some(sum)
}

// Whether a code may stand at a place of a group, of which the places from `used` on are fill.
fn may_stand(place: usize, used: usize, code: i16) -> bool
    ensures { result ≡ (nat_lt place used || is_zero code) }
{
    place < used || code == 0
}
