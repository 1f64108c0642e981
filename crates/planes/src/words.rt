// The words of a group: plane k holds bit k of its codes, that of the code at place i at bit i.
ghost use Rattle.std.specs.Prelude.{◌≡◌, ℕ, ◌+◌, ◌*◌, ◌^◌, ◌<◌, ◌≤◌, map, length, pos, slice_index, unsigned_abs};
ghost use Rattle.std.specs.List.{AllByRecursion};
ghost use Rattle.codes.specs.Codes.{Within};
ghost use Rattle.plans.specs.Kinds.{bit_ends};
ghost use Rattle.planes.specs.Planes.{bit_at, plane, planes_from};
ghost use Rattle.planes.specs.Sums.{ones_shared, shared_from, plane_sum};

// Writes the planes of codes of at most 8 bits.
pub(crate) fn write_planes(codes: &[i16], words: &mut [u16])
    requires words { length words.old ≤ 8 }
    requires count { length codes.now ≤ 16 }
    requires within { AllByRecursion (Within (bit_ends 8)) codes.now }
    ensures { words.new ≡ planes_from 0 (length words.old) (map unsigned_abs codes.now) }
{
    for (k, word) in words.iter_mut().enumerate() {
        *word = plane_of(codes, k);
    }
}

// The planes of a packed group.
#[derive(Clone, Copy)]
pub(crate) struct PlaneWords<'a> {
    pub(crate) words: &'a [u16],
    ghost few: { length words.now ≤ 8 },
    ghost fit: { (k : ℕ) → slice_index words.now k < 2 ^ 16 },
}

impl<'a> PlaneWords<'a> {
    // The code at a place of the group.
    pub(crate) fn code_at(&self, place: usize) -> i16
        requires { place < 16 }
        ensures { result ≡ pos (plane place self.now.words.now) }
    {
        let mut code = 0u32;
        for (k, word) in self.words.iter().enumerate() {
            code += bit_in_code(*word, k, place);
        }
        code as i16
    }

    // The sum over planes: the ones that each two planes k and m share, times 2^(k + m).
    pub(crate) fn sum_with(&self, activations: &PlaneWords<'_>) -> u32
        ensures { result ≡ plane_sum self.now.words.now activations.now.words.now }
    {
        let mut sum = 0u32;
        for (k, plane) in self.words.iter().enumerate() {
            sum += activations.shared_with(*plane, k);
        }
        sum
    }

    // What plane k of the weights adds to the sum over planes.
    fn shared_with(&self, weights: u16, k: usize) -> u32
        requires { k < 8 }
        ensures { result ≡ shared_from k 0 weights self.now.words.now }
    {
        let mut sum = 0u32;
        for (m, plane) in self.words.iter().enumerate() {
            sum += weighted(ones_shared(weights, *plane), k, m);
        }
        sum
    }
}

// Plane k of codes of at most 8 bits.
fn plane_of(codes: &[i16], k: usize) -> u16
    requires plane { k < 8 }
    requires count { length codes.now ≤ 16 }
    requires within { AllByRecursion (Within (bit_ends 8)) codes.now }
    ensures { result ≡ plane k (map unsigned_abs codes.now) }
{
    let mut word = 0u32;
    for (place, code) in codes.iter().enumerate() {
        word += bit_in_plane(code.unsigned_abs(), k, place);
    }
    word as u16
}

// Planes and places are counters of the loops above: a type for their ranges would be made at each turn.

// Bit k of the code at a place, where it stands in plane k.
fn bit_in_plane(code: u16, k: usize, place: usize) -> u32
    requires plane { k < 8 }
    requires place { place < 16 }
    ensures { result ≡ bit_at k code * 2 ^ place }
{
    bit(code, k) << place
}

// The bit that plane k holds at a place, where it stands in the code.
fn bit_in_code(word: u16, k: usize, place: usize) -> u32
    requires plane { k < 8 }
    requires place { place < 16 }
    ensures { result ≡ bit_at place word * 2 ^ k }
{
    bit(word, place) << k
}

// Bit k of a number.
fn bit(number: u16, k: usize) -> u32
    requires { k < 16 }
    ensures value { result ≡ bit_at k number }
    ensures small { result < 2 }
{
    (number >> k) as u32 % 2
}

// A count of ones that planes k and m share, times 2^(k + m).
fn weighted(count: u32, k: usize, m: usize) -> u32
    requires count { count ≤ 16 }
    requires weights { k < 8 }
    requires activations { m < 8 }
    ensures { result ≡ count * 2 ^ (k + m) }
{
    count << (k + m)
}

// The ones that two words share.
fn ones_shared(weights: u16, activations: u16) -> u32
    ensures value { result ≡ ones_shared weights activations }
    ensures few { result ≤ 16 }
{
    (weights & activations).count_ones()
}
