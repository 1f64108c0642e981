// Lists of codes, packed and unpacked group after group by any kernel.
ghost use Rattle.std.specs.Prelude.{◌≡◌, ◌-◌, ◌≤◌, leb, List, length, take, ℤ, is_some, is_ok, if◌then◌else◌, Some, None, Ok, Err, MatchResult};
ghost use Rattle.std.specs.List.{AllByRecursion, list_all, range_with_len};
ghost use Rattle.codes.specs.Codes.{Within, groups};
ghost use Rattle.codes.specs.Shapes.{ends_on};
ghost use Rattle.kernels.specs.Answers.{code_answer};
ghost use Rattle.kernels.specs.Lists.{words_for, packed_list, pack_list_answer, UnpacksBack, first_codes, unpacked_list, bad_group, sizes_answer, unpack_list_answer, codes_after, Repacks};
ghost use Rattle.kernels.specs.Reads.{reads_zero, none_bad};

use crate::kernel::Kernel;
use crate::questions::ask_codes;
use crate::refusal::{PackRefusal, UnpackRefusal};
use codes::facts::Facts;
use codes::side::Side;

// The most codes that a list may have.
pub const MOST_CODES: usize = 65536;

// Packs a list of codes into exactly the words that it needs. A refusal leaves the words as they were.
pub fn pack_codes<K: Kernel>(
    kernel: &K,
    side: Side,
    codes: &[i16],
    words: &mut [u16],
) -> Result<(), PackRefusal>
    ensures answer { result ≡ pack_list_answer (K.Kernel.means kernel.now).facts.shape side codes.now (length words.old) }
    ensures after { words.new ≡ (if is_ok result then packed_list (K.Kernel.packed (K.Kernel.means kernel.now).facts.shape) (K.Kernel.means kernel.now).facts.shape side codes.now else words.old) }
    ensures back { UnpacksBack (K.Kernel.unpacked (K.Kernel.means kernel.now).facts.shape) (K.Kernel.means kernel.now).facts.shape side codes.now words.new result }
{
    may_pack(&kernel.facts(), side, codes, words.len())?;
    write_groups(kernel, side, codes, words);
    Ok(())
}

// Unpacks words into as many codes as are lent. A refusal leaves the codes as they were.
pub fn unpack_codes<K: Kernel>(
    kernel: &K,
    side: Side,
    words: &[u16],
    codes: &mut [i16],
) -> Result<(), UnpackRefusal>
    ensures answer { result ≡ unpack_list_answer (K.Kernel.unpacked (K.Kernel.means kernel.now).facts.shape) (K.Kernel.means kernel.now).facts.shape side (length codes.old) words.now }
    ensures after { codes.new ≡ (if is_ok result then codes_after (unpacked_list (K.Kernel.unpacked (K.Kernel.means kernel.now).facts.shape) (K.Kernel.means kernel.now).facts.shape side (length codes.old) words.now) codes.old else codes.old) }
    ensures again { Repacks (K.Kernel.packed (K.Kernel.means kernel.now).facts.shape) (K.Kernel.means kernel.now).facts.shape side (length codes.old) words.now codes.new result }
{
    let list = PackedList::new(kernel, side, words, codes.len())?;
    list.check()?;
    list.read(codes);
    Ok(())
}

// The words that so many codes take, or none where they are more than a list may have.
pub fn words_needed(facts: &Facts, side: Side, count: usize) -> Option<usize>
    ensures { result ≡ (if leb count 65536 then Some (words_for facts.now.shape side count) else None) }
{
    if count > MOST_CODES {
        None
    } else {
        Some(groups_taken(*facts, count) * facts.shape.words(side))
    }
}

// The groups that n codes take.
#[tactic(auto, using(crate::proofs::ListSizes::groups_read, crate::proofs::ListSizes::groups_read_few))]
pub fn groups_taken(facts: Facts, n: usize) -> usize
    ensures value { result ≡ groups facts.shape.group n }
    ensures few { result ≤ n }
{
    n.div_ceil(facts.shape.group)
}

// The questions of a packing.
fn may_pack(facts: &Facts, side: Side, codes: &[i16], words: usize) -> Result<(), PackRefusal>
    ensures { result ≡ pack_list_answer facts.now.shape side codes.now words }
{
    let needed = words_needed(facts, side, codes.len()).ok_or(PackRefusal::Count)?;
    ask_codes(&facts.shape, side, codes, MOST_CODES, needed, words)
}

// Writes the words of each group.
fn write_groups<K: Kernel>(kernel: &K, side: Side, codes: &[i16], words: &mut [u16])
    requires { length words.old ≡ words_for (K.Kernel.means kernel.now).facts.shape side (length codes.now) }
    ensures { AllByRecursion (Within (ends_on (K.Kernel.means kernel.now).facts.shape side)) codes.now → words.new ≡ packed_list (K.Kernel.packed (K.Kernel.means kernel.now).facts.shape) (K.Kernel.means kernel.now).facts.shape side codes.now }
{
    let shape = kernel.facts().shape;
    let width = shape.words(side);
    // By place: of what is written through `chunks_exact_mut`, a proof knows the length alone.
    for (group, part) in codes.chunks(shape.group).enumerate() {
        let start = group * width;
        let _ = kernel.pack_group(side, part, &mut words[start..start + width]);
    }
}

// The words of a list of codes: as many as so many codes need.
#[derive(Drop)]
struct PackedList<'a, K: Kernel> {
    kernel: &'a K,
    side: Side,
    words: &'a [u16],
    count: usize,
    ghost exact: { length words.now ≡ words_for (K.Kernel.means kernel.now).facts.shape side count },
}

impl<'a, K: Kernel> PackedList<'a, K> {
    // Puts the questions on the numbers of an unpacking.
    fn new(
        kernel: &'a K,
        side: Side,
        words: &'a [u16],
        count: usize,
    ) -> Result<PackedList<'a, K>, UnpackRefusal>
        ensures { MatchResult result (λ list. (list.kernel.now ≡ kernel.now) × (list.side ≡ side) × (list.words.now ≡ words.now) × (list.count ≡ count) × (Ok tt ≡ sizes_answer (K.Kernel.means kernel.now).facts.shape side count words.now)) (λ refusal. Err refusal ≡ sizes_answer (K.Kernel.means kernel.now).facts.shape side count words.now) }
    {
        if count == 0 {
            return Err(UnpackRefusal::Count);
        }
        let needed = words_needed(&kernel.facts(), side, count).ok_or(UnpackRefusal::Count)?;
        if words.len() != needed {
            return Err(UnpackRefusal::Words);
        }
        Ok(PackedList {
            kernel,
            side,
            words,
            count,
        })
    }

    // The question whether each group is the packing of its codes.
    fn check(&self) -> Result<(), UnpackRefusal>
        ensures { result ≡ bad_group (unpacked_list (K.Kernel.unpacked (K.Kernel.means self.now.kernel.now).facts.shape) (K.Kernel.means self.now.kernel.now).facts.shape self.now.side self.now.count self.now.words.now) }
    {
        self.first_bad()
            .map_or(Ok(()), |group| Err(UnpackRefusal::Group { group }))
    }

    // The first group that is not the packing of its codes.
    fn first_bad(&self) -> Option<usize>
        ensures { none_bad result ≡ bad_group (unpacked_list (K.Kernel.unpacked (K.Kernel.means self.now.kernel.now).facts.shape) (K.Kernel.means self.now.kernel.now).facts.shape self.now.side self.now.count self.now.words.now) }
    {
        let shape = self.kernel.facts().shape;
        let width = shape.words(self.side);
        for (group, words) in self.words.chunks_exact(width).enumerate() {
            if !self.packs_codes(words, self.count - group * shape.group) {
                return Some(group);
            }
        }
        None
    }

    // Reads the codes of each group.
    fn read(&self, codes: &mut [i16])
        requires { length codes.old ≡ self.now.count }
        ensures { (all : List ℤ) → unpacked_list (K.Kernel.unpacked (K.Kernel.means self.now.kernel.now).facts.shape) (K.Kernel.means self.now.kernel.now).facts.shape self.now.side self.now.count self.now.words.now ≡ Ok all → codes.new ≡ all }
    {
        let shape = self.kernel.facts().shape;
        let width = shape.words(self.side);
        // By place: of what is written through `chunks_mut`, a proof knows the length alone.
        for (group, words) in self.words.chunks_exact(width).enumerate() {
            let start = group * shape.group;
            let end = codes.len().min(start + shape.group);
            self.read_group(words, &mut codes[start..end]);
        }
    }

    // Whether the words of a group pack so many codes and their fill. The first place is read in any case, as a full group
    // has no fill.
    fn packs_codes(&self, words: &[u16], used: usize) -> bool
        ensures { result ≡ is_some (first_codes used (K.Kernel.unpacked (K.Kernel.means self.now.kernel.now).facts.shape self.now.side words.now)) }
    {
        self.kernel.read_code(self.side, words, 0).is_ok() && self.fill_reads_zero(words, used)
    }

    // Whether each place of a group from one on reads 0.
    fn fill_reads_zero(&self, words: &[u16], used: usize) -> bool
        ensures { result ≡ list_all (λ place. reads_zero (code_answer (K.Kernel.unpacked (K.Kernel.means self.now.kernel.now).facts.shape) (K.Kernel.means self.now.kernel.now).facts.shape self.now.side words.now place)) (range_with_len used ((K.Kernel.means self.now.kernel.now).facts.shape.group - used)) }
    {
        (used..self.kernel.facts().shape.group).all(|place| matches!(
            self.kernel.read_code(self.side, words, place),
            Ok(0)
        ))
    }

    // Reads the codes of a group from its first on.
    fn read_group(&self, words: &[u16], codes: &mut [i16])
        ensures { (all : List ℤ) → K.Kernel.unpacked (K.Kernel.means self.now.kernel.now).facts.shape self.now.side words.now ≡ Some all → length codes.old ≤ (K.Kernel.means self.now.kernel.now).facts.shape.group → codes.new ≡ take (length codes.old) all }
    {
        for (place, code) in codes.iter_mut().enumerate() {
            if let Ok(read) = self.kernel.read_code(self.side, words, place) {
                *code = read;
            }
        }
    }
}
