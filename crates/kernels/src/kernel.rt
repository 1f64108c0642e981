// The interface that every kernel stands behind.
ghost use Rattle.std.specs.Prelude.{◌≡◌, ℕ, List, length, ℤ, is_ok, if◌then◌else◌, Option};
ghost use Rattle.codes.specs.declared.shape.Shape.{Shape};
ghost use Rattle.codes.specs.declared.side.Side.{Side};
ghost use Rattle.kernels.specs.Groups.{Packs, Unpacks, filled};
ghost use Rattle.kernels.specs.Answers.{group_answer, code_answer, row_answer, step_answer};
ghost use Rattle.kernels.specs.Meanings.{Meaning, Stepped, Drained, gain_at};

use crate::refusal::{CodeRefusal, PackRefusal, RowRefusal, StepRefusal};
use codes::facts::Facts;
use codes::side::Side;

// A kernel means fixed facts and, for each of 64 rows, a total and a count of steps. What it keeps true of itself stands in
// its type. How it packs depends on the make and the shape alone. The words of both sides, and codes beside words, are
// parameters of their own: callers lend them in buffers of their own, and a struct would be taken apart at once.
pub trait Kernel: Sized {
    ghost means: { Self → Meaning };

    ghost packed: { Shape → Side → List ℤ → List ℕ };

    ghost unpacked: { Shape → Side → List ℕ → Option (List ℤ) };

    // What the kernel keeps to.
    fn facts(&self) -> Facts
        ensures { result ≡ (means self.now).facts };

    // The steps of a row since its last drain.
    fn steps(&self, row: usize) -> Result<u32, RowRefusal>
        ensures { result ≡ row_answer row ((means self.now).steps row) };

    // Packs one group of codes, filled up with code 0, into exactly its words. A refusal leaves the words as they were.
    fn pack_group(&self, side: Side, codes: &[i16], words: &mut [u16]) -> Result<(), PackRefusal>
        ensures answer { result ≡ group_answer (means self.now).facts.shape side codes.now (length words.old) }
        ensures after { words.new ≡ (if is_ok result then packed (means self.now).facts.shape side (filled (means self.now).facts.shape.group codes.now) else words.old) };

    // The code at a place of a packed group.
    fn read_code(&self, side: Side, words: &[u16], place: usize) -> Result<i16, CodeRefusal>
        ensures { result ≡ code_answer (unpacked (means self.now).facts.shape) (means self.now).facts.shape side words.now place };

    // Adds the products of two packed groups to a row's total. A refusal changes nothing.
    fn step(&mut self, row: usize, weights: &[u16], activations: &[u16]) -> Result<(), StepRefusal>
        ensures answer { result ≡ step_answer (gain_at (unpacked (means self.old).facts.shape) (means self.old) row weights.now activations.now) }
        ensures after { Stepped row (gain_at (unpacked (means self.old).facts.shape) (means self.old) row weights.now activations.now) (means self.old) (means self.new) };

    // Answers a row's total, and sets its total and steps to 0.
    fn drain(&mut self, row: usize) -> Result<i64, RowRefusal>
        ensures answer { result ≡ row_answer row ((means self.old).total row) }
        ensures after { Drained row (means self.old) (means self.new) };

    ghost packs: { (k : Self) → Packs (packed (means k).facts.shape) (unpacked (means k).facts.shape) (means k).facts.shape };

    ghost unpacks: { (k : Self) → Unpacks (packed (means k).facts.shape) (unpacked (means k).facts.shape) (means k).facts.shape };
}
