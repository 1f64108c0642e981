// The shape of a packing: what two kernels of one make must share to pack alike.
ghost use Rattle.std.specs.Prelude.{◌≡◌};
ghost use Rattle.codes.specs.Shapes.{ends_on, words_on};

use crate::ends::Ends;
use crate::side::Side;

// The ends of both sides, the codes of a group, and the words that a packed group takes on each side.
#[derive(Clone, Copy, Debug, PartialEq, Eq)]
pub struct Shape {
    pub weight_ends: Ends,
    pub activation_ends: Ends,
    pub group: usize,
    pub weight_words: usize,
    pub activation_words: usize,
}

impl Shape {
    // The ends of the codes of one side.
    pub fn ends(&self, side: Side) -> Ends
        ensures { result ≡ ends_on self.now side }
    {
        match side {
            Side::Weights => self.weight_ends,
            Side::Activations => self.activation_ends,
        }
    }

    // The words of a packed group of one side.
    pub fn words(&self, side: Side) -> usize
        ensures { result ≡ words_on self.now side }
    {
        match side {
            Side::Weights => self.weight_words,
            Side::Activations => self.activation_words,
        }
    }
}
