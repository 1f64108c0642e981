// The questions that every make puts in the same order.
ghost use Rattle.std.specs.Prelude.{◌≡◌, OnOk, ◌==◌, nat_lt};
ghost use Rattle.codes.specs.Shapes.{words_on};
ghost use Rattle.kernels.specs.Answers.{pack_answer, group_answer};
ghost use Rattle.kernels.specs.Allowed.{step_by_tests, code_by_tests, lengths_fit, CodesAllowed, CodeAllowed};

use crate::refusal::{CodeRefusal, PackRefusal, StepRefusal};
use codes::facts::Facts;
use codes::shape::Shape;
use codes::side::Side;

// A step: is there such a row, are there the words of one group on both sides, are both packings, and has the row made
// fewer steps than its interval? Each flag answers one question alone, and no value stands beside it.
pub fn ask_step(row: bool, lengths: bool, packings: bool, below: bool) -> Result<(), StepRefusal>
    ensures { result ≡ step_by_tests row lengths packings below }
{
    if !row {
        return Err(StepRefusal::Row);
    }
    if !lengths {
        return Err(StepRefusal::Length);
    }
    if !packings {
        return Err(StepRefusal::Packing);
    }
    if !below {
        return Err(StepRefusal::Interval);
    }
    Ok(())
}

// Packing a list of codes: from 1 code to the most that may come at once, exactly the words that are needed, and every
// code within its ends.
pub fn ask_codes(
    shape: &Shape,
    side: Side,
    codes: &[i16],
    most: usize,
    needed: usize,
    words: usize,
) -> Result<(), PackRefusal>
    ensures answer { result ≡ pack_answer most needed shape.now side codes.now words }
    ensures yes { OnOk result (CodesAllowed most needed shape.now side codes.now words) }
{
    if codes.is_empty() || codes.len() > most {
        return Err(PackRefusal::Count);
    }
    if words != needed {
        return Err(PackRefusal::Words);
    }
    shape
        .ends(side)
        .first_outside(codes)
        .map_or(Ok(()), |place| Err(PackRefusal::Code { place }))
}

// Packing a group: at most a full one, and exactly its words.
pub fn ask_group(shape: &Shape, side: Side, codes: &[i16], words: usize) -> Result<(), PackRefusal>
    ensures answer { result ≡ group_answer shape.now side codes.now words }
    ensures yes { OnOk result (CodesAllowed shape.now.group (words_on shape.now side) shape.now side codes.now words) }
{
    ask_codes(shape, side, codes, shape.group, shape.words(side), words)
}

// Reading a code: a place of the group, the words of one group, and a packing. Only the make knows the last, so it comes
// as a flag.
pub fn ask_code(
    shape: &Shape,
    side: Side,
    words: usize,
    packing: bool,
    place: usize,
) -> Result<(), CodeRefusal>
    ensures answer { result ≡ code_by_tests (nat_lt place shape.now.group) (words == words_on shape.now side) packing }
    ensures yes { OnOk result (CodeAllowed shape.now side words packing place) }
{
    if place >= shape.group {
        return Err(CodeRefusal::Place);
    }
    if words != shape.words(side) {
        return Err(CodeRefusal::Length);
    }
    if !packing {
        return Err(CodeRefusal::Packing);
    }
    Ok(())
}

// Whether both sides have the words of one group.
pub fn lengths_fit(shape: &Shape, weights: usize, activations: usize) -> bool
    ensures { result ≡ lengths_fit shape.now weights activations }
{
    weights == shape.weight_words && activations == shape.activation_words
}

// Whether a row that has made so many steps may make one more before it is drained.
pub fn may_step(facts: &Facts, steps: u32) -> bool
    ensures { result ≡ nat_lt steps facts.now.interval }
{
    steps < facts.interval
}
