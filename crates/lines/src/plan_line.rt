// The line `plan KIND X Y DEPTH INTERVAL ROWS LONGEST ZW ZA`.
ghost use Rattle.std.specs.Prelude.{◌≡◌, [], OnOk};
ghost use Rattle.lines.specs.Words.{words_left, usage_of, OkOrExpected};
ghost use Rattle.lines.specs.PlanLines.{SaysPlan, SpellsBounds, SpellsZeros, bound_parts, zero_parts, plan_parts};
ghost use Rattle.lines.specs.Parts.{FailsIn};

use crate::fault::Fault;
use crate::words::Words;
use codes::zero_points::ZeroPoints;
use plans::request::Request;

// A request, and the number of the kind that it is put to.
#[derive(Clone, Copy, Debug, PartialEq, Eq)]
pub struct PlanLine {
    pub kind: u16,
    pub request: Request,
}

impl PlanLine {
    // Takes the words after `plan`.
    pub fn parse(words: &mut Words<'_>) -> Result<PlanLine, Fault>
        ensures cases { OkOrExpected result (λ line. SaysPlan line (words_left words.old)) (FailsIn plan_parts (words_left words.old)) }
        ensures all { OnOk result (words_left words.new ≡ []) }
    {
        words.should_be("plan KIND X Y DEPTH INTERVAL ROWS LONGEST ZW ZA");
        let kind = words.number("KIND from 0 to 65535")?;
        let weight_size = words.number("X from 0 to 65535")?;
        let activation_size = words.number("Y from 0 to 65535")?;
        let depth = words.number("DEPTH from 0 to 65535")?;
        let interval = words.number("INTERVAL from 0 to 4294967295")?;
        let (rows, longest) = bounds(words)?;
        let zeros = zeros(words)?;
        words.end()?;
        let request = Request {
            weight_size,
            activation_size,
            depth,
            interval,
            rows,
            longest,
            zeros,
        };
        Ok(PlanLine { kind, request })
    }
}

// The rows, and the most columns that a run may accept.
fn bounds(words: &mut Words<'_>) -> Result<(u16, u32), Fault>
    ensures cases { OkOrExpected result (SpellsBounds (words_left words.old) (words_left words.new)) (FailsIn (bound_parts (usage_of words.old)) (words_left words.old)) }
    ensures usage { usage_of words.new ≡ usage_of words.old }
{
    let rows = words.number("ROWS from 0 to 65535")?;
    let longest = words.number("LONGEST from 0 to 4294967295")?;
    Ok((rows, longest))
}

fn zeros(words: &mut Words<'_>) -> Result<ZeroPoints, Fault>
    ensures cases { OkOrExpected result (SpellsZeros (words_left words.old) (words_left words.new)) (FailsIn (zero_parts (usage_of words.old)) (words_left words.old)) }
    ensures usage { usage_of words.new ≡ usage_of words.old }
{
    let weight = words.number("ZW from -32768 to 32767")?;
    let activation = words.number("ZA from -32768 to 32767")?;
    Ok(ZeroPoints { weight, activation })
}
