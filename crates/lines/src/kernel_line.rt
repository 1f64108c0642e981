// The lines that ask something of the current kernel.
ghost use Rattle.std.specs.Prelude.{◌≡◌, ◌∷◌, [], MatchOption, IfOk, OnOk, codes};
ghost use Rattle.lines.specs.Words.{words_left, usage_of, OkOrExpected, OkOrFault};
ghost use Rattle.lines.specs.Parts.{letter, NoSide, FailsIn};
ghost use Rattle.lines.specs.KernelLines.{command_of, IsNoCommand, Says, SaysRow, Parses, Refused, facts_parts, pack_parts, unpack_parts, step_parts, row_parts};

use crate::fault::Fault;
use crate::words::{COUNT, ROW, WORD, Words};
use codes::side::Side;

#[derive(Drop)]
pub enum KernelLine {
    Facts,
    Pack {
        side: Side,
        codes: Vec<i16>,
    },
    Unpack {
        side: Side,
        count: usize,
        words: Vec<u16>,
    },
    Step {
        row: usize,
        weights: Vec<u16>,
        activations: Vec<u16>,
    },
    Steps {
        row: usize,
    },
    Drain {
        row: usize,
    },
}

impl KernelLine {
    // Takes the words after the command; none where there is no such command.
    pub fn parse(command: &str, words: &mut Words<'_>) -> Result<Option<KernelLine>, Fault>
        ensures cases { OkOrFault result (λ found. MatchOption found (IsNoCommand command.now) (λ line. (command.now ≡ command_of line) × Says line (words_left words.old))) (Refused command.now (words_left words.old)) }
        ensures left { IfOk result (λ found. MatchOption found ((words_left words.new ≡ words_left words.old) × (usage_of words.new ≡ usage_of words.old)) (λ line. words_left words.new ≡ [])) }
    {
        // A match and no table of functions: each command makes a line of another shape.
        let line = match command {
            "facts" => facts(words)?,
            "pack" => pack(words)?,
            "unpack" => unpack(words)?,
            "step" => step(words)?,
            "steps" => KernelLine::Steps {
                row: row(words, "steps ROW")?,
            },
            "drain" => KernelLine::Drain {
                row: row(words, "drain ROW")?,
            },
            _ => return Ok(None),
        };
        Ok(Some(line))
    }
}

fn facts(words: &mut Words<'_>) -> Result<KernelLine, Fault>
    ensures cases { Parses (codes "facts") facts_parts (words_left words.old) result }
    ensures all { OnOk result (words_left words.new ≡ []) }
{
    words.should_be("facts");
    words.end().map(|()| KernelLine::Facts)
}

fn pack(words: &mut Words<'_>) -> Result<KernelLine, Fault>
    ensures cases { Parses (codes "pack") pack_parts (words_left words.old) result }
    ensures all { OnOk result (words_left words.new ≡ []) }
{
    words.should_be("pack w CODE... or pack a CODE...");
    let side = side(words)?;
    let codes = words.numbers("codes from -32768 to 32767")?;
    Ok(KernelLine::Pack { side, codes })
}

fn unpack(words: &mut Words<'_>) -> Result<KernelLine, Fault>
    ensures cases { Parses (codes "unpack") unpack_parts (words_left words.old) result }
    ensures all { OnOk result (words_left words.new ≡ []) }
{
    words.should_be("unpack w N WORD... or unpack a N WORD...");
    let side = side(words)?;
    let count = words.number(COUNT)?;
    let packed = words.numbers(WORD)?;
    Ok(KernelLine::Unpack {
        side,
        count,
        words: packed,
    })
}

fn step(words: &mut Words<'_>) -> Result<KernelLine, Fault>
    ensures cases { Parses (codes "step") step_parts (words_left words.old) result }
    ensures all { OnOk result (words_left words.new ≡ []) }
{
    words.should_be("step ROW WORD... / WORD...");
    let row = words.number(ROW)?;
    let weights = words.numbers_before_slash(WORD)?;
    let activations = words.numbers(WORD)?;
    Ok(KernelLine::Step {
        row,
        weights,
        activations,
    })
}

// One row, and nothing behind it.
fn row(words: &mut Words<'_>, usage: &'static str) -> Result<usize, Fault>
    ensures cases { OkOrExpected result (λ row. SaysRow row (words_left words.old)) (FailsIn (row_parts usage.entry.now) (words_left words.old)) }
    ensures all { OnOk result (words_left words.new ≡ []) }
{
    words.should_be(usage);
    let row = words.number(ROW)?;
    words.end()?;
    Ok(row)
}

// The letters are the consoles' own, so `Side` has no `FromStr` that reads them.
fn side(words: &mut Words<'_>) -> Result<Side, Fault>
    ensures cases { OkOrExpected result (λ side. words_left words.old ≡ letter side ∷ words_left words.new) (NoSide (usage_of words.old) (words_left words.old)) }
    ensures usage { usage_of words.new ≡ usage_of words.old }
{
    match words.next() {
        Some("w") => Ok(Side::Weights),
        Some("a") => Ok(Side::Activations),
        _ => Err(words.unexpected()),
    }
}

#[cfg(test)]
mod tests {
    use super::*;
    use std::test::Fail;

    // The contracts say what a line holds, and not that there is memory for its lists.
    #[test]
    fn lists_are_taken(rt: HostRuntime) -> Result<(), Fail> {
        let spelled = ["0", "258", "3", "/", "65535"];
        let mut words = Words::of(rt.alloc(), &spelled, "a line");
        let line = KernelLine::parse("step", &mut words)?;
        let Some(
            KernelLine::Step {
                row,
                weights: first,
                activations: second,
            },
        ) = line
        else {
            return Err(Fail::new("no step line"));
        };
        assert_eq!(rt; row, 0);
        assert_eq!(rt; first.as_slice(), [258, 3].as_slice());
        assert_eq!(rt; second.as_slice(), [65535].as_slice());
        Ok(())
    }
}
