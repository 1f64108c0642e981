// What a console answers to a line.
ghost use Rattle.std.specs.Prelude.{◌≡◌, ℕ, List, ◌++◌, Some, decimal, refl};
ghost use Rattle.std.specs.Fmt.{WritesOnOk, signed_decimal};
ghost use Rattle.replies.specs.Texts.{reply_text, facts_text, ends_text, limits_text, sum_text, items_text};

use codes::facts::Facts;
use std::fmt;

#[derive(Drop)]
pub enum Reply {
    // A plan is accepted, with the most steps between drains.
    Accepted {
        interval: u32,
    },
    // A refusal by its number, with no place, with one, or with a row and a group.
    Refused {
        number: u8,
    },
    RefusedAt {
        number: u8,
        place: usize,
    },
    RefusedInRow {
        number: u8,
        row: usize,
        group: usize,
    },
    Facts(Facts),
    Words(Vec<u16>),
    Codes(Vec<i16>),
    Stepped,
    Steps(u32),
    Total(i64),
    Opened,
    Fed,
    Settled,
    Sum {
        sum: i32,
        steps: u64,
        drains: u64,
    },
    Resumed,
    Cleared,
    Misplaced,
    // What the line with this number should have been.
    Expected {
        line: u64,
        what: &'static str,
    },
}

impl fmt::Display for Reply {
    ghost output = { λ reply. Some (reply_text reply) };

    fn fmt<W: fmt::Write>(&self, f: &mut fmt::Formatter<W>) -> fmt::Result {
        match self {
            Reply::Accepted { interval } => write!(f, "accepted interval {interval}"),
            Reply::Refused { number } => write!(f, "refused {number}"),
            Reply::RefusedAt { number, place } => write!(f, "refused {number} {place}"),
            Reply::RefusedInRow { number, row, group } => write!(
                f,
                "refused {number} {row} {group}"
            ),
            Reply::Facts(facts) => write_facts(f, facts),
            Reply::Words(words) => write_list(f, "words", words.as_slice()),
            Reply::Codes(codes) => write_list(f, "codes", codes.as_slice()),
            Reply::Stepped => f.write_str("stepped"),
            Reply::Steps(steps) => write!(f, "steps {steps}"),
            Reply::Total(total) => write!(f, "total {total}"),
            Reply::Opened => f.write_str("opened"),
            Reply::Fed => f.write_str("fed"),
            Reply::Settled => f.write_str("settled"),
            Reply::Sum { sum, steps, drains } => write_sum(f, *sum, *steps, *drains),
            Reply::Resumed => f.write_str("resumed"),
            Reply::Cleared => f.write_str("cleared"),
            Reply::Misplaced => f.write_str("misplaced"),
            Reply::Expected { line, what } => write!(f, "error {line} expected {what}"),
        }
    }
}

fn write_facts<W: fmt::Write>(f: &mut fmt::Formatter<W>, facts: &Facts) -> fmt::Result
    ensures { WritesOnOk W.write_str_gives f.old result (facts_text facts.now) f.new }
{
    write_ends(f, facts)?;
    write_limits(f, facts)
}

fn write_ends<W: fmt::Write>(f: &mut fmt::Formatter<W>, facts: &Facts) -> fmt::Result
    ensures { WritesOnOk W.write_str_gives f.old result (ends_text facts.now.shape) f.new }
{
    let weights = facts.shape.weight_ends;
    let activations = facts.shape.activation_ends;
    write!(
        f,
        "ends {} {} {} {}",
        weights.low, weights.high, activations.low, activations.high
    )
}

fn write_limits<W: fmt::Write>(f: &mut fmt::Formatter<W>, facts: &Facts) -> fmt::Result
    ensures { WritesOnOk W.write_str_gives f.old result (limits_text facts.now) f.new }
{
    let shape = facts.shape;
    write!(
        f,
        " group {} words {} {}",
        shape.group, shape.weight_words, shape.activation_words
    )?;
    write!(
        f,
        " interval {} rows {} longest {}",
        facts.interval, facts.rows, facts.longest
    )?;
    write!(
        f,
        " zeros {} {}",
        facts.zeros.weight, facts.zeros.activation
    )
}

fn write_sum<W: fmt::Write>(
    f: &mut fmt::Formatter<W>,
    sum: i32,
    steps: u64,
    drains: u64,
) -> fmt::Result
    ensures { WritesOnOk W.write_str_gives f.old result (sum_text sum steps drains) f.new }
{
    write!(f, "sum {sum} steps {steps} drains {drains}")
}

// What a list of a reply holds: its text is known, whichever type of number it is.
trait Item: fmt::Display {
    ghost text: { Self → List ℕ };

    ghost says: { (x : Self) → Self.output x ≡ Some (text x) };
}

impl Item for u16 {
    ghost text = { decimal };

    ghost says = { λ x. refl };
}

impl Item for i16 {
    ghost text = { signed_decimal };

    ghost says = { λ x. refl };
}

// A name, and then each item behind a space.
fn write_list<T: Item, W: fmt::Write>(
    f: &mut fmt::Formatter<W>,
    name: &str,
    items: &[T],
) -> fmt::Result
    ensures { WritesOnOk W.write_str_gives f.old result (name.now ++ items_text T.text items.now) f.new }
{
    f.write_str(name)?;
    for item in items {
        write!(f, " {item}")?;
    }
    Ok(())
}

#[cfg(test)]
mod tests {
    use super::*;
    use std::test::Fail;

    // The contracts say what is printed, and not that printing succeeds.
    #[test]
    fn replies_print(rt: HostRuntime) -> Result<(), Fail> {
        let heap = rt.alloc();
        let words = Reply::Words(vec![in heap; 258u16, 3]?);
        assert_eq!(rt; words.to_string(heap)?.as_str(), "words 258 3");
        let codes = Reply::Codes(vec![in heap; -3i16, 2]?);
        assert_eq!(rt; codes.to_string(heap)?.as_str(), "codes -3 2");
        let error = Reply::Expected {
            line: 3,
            what: "drain ROW",
        };
        assert_eq!(rt;
            error.to_string(heap)?.as_str(),
            "error 3 expected drain ROW"
        );
        Ok(())
    }
}
