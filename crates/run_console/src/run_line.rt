// The lines that are calls of a run.
use lines::fault::Fault;
use lines::words::{COUNT, ROW, WORD, Words};
use runs::calls::Call;

#[derive(Drop)]
pub(crate) enum RunLine {
    Feed {
        count: usize,
        weights: Vec<u16>,
        activations: Vec<u16>,
    },
    Settle,
    Read {
        row: usize,
    },
    Resume,
    Clear,
}

impl RunLine {
    // Takes the words after the command; none where there is no such command.
    pub(crate) fn parse(command: &str, words: &mut Words<'_>) -> Result<Option<RunLine>, Fault> {
        // A match and no table of functions: each command makes a line of another shape.
        let line = match command {
            "feed" => feed(words)?,
            "read" => read(words)?,
            "settle" => alone(words, "settle", RunLine::Settle)?,
            "resume" => alone(words, "resume", RunLine::Resume)?,
            "clear" => alone(words, "clear", RunLine::Clear)?,
            _ => return Ok(None),
        };
        Ok(Some(line))
    }

    pub(crate) fn call(&self) -> Call<'_> {
        match self {
            RunLine::Feed {
                count,
                weights,
                activations,
            } => Call::Feed {
                count: *count,
                weights: weights.as_slice(),
                activations: activations.as_slice(),
            },
            RunLine::Settle => Call::Settle,
            RunLine::Read { row } => Call::Read { row: *row },
            RunLine::Resume => Call::Resume,
            RunLine::Clear => Call::Clear,
        }
    }
}

fn feed(words: &mut Words<'_>) -> Result<RunLine, Fault> {
    words.should_be("feed N WORD... / WORD...");
    let count = words.number(COUNT)?;
    let weights = words.numbers_before_slash(WORD)?;
    let activations = words.numbers(WORD)?;
    Ok(RunLine::Feed {
        count,
        weights,
        activations,
    })
}

fn read(words: &mut Words<'_>) -> Result<RunLine, Fault> {
    words.should_be("read ROW");
    let row = words.number(ROW)?;
    words.end()?;
    Ok(RunLine::Read { row })
}

// A command with nothing behind it.
fn alone(words: &mut Words<'_>, usage: &'static str, line: RunLine) -> Result<RunLine, Fault> {
    words.should_be(usage);
    words.end()?;
    Ok(line)
}
