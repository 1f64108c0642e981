// A line that asks something of the current kernel or run.
use crate::run_line::RunLine;
use lines::fault::Fault;
use lines::kernel_line::KernelLine;
use lines::words::Words;

#[derive(Drop)]
pub(crate) enum Line {
    Kernel(KernelLine),
    Open,
    Run(RunLine),
}

impl Line {
    // Takes the words after the command.
    pub(crate) fn parse(command: &str, words: &mut Words<'_>) -> Result<Line, Fault> {
        if command == "open" {
            words.should_be("open");
            words.end()?;
            return Ok(Line::Open);
        }
        if let Some(line) = KernelLine::parse(command, words)? {
            return Ok(Line::Kernel(line));
        }
        let line = RunLine::parse(command, words)?;
        line.map(Line::Run).ok_or(words.unexpected())
    }
}
