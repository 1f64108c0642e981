// The state of the console, and what it answers to a line.
ghost use Rattle.replies.specs.Plans.{PlanText};
ghost use Rattle.replies.specs.Texts.{reply_text};

use kernels::planned::Planned;
use lanes::p1::P1;
use lanes::p2::P2;
use lines::fault::Fault;
use lines::kernel_line::KernelLine;
use lines::plan_line::PlanLine;
use lines::words::Words;
use plans::any_plan::AnyPlan;
use plans::request::Request;
use replies::reply::Reply;
use replies::respond::respond;
use std::alloc::{AllocError, Global};

const COMMANDS: &str = "plan, facts, pack, unpack, step, steps or drain";

const NO_KERNEL: &str = "a plan of kind 1 or 2 before this line";

#[derive(Drop)]
enum Current {
    P1(P1),
    P2(P2),
}

#[derive(Drop)]
pub(crate) struct Session {
    heap: Global,
    // The kernel of the last accepted plan, if that is of a kind that has one here.
    current: Option<Current>,
}

impl Session {
    pub(crate) fn new(heap: Global) -> Session {
        Session {
            heap,
            current: None,
        }
    }

    // The reply to a line, or none where it is blank or a comment.
    pub(crate) fn answer(&mut self, line: u64, bytes: &[u8]) -> Result<Option<Reply>, AllocError> {
        self.take_line(bytes).or_else(|fault| match fault {
            Fault::Expected(what) => Ok(Some(Reply::Expected { line, what })),
            Fault::Memory => Err(AllocError),
        })
    }

    fn take_line(&mut self, bytes: &[u8]) -> Result<Option<Reply>, Fault> {
        let text = std::str::from_utf8(bytes).map_err(|_| Fault::Expected("text in UTF-8"))?;
        let mut words = Words::of_text(self.heap, text, COMMANDS);
        let Some(command) = words.next() else {
            return Ok(None);
        };
        if command.starts_with('#') {
            return Ok(None);
        }
        if command == "plan" {
            let line = PlanLine::parse(&mut words)?;
            return Ok(Some(self.take_plan(line.kind, &line.request)));
        }
        match KernelLine::parse(command, &mut words)? {
            Some(line) => Ok(Some(self.take_kernel_line(&line)?)),
            None => Err(words.unexpected()),
        }
    }

    fn take_plan(&mut self, kind: u16, request: &Request) -> Reply
        ensures { PlanText kind request.now (reply_text result) }
    {
        let answer = AnyPlan::check(kind, request);
        if let Ok(plan) = answer {
            self.current = kernel_of(plan);
        }
        answer.into()
    }

    fn take_kernel_line(&mut self, line: &KernelLine) -> Result<Reply, Fault> {
        let reply = match &mut self.current {
            Some(Current::P1(kernel)) => respond(self.heap, kernel, line)?,
            Some(Current::P2(kernel)) => respond(self.heap, kernel, line)?,
            None => return Err(Fault::Expected(NO_KERNEL)),
        };
        Ok(reply)
    }
}

// A new kernel of a plan, where its kind has one.
fn kernel_of(plan: AnyPlan) -> Option<Current> {
    match plan {
        AnyPlan::P1(plan) => Some(Current::P1(P1::of_plan(plan))),
        AnyPlan::P2(plan) => Some(Current::P2(P2::of_plan(plan))),
        AnyPlan::Planes(_) | AnyPlan::Split(_) => None,
    }
}

#[cfg(test)]
mod tests {
    use super::*;
    use std::test::Fail;

    // What `respond` ensures of lists holds where there is memory, and not that there is.
    #[test]
    fn lists_are_replied(rt: HostRuntime) -> Result<(), Fail> {
        let heap = rt.alloc();
        let mut session = Session::new(heap);
        for (line, text) in [
            ("plan 2 2 2 3 0 1 1 0 0", "accepted interval 4"),
            ("pack w 1 2 3 1", "words 16643 16384"),
            ("unpack w 4 16643 16384", "codes 1 2 3 1"),
        ] {
            match session.answer(1, line.as_bytes())? {
                Some(reply) => assert_eq!(rt; reply.to_string(heap)?.as_str(), text),
                None => panic!(rt; "no reply to {line}"),
            }
        }
        Ok(())
    }
}
