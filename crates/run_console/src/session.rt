// The state of the console, and what it answers to a line. `console` has a session of its own, since it knows other lines
// and other kernels.
ghost use Rattle.replies.specs.Plans.{PlanText};
ghost use Rattle.replies.specs.Texts.{reply_text};

use crate::line::Line;
use crate::state::{NO_KERNEL, State};
use kernels::planned::Planned;
use lanes::p1::P1;
use lanes::p2::P2;
use lines::fault::Fault;
use lines::plan_line::PlanLine;
use lines::words::Words;
use planes::planes::Planes;
use plans::any_plan::AnyPlan;
use plans::request::Request;
use replies::reply::Reply;
use split::split::Split;
use std::alloc::{AllocError, Global};

const COMMANDS: &str =
    "plan, facts, pack, unpack, step, steps, drain, open, feed, settle, read, resume or clear";

#[derive(Drop)]
enum Current {
    P1(State<P1>),
    P2(State<P2>),
    Planes(State<Planes>),
    Split(State<Split>),
}

#[derive(Drop)]
pub(crate) struct Session {
    heap: Global,
    // The kernel of the last accepted plan, or the run that it was moved into.
    current: Option<Current>,
}

impl Session {
    pub(crate) fn new(heap: Global) -> Session {
        Session {
            heap,
            current: None,
        }
    }

    // The reply to a line, or none where it is blank or a comment.
    pub(crate) fn answer(&mut self, line: u64, bytes: &[u8]) -> Result<Option<Reply>, AllocError> {
        self.take_line(bytes).or_else(|fault| match fault {
            Fault::Expected(what) => Ok(Some(Reply::Expected { line, what })),
            Fault::Memory => Err(AllocError),
        })
    }

    fn take_line(&mut self, bytes: &[u8]) -> Result<Option<Reply>, Fault> {
        let text = std::str::from_utf8(bytes).map_err(|_| Fault::Expected("text in UTF-8"))?;
        let mut words = Words::of_text(self.heap, text, COMMANDS);
        let Some(command) = words.next() else {
            return Ok(None);
        };
        if command.starts_with('#') {
            return Ok(None);
        }
        if command == "plan" {
            let line = PlanLine::parse(&mut words)?;
            return Ok(Some(self.take_plan(line.kind, &line.request)));
        }
        let line = Line::parse(command, &mut words)?;
        Ok(Some(self.take(&line)?))
    }

    fn take_plan(&mut self, kind: u16, request: &Request) -> Reply
        ensures { PlanText kind request.now (reply_text result) }
    {
        let answer = AnyPlan::check(kind, request);
        if let Ok(plan) = answer {
            self.current = Some(plan.into());
        }
        answer.into()
    }

    // What is current is moved out for the line, and moved back.
    fn take(&mut self, line: &Line) -> Result<Reply, Fault> {
        let Some(current) = self.current.take() else {
            return Err(Fault::Expected(NO_KERNEL));
        };
        let (current, reply) = current.respond(self.heap, line);
        self.current = Some(current);
        reply
    }
}

impl Current {
    // A run is moved by its calls, and each kernel's run is of another type, so every arm moves its state out and back.
    fn respond(self, heap: Global, line: &Line) -> (Current, Result<Reply, Fault>) {
        match self {
            Current::P1(state) => {
                let (state, reply) = state.respond(heap, line);
                (Current::P1(state), reply)
            }
            Current::P2(state) => {
                let (state, reply) = state.respond(heap, line);
                (Current::P2(state), reply)
            }
            Current::Planes(state) => {
                let (state, reply) = state.respond(heap, line);
                (Current::Planes(state), reply)
            }
            Current::Split(state) => {
                let (state, reply) = state.respond(heap, line);
                (Current::Split(state), reply)
            }
        }
    }
}

// A new kernel of a plan.
impl From<AnyPlan> for Current {
    fn from(plan: AnyPlan) -> Current {
        match plan {
            AnyPlan::P1(plan) => Current::P1(State::Kernel(P1::of_plan(plan))),
            AnyPlan::P2(plan) => Current::P2(State::Kernel(P2::of_plan(plan))),
            AnyPlan::Planes(plan) => Current::Planes(State::Kernel(Planes::of_plan(plan))),
            AnyPlan::Split(plan) => Current::Split(State::Kernel(Split::of_plan(plan))),
        }
    }
}
