// A kernel, or the run that it was moved into, and what each answers to a line, over any kernel.
ghost use Rattle.run_console.specs.Replies.{CallAnswered};
ghost use Rattle.replies.specs.Texts.{reply_text};

use crate::line::Line;
use kernels::kernel::Kernel;
use lines::fault::Fault;
use replies::reply::Reply;
use replies::respond::respond;
use runs::calls::{Answer, Call};
use runs::replay::{Run, replay, replay_on};
use std::alloc::Global;

pub(crate) const NO_KERNEL: &str = "a plan before this line";

const NO_RUN: &str = "open before this line";

#[derive(Drop)]
pub(crate) enum State<K: Kernel> {
    Kernel(K),
    Run(Run<K>),
}

impl<K: Kernel> State<K> {
    pub(crate) fn respond(self, heap: Global, line: &Line) -> (State<K>, Result<Reply, Fault>) {
        match self {
            State::Kernel(kernel) => on_kernel(heap, kernel, line),
            State::Run(run) => on_run(run, line),
        }
    }
}

fn on_kernel<K: Kernel>(
    heap: Global,
    mut kernel: K,
    line: &Line,
) -> (State<K>, Result<Reply, Fault>) {
    match line {
        Line::Kernel(line) => {
            let reply = respond(heap, &mut kernel, line);
            (State::Kernel(kernel), reply.map_err(Fault::from))
        }
        Line::Open => (State::Run(replay(kernel, &[], &mut [])), Ok(Reply::Opened)),
        Line::Run(_) => (State::Kernel(kernel), Err(Fault::Expected(NO_RUN))),
    }
}

fn on_run<K: Kernel>(run: Run<K>, line: &Line) -> (State<K>, Result<Reply, Fault>) {
    match line {
        Line::Run(line) => {
            let (run, reply) = answer_call(run, line.call());
            (State::Run(run), Ok(reply))
        }
        _ => (State::Run(run), Err(Fault::Expected(NO_KERNEL))),
    }
}

// Makes one call of a run, as the next of its list. The reply is that of an answer that is right where the run stands.
fn answer_call<K: Kernel>(run: Run<K>, call: Call<'_>) -> (Run<K>, Reply)
    ensures { CallAnswered K.Kernel.means K.Kernel.unpacked run call.entry result.0 (reply_text result.1) }
{
    let calls = [call];
    let mut answers = [Answer::Misplaced];
    let next = replay_on(run, &calls, &mut answers);
    (next, answers[0].into())
}
