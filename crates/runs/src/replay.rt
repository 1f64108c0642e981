// Lists of calls on a run.
ghost use Rattle.std.specs.Prelude.{◌≡◌, length, drop};
ghost use Rattle.runs.specs.Law.{Turns, Replays, Continues, Agree};

use crate::calls::{Answer, Call};
use crate::run::{OpenRun, SettledRun};
use kernels::kernel::Kernel;

// A run in either state.
#[derive(Drop)]
pub enum Run<K: Kernel> {
    Open(OpenRun<K>),
    Settled(SettledRun<K>),
}

// Opens a run on a kernel and makes a list of calls. Each answer goes to the place of its call; a call that has no such
// place is not made.
pub fn replay<K: Kernel>(kernel: K, calls: &[Call], answers: &mut [Answer]) -> Run<K>
    ensures law { Replays K.Kernel.means K.Kernel.unpacked kernel calls.now answers.new result }
    ensures rest { drop (length calls.now) answers.new ≡ drop (length calls.now) answers.old }
    ensures places { length answers.new ≡ length answers.old }
{
    replay_on(Run::Open(OpenRun::open(kernel)), calls, answers)
}

// Goes on with a run, as `replay` does.
pub fn replay_on<K: Kernel>(mut run: Run<K>, calls: &[Call], answers: &mut [Answer]) -> Run<K>
    ensures law { Continues K.Kernel.means K.Kernel.unpacked run calls.now answers.new result }
    ensures rest { drop (length calls.now) answers.new ≡ drop (length calls.now) answers.old }
    ensures places { length answers.new ≡ length answers.old }
{
    // The answers are indexed, since a `zip` over `iter_mut` leaves open what it wrote.
    for (place, call) in calls.iter().enumerate() {
        if place < answers.len() {
            let (next, answer) = turn(run, call);
            run = next;
            answers[place] = answer;
        }
    }
    run
}

// Two lists of calls on two new runs, on whichever two kernels.
pub fn replay_both<K: Kernel, J: Kernel>(
    left: K,
    calls: &[Call],
    answers: &mut [Answer],
    right: J,
    others: &[Call],
    replies: &mut [Answer],
) -> (Run<K>, Run<J>)
    ensures left { Replays K.Kernel.means K.Kernel.unpacked left calls.now answers.new result.0 }
    ensures right { Replays J.Kernel.means J.Kernel.unpacked right others.now replies.new result.1 }
    ensures agree { Agree (K.Kernel.means left).facts (K.Kernel.unpacked (K.Kernel.means left).facts.shape) calls.now answers.new (J.Kernel.means right).facts (J.Kernel.unpacked (J.Kernel.means right).facts.shape) others.now replies.new }
    ensures answers { drop (length calls.now) answers.new ≡ drop (length calls.now) answers.old }
    ensures replies { drop (length others.now) replies.new ≡ drop (length others.now) replies.old }
    ensures answer_places { length answers.new ≡ length answers.old }
    ensures reply_places { length replies.new ≡ length replies.old }
{
    let first = replay(left, calls, answers);
    let second = replay(right, others, replies);
    (first, second)
}

// One call of a run in either state.
fn turn<K: Kernel>(run: Run<K>, call: &Call) -> (Run<K>, Answer)
    ensures { Turns K.Kernel.means K.Kernel.unpacked run call.now result.1 result.0 }
{
    match run {
        Run::Open(open) => turn_open(open, call),
        Run::Settled(settled) => turn_settled(settled, call),
    }
}

fn turn_open<K: Kernel>(mut run: OpenRun<K>, call: &Call) -> (Run<K>, Answer)
    ensures { Turns K.Kernel.means K.Kernel.unpacked (Run.Open run) call.now result.1 result.0 }
{
    match *call {
        Call::Feed {
            count,
            weights,
            activations,
        } => match run.feed(count, weights, activations) {
            Ok(()) => (Run::Open(run), Answer::Fed),
            Err(refusal) => (Run::Open(run), Answer::FeedRefused(refusal)),
        },
        Call::Settle => (Run::Settled(run.settle()), Answer::Settled),
        _ => (Run::Open(run), Answer::Misplaced),
    }
}

fn turn_settled<K: Kernel>(run: SettledRun<K>, call: &Call) -> (Run<K>, Answer)
    ensures { Turns K.Kernel.means K.Kernel.unpacked (Run.Settled run) call.now result.1 result.0 }
{
    match *call {
        Call::Read { row } => match run.read(row) {
            Ok((sum, steps, drains)) => (Run::Settled(run), Answer::Sum { sum, steps, drains }),
            Err(refusal) => (Run::Settled(run), Answer::ReadRefused(refusal)),
        },
        Call::Resume => (Run::Open(run.resume()), Answer::Resumed),
        Call::Clear => (Run::Open(run.clear()), Answer::Cleared),
        _ => (Run::Settled(run), Answer::Misplaced),
    }
}
