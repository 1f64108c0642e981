// The console: a text line in, a text line out. It reads standard input to its end.
#![tactic(auto)]

mod session;

use session::Session;
use std::io::{BufRead, BufReader};

fn main(rt: HostRuntime) -> anyhow::Result<()> {
    let heap = rt.alloc();
    let mut session = Session::new(heap);
    let mut input = BufReader::new(heap, rt.stdin())?;
    let mut bytes = Vec::new(heap);
    // Lines are read as bytes, since one that is no UTF-8 is counted and answered too; a reader has no `split`.
    for line in 1..u64::MAX {
        bytes.clear();
        if input.read_until(b'\n', &mut bytes)? == 0 {
            break;
        }
        if let Some(reply) = session.answer(line, bytes.as_slice())? {
            println!(rt; "{reply}")?;
        }
    }
    Ok(())
}
