// What any kernel replies to a line.
ghost use Rattle.std.specs.Prelude.{IfOk, OnErr};
ghost use Rattle.replies.specs.Responses.{TakesMemory, Replied, PackReplied, UnpackReplied, After};

use crate::reply::Reply;
use codes::side::Side;
use kernels::kernel::Kernel;
use kernels::lists::{MOST_CODES, pack_codes, unpack_codes, words_needed};
use lines::kernel_line::KernelLine;
use std::alloc::{AllocError, Global};

// Asks a kernel. Memory is needed for the lists of a reply alone; where there is none, the kernel is as it was.
pub fn respond<K: Kernel>(
    heap: Global,
    kernel: &mut K,
    line: &KernelLine,
) -> Result<Reply, AllocError>
    ensures reply { IfOk result (λ reply. Replied K.packed K.unpacked (K.means kernel.old) line.now reply) }
    ensures memory { OnErr result (TakesMemory line.now) }
    ensures after { After K.unpacked (K.means kernel.old) line.now (K.means kernel.new) }
{
    match line {
        KernelLine::Facts => Ok(Reply::Facts(kernel.facts())),
        KernelLine::Pack { side, codes } => pack(heap, kernel, *side, codes.as_slice()),
        KernelLine::Unpack { side, count, words } => unpack(
            heap,
            kernel,
            *side,
            *count,
            words.as_slice(),
        ),
        KernelLine::Step {
            row,
            weights,
            activations,
        } => {
            let stepped = kernel.step(*row, weights.as_slice(), activations.as_slice());
            Ok(stepped.map_or_else(Reply::from, |()| Reply::Stepped))
        }
        KernelLine::Steps { row } => Ok(kernel.steps(*row).map_or_else(Reply::from, Reply::Steps)),
        KernelLine::Drain { row } => Ok(kernel.drain(*row).map_or_else(Reply::from, Reply::Total)),
    }
}

// A list that is too long is lent no words: its count is refused first.
fn pack<K: Kernel>(heap: Global, kernel: &K, side: Side, codes: &[i16]) -> Result<Reply, AllocError>
    ensures { IfOk result (λ reply. PackReplied (K.packed (K.means kernel.now).facts.shape) (K.means kernel.now).facts.shape side codes.now reply) }
{
    let needed = words_needed(&kernel.facts(), side, codes.len()).unwrap_or(0);
    let mut words = vec![in heap; 0u16; needed]?;
    let packed = pack_codes(kernel, side, codes, words.as_mut_slice());
    Ok(packed.map_or_else(Reply::from, |()| Reply::Words(words)))
}

// One code more than a list may have is lent where more are asked for, so that the count is refused and not the memory.
#[tactic(auto, using(crate::proofs::Unpackings::unpacked), unfolding(kernels::specs::Lists::unpack_list_answer))]
fn unpack<K: Kernel>(
    heap: Global,
    kernel: &K,
    side: Side,
    count: usize,
    words: &[u16],
) -> Result<Reply, AllocError>
    ensures { IfOk result (λ reply. UnpackReplied (K.unpacked (K.means kernel.now).facts.shape) (K.means kernel.now).facts.shape side count words.now reply) }
{
    let mut codes = vec![in heap; 0i16; count.min(MOST_CODES + 1)]?;
    let unpacked = unpack_codes(kernel, side, words, codes.as_mut_slice());
    Ok(unpacked.map_or_else(Reply::from, |()| Reply::Codes(codes)))
}
