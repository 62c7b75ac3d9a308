//! Functions of the library are called over a rank's memory.
ghost use Rattle.std.specs.Prelude.{◌≤◌, length, IfOk};

use crate::failed::Failed;
use crate::memories::heap;
use am_base::{LibCall, RankId};
use c_lib::call;
use rank_range::{BadAddress, FlatMem, LibStop, Mem};
use std::alloc::{AllocError, Global};

/// Which function is called.
#[derive(Clone, Copy)]
pub enum Function {
    /// A format with a conversion for each of some numbers of seven digits is printed.
    Printf,
    /// A block is copied from the heap's start to its end.
    Memcpy,
}

impl Function {
    pub(crate) fn of(kind: &str) -> Option<Function> {
        match kind {
            "printf" => Some(Function::Printf),
            "memcpy" => Some(Function::Memcpy),
            _ => None,
        }
    }
}

/// How many bytes are printed or copied in so many turns. The size is how many numbers the format has, or the bytes of the block; the
/// heap must have room for the one or the other.
pub(crate) fn bytes_given(
    alloc: Global,
    function: Function,
    size: u32,
    turns: u32,
) -> Result<u64, Failed> {
    let mut memory: FlatMem = FlatMem::fresh(alloc, RankId(0))?;
    match function {
        Function::Printf => printed(alloc, &mut memory, size, turns),
        Function::Memcpy => copied(alloc, &mut memory, size, turns),
    }
}

fn printed<M: Mem>(alloc: Global, memory: &mut M, numbers: u32, turns: u32) -> Result<u64, Failed> {
    let (start, _end) = heap(memory);
    put_format(alloc, memory, start, numbers)?;
    let args = arguments_of(alloc, start, numbers)?;
    let mut count = 0u64;
    for _turn in 0..turns {
        count = count.saturating_add(bytes_printed(alloc, memory, &args)?);
    }
    Ok(count)
}

fn bytes_printed<M: Mem>(alloc: Global, memory: &mut M, args: &[u64]) -> Result<u64, Failed>
    requires { 1 ≤ length args.now }
{
    match call(alloc, LibCall::Printf, args, memory) {
        Ok(out) => Ok(out.text.len() as u64),
        Err(stop) => Err(failed_by(stop)),
    }
}

/// Puts the format there: `%d` and a space for each number, and the zero.
fn put_format<M: Mem>(
    alloc: Global,
    memory: &mut M,
    start: u64,
    numbers: u32,
) -> Result<(), Failed> {
    let format = format_of(alloc, numbers)?;
    match memory.write(start, format.as_str().as_bytes()) {
        Ok(()) => Ok(()),
        Err(BadAddress) => Err(Failed::Refused),
    }
}

fn format_of(alloc: Global, numbers: u32) -> Result<String, AllocError> {
    let mut format = String::new(alloc);
    for _number in 0..numbers {
        format.push_str("%d ")?;
    }
    format.push_str("\0")?;
    Ok(format)
}

/// The format's address, and the numbers.
fn arguments_of(alloc: Global, start: u64, numbers: u32) -> Result<Vec<u64>, AllocError>
    ensures { IfOk result (λ args. 1 ≤ length args.items) }
{
    let mut args = Vec::new(alloc);
    args.push(start)?;
    for number in 0..numbers {
        args.push(1_000_000 + u64::from(number))?;
    }
    Ok(args)
}

fn copied<M: Mem>(alloc: Global, memory: &mut M, size: u32, turns: u32) -> Result<u64, Failed> {
    let (start, end) = heap(memory);
    let size = u64::from(size);
    let to = end.saturating_sub(size);
    for _turn in 0..turns {
        match call(alloc, LibCall::Memcpy, &[to, start, size], memory) {
            Ok(_out) => (),
            Err(stop) => return Err(failed_by(stop)),
        }
    }
    Ok(size.saturating_mul(u64::from(turns)))
}

fn failed_by(stop: LibStop) -> Failed {
    match stop {
        LibStop::Memory => Failed::Memory,
        LibStop::Trap(_) => Failed::Refused,
    }
}
