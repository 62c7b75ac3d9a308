//! What a program loads from and stores into a rank's memory, as the machine's definition has it.

ghost use Rattle.std.specs.Prelude.{◌≡◌, ◌≤◌, ℕ, OnErr};
ghost use Rattle.std.specs.Result.{result_ok};
ghost use Rattle.rank_range.specs.Areas.{memory_of};
ghost use Rattle.vm_code.specs.Memory.{loaded, stored, copied, zeroed};
ghost use Rattle.rank_machine.specs.View.{frames_of};
ghost use Rattle.rank_machine.specs.Steps.{Kept, where_ok};

use rank_range::{BadAddress, Kind, Mem, access, extended};

/// The word of the number of the kind at the address.
#[tactic(auto, unfolding(vm_code::specs::Memory::loaded, rank_range::specs::Areas::memory_of))]
pub fn load<M: Mem>(memory: &M, kind: Kind, a: u64) -> Result<u64, BadAddress>
    ensures { loaded (memory_of (M.rank_of memory.now) (M.top_of memory.now) (M.bytes_of memory.now)) kind a ≡ result_ok result }
{
    match access::load(memory, a, kind.width()) {
        Ok(number) => Ok(extended(kind, number)),
        Err(bad) => Err(bad),
    }
}

/// Puts the word's low bytes at the address.
pub fn store<M: Mem>(memory: &mut M, kind: Kind, a: u64, word: u64) -> Result<(), BadAddress>
    ensures value { stored (memory_of (M.rank_of memory.old) (M.top_of memory.old) (M.bytes_of memory.old)) kind a word ≡ where_ok result (memory_of (M.rank_of memory.old) (M.top_of memory.old) (M.bytes_of memory.new)) }
    ensures same { OnErr result (M.bytes_of memory.new ≡ M.bytes_of memory.old) }
    ensures frames { (limit k : ℕ) → k ≤ 256 → frames_of (M.bytes_of memory.new) limit k ≡ frames_of (M.bytes_of memory.old) limit k }
    ensures kept { Kept (M.rank_of memory.old) (M.rank_of memory.new) (M.bytes_of memory.old) (M.bytes_of memory.new) (M.marks_of memory.old) (M.marks_of memory.new) }
    ensures stack { M.top_of memory.new ≡ M.top_of memory.old }
{
    access::store(memory, a, kind.width(), word)
}

/// Puts `n` bytes from the address `source` on to the address `target`.
pub fn copy<M: Mem>(memory: &mut M, target: u64, source: u64, n: u64) -> Result<(), BadAddress>
    ensures value { copied (memory_of (M.rank_of memory.old) (M.top_of memory.old) (M.bytes_of memory.old)) target source n ≡ where_ok result (memory_of (M.rank_of memory.old) (M.top_of memory.old) (M.bytes_of memory.new)) }
    ensures same { OnErr result (M.bytes_of memory.new ≡ M.bytes_of memory.old) }
    ensures frames { (limit k : ℕ) → k ≤ 256 → frames_of (M.bytes_of memory.new) limit k ≡ frames_of (M.bytes_of memory.old) limit k }
    ensures kept { Kept (M.rank_of memory.old) (M.rank_of memory.new) (M.bytes_of memory.old) (M.bytes_of memory.new) (M.marks_of memory.old) (M.marks_of memory.new) }
    ensures stack { M.top_of memory.new ≡ M.top_of memory.old }
{
    access::copy(memory, target, source, n)
}

/// Makes `n` bytes from the address on zero.
pub fn zero<M: Mem>(memory: &mut M, a: u64, n: u64) -> Result<(), BadAddress>
    ensures value { zeroed (memory_of (M.rank_of memory.old) (M.top_of memory.old) (M.bytes_of memory.old)) a n ≡ where_ok result (memory_of (M.rank_of memory.old) (M.top_of memory.old) (M.bytes_of memory.new)) }
    ensures same { OnErr result (M.bytes_of memory.new ≡ M.bytes_of memory.old) }
    ensures frames { (limit k : ℕ) → k ≤ 256 → frames_of (M.bytes_of memory.new) limit k ≡ frames_of (M.bytes_of memory.old) limit k }
    ensures kept { Kept (M.rank_of memory.old) (M.rank_of memory.new) (M.bytes_of memory.old) (M.bytes_of memory.new) (M.marks_of memory.old) (M.marks_of memory.new) }
    ensures stack { M.top_of memory.new ≡ M.top_of memory.old }
{
    access::fill(memory, a, n, 0)
}
