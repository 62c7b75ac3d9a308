//! The calls over a rank's memory: a thin layer over `formats`, `numbers` and `texts`.

ghost use Rattle.std.specs.Prelude.{◌≡◌, ◌≤◌, ◌++◌, [], codes, length, IsTrue, IfOk, OnOk, OnErr};
ghost use Rattle.am_base.specs.declared.calls.LibCall.TheVariants as lib;
ghost use Rattle.am_base.specs.Calls.{lib_parameters};
ghost use Rattle.rank_range.specs.Layout.{MarksChanges};
ghost use Rattle.rank_range.specs.Areas.{Areas, areas_of};
ghost use Rattle.rank_range.specs.Library.{library_does, Does};
ghost use Rattle.c_lib.specs.Answers.{is_made, is_reading, Tells, LeavesTheRest};

use crate::memory::{copy, fill, rest_at, text_at, view};
use crate::numbers::{signed_value, word_of};
use crate::printing::append_format;
use crate::texts::{atoi_bits, compared, texts_compared};
use am_base::{Bytes, LibCall, TrapCause};
use rank_range::{BadAddress, Kind, LibOut, LibStop, Mem, extended};
use std::alloc::{AllocError, Global};

/// Makes a call of the library. Its value, its text and the memory then are those of its definition, and it traps just where
/// that does. No byte changes that the rank's program may not reach, and none at all where the call traps or the host's memory
/// runs out.
pub fn call<M: Mem>(
    alloc: Global,
    which: LibCall,
    args: &[u64],
    m: &mut M,
) -> Result<LibOut, LibStop>
    requires made { IsTrue (is_made which) }
    requires enough { length (lib_parameters which) ≤ length args.now }
    ensures done { Tells (library_does which args.now (areas_of (M.rank_of m.old) (M.top_of m.old) (M.bytes_of m.old))) (areas_of (M.rank_of m.old) (M.top_of m.old) (M.bytes_of m.new)) result }
    ensures rest { OnOk result (LeavesTheRest (M.rank_of m.old) (M.top_of m.old) (M.bytes_of m.old) (M.bytes_of m.new)) }
    ensures marks { OnOk result (MarksChanges (M.bytes_of m.old) (M.bytes_of m.new) (M.marks_of m.old) (M.marks_of m.new)) }
    ensures same { OnErr result (M.bytes_of m.new ≡ M.bytes_of m.old) }
    ensures same_marks { OnErr result (M.marks_of m.new ≡ M.marks_of m.old) }
    ensures owner { M.rank_of m.new ≡ M.rank_of m.old }
    ensures stack { M.top_of m.new ≡ M.top_of m.old }
{
    match which {
        LibCall::Memcpy => memcpy(alloc, args, m),
        LibCall::Memset => memset(alloc, args, m),
        LibCall::Strcpy => strcpy(alloc, args, m),
        _ => reading_call(alloc, which, args, m),
    }
}

/// Makes a call that changes no memory.
fn reading_call<M: Mem>(
    alloc: Global,
    which: LibCall,
    args: &[u64],
    m: &M,
) -> Result<LibOut, LibStop>
    requires made { IsTrue (is_reading which) }
    requires enough { length (lib_parameters which) ≤ length args.now }
    ensures { Tells (library_does which args.now (areas_of (M.rank_of m.now) (M.top_of m.now) (M.bytes_of m.now))) (areas_of (M.rank_of m.now) (M.top_of m.now) (M.bytes_of m.now)) result }
{
    match which {
        LibCall::Printf => printf(alloc, args, m),
        LibCall::Puts => puts(alloc, args, m),
        LibCall::Putchar => putchar(alloc, args),
        LibCall::Memcmp => memcmp(alloc, args, m),
        LibCall::Strlen => strlen(alloc, args, m),
        LibCall::Strcmp => strcmp(alloc, args, m),
        LibCall::Atoi => atoi(alloc, args, m),
        LibCall::Abs => Ok(abs(alloc, args)),
        _ => unreachable!(),
    }
}

/// A value with no text.
fn silent(alloc: Global, value: u64) -> LibOut
    ensures value { result.value ≡ value }
    ensures text { result.text ≡ [] }
{
    LibOut {
        value,
        text: Bytes::new(alloc),
    }
}

#[tactic(auto, unfolding(rank_range::specs::Library::library_does, rank_range::specs::Kinds::extended))]
fn printf<M: Mem>(alloc: Global, args: &[u64], m: &M) -> Result<LibOut, LibStop>
    requires { 1 ≤ length args.now }
    ensures { Tells (library_does lib.Printf args.now (areas_of (M.rank_of m.now) (M.top_of m.now) (M.bytes_of m.now))) (areas_of (M.rank_of m.now) (M.top_of m.now) (M.bytes_of m.now)) result }
{
    let mut text = Bytes::new(alloc);
    match append_format(alloc, &mut text, rest_at(m, args[0]), &args[1..], m) {
        Ok(()) => {
            let value = extended(Kind::Int, text.len() as u64);
            Ok(LibOut { value, text })
        }
        Err(stop) => Err(stop),
    }
}

#[tactic(auto, unfolding(rank_range::specs::Library::library_does))]
fn puts<M: Mem>(alloc: Global, args: &[u64], m: &M) -> Result<LibOut, LibStop>
    requires { 1 ≤ length args.now }
    ensures { Tells (library_does lib.Puts args.now (areas_of (M.rank_of m.now) (M.top_of m.now) (M.bytes_of m.now))) (areas_of (M.rank_of m.now) (M.top_of m.now) (M.bytes_of m.now)) result }
{
    match text_at(m, args[0]) {
        Some(line) => match with_newline(alloc, line) {
            Ok(text) => Ok(LibOut { value: 0, text }),
            Err(AllocError) => Err(LibStop::Memory),
        },
        None => Err(LibStop::Trap(TrapCause::BadAddress)),
    }
}

fn with_newline(alloc: Global, line: &[u8]) -> Result<Bytes, AllocError>
    ensures { IfOk result (λ text. text ≡ line.now ++ codes "\n") }
{
    let mut text = Bytes::from_slice(alloc, line)?;
    text.push(b'\n')?;
    Ok(text)
}

#[tactic(auto, unfolding(rank_range::specs::Library::library_does))]
fn putchar(alloc: Global, args: &[u64]) -> Result<LibOut, LibStop>
    requires { 1 ≤ length args.now }
    ensures { (areas : Areas) → Tells (library_does lib.Putchar args.now areas) areas result }
{
    let value = args[0] % 256;
    match Bytes::from_slice(alloc, &[value as u8]) {
        Ok(text) => Ok(LibOut { value, text }),
        Err(AllocError) => Err(LibStop::Memory),
    }
}

#[tactic(auto, unfolding(rank_range::specs::Library::library_does))]
fn memcmp<M: Mem>(alloc: Global, args: &[u64], m: &M) -> Result<LibOut, LibStop>
    requires { 3 ≤ length args.now }
    ensures { Tells (library_does lib.Memcmp args.now (areas_of (M.rank_of m.now) (M.top_of m.now) (M.bytes_of m.now))) (areas_of (M.rank_of m.now) (M.top_of m.now) (M.bytes_of m.now)) result }
{
    match view(m, args[0], args[2]) {
        Some(xs) => match view(m, args[1], args[2]) {
            Some(ys) => Ok(silent(alloc, word_of(compared(xs, ys)))),
            None => Err(LibStop::Trap(TrapCause::BadAddress)),
        },
        None => Err(LibStop::Trap(TrapCause::BadAddress)),
    }
}

#[tactic(auto, unfolding(rank_range::specs::Library::library_does))]
fn strlen<M: Mem>(alloc: Global, args: &[u64], m: &M) -> Result<LibOut, LibStop>
    requires { 1 ≤ length args.now }
    ensures { Tells (library_does lib.Strlen args.now (areas_of (M.rank_of m.now) (M.top_of m.now) (M.bytes_of m.now))) (areas_of (M.rank_of m.now) (M.top_of m.now) (M.bytes_of m.now)) result }
{
    match text_at(m, args[0]) {
        Some(text) => Ok(silent(alloc, text.len() as u64)),
        None => Err(LibStop::Trap(TrapCause::BadAddress)),
    }
}

#[tactic(auto, unfolding(rank_range::specs::Library::library_does))]
fn strcmp<M: Mem>(alloc: Global, args: &[u64], m: &M) -> Result<LibOut, LibStop>
    requires { 2 ≤ length args.now }
    ensures { Tells (library_does lib.Strcmp args.now (areas_of (M.rank_of m.now) (M.top_of m.now) (M.bytes_of m.now))) (areas_of (M.rank_of m.now) (M.top_of m.now) (M.bytes_of m.now)) result }
{
    match texts_compared(rest_at(m, args[0]), rest_at(m, args[1])) {
        Some(order) => Ok(silent(alloc, word_of(order))),
        None => Err(LibStop::Trap(TrapCause::BadAddress)),
    }
}

#[tactic(auto, unfolding(rank_range::specs::Library::library_does))]
fn atoi<M: Mem>(alloc: Global, args: &[u64], m: &M) -> Result<LibOut, LibStop>
    requires { 1 ≤ length args.now }
    ensures { Tells (library_does lib.Atoi args.now (areas_of (M.rank_of m.now) (M.top_of m.now) (M.bytes_of m.now))) (areas_of (M.rank_of m.now) (M.top_of m.now) (M.bytes_of m.now)) result }
{
    match atoi_bits(rest_at(m, args[0])) {
        Some(bits) => Ok(silent(alloc, extended(Kind::Int, bits as u64))),
        None => Err(LibStop::Trap(TrapCause::BadAddress)),
    }
}

#[tactic(auto, unfolding(rank_range::specs::Library::library_does, rank_range::specs::Kinds::extended))]
fn abs(alloc: Global, args: &[u64]) -> LibOut
    requires { 1 ≤ length args.now }
    ensures { (areas : Areas) → library_does lib.Abs args.now areas ≡ Does result.value result.text areas }
{
    let value = signed_value(false, args[0]);
    silent(alloc, extended(Kind::Int, value.unsigned_abs()))
}

#[tactic(auto, unfolding(rank_range::specs::Library::library_does))]
fn memcpy<M: Mem>(alloc: Global, args: &[u64], m: &mut M) -> Result<LibOut, LibStop>
    requires { 3 ≤ length args.now }
    ensures done { Tells (library_does lib.Memcpy args.now (areas_of (M.rank_of m.old) (M.top_of m.old) (M.bytes_of m.old))) (areas_of (M.rank_of m.old) (M.top_of m.old) (M.bytes_of m.new)) result }
    ensures rest { OnOk result (LeavesTheRest (M.rank_of m.old) (M.top_of m.old) (M.bytes_of m.old) (M.bytes_of m.new)) }
    ensures marks { OnOk result (MarksChanges (M.bytes_of m.old) (M.bytes_of m.new) (M.marks_of m.old) (M.marks_of m.new)) }
    ensures same { OnErr result (M.bytes_of m.new ≡ M.bytes_of m.old) }
    ensures same_marks { OnErr result (M.marks_of m.new ≡ M.marks_of m.old) }
    ensures owner { M.rank_of m.new ≡ M.rank_of m.old }
    ensures stack { M.top_of m.new ≡ M.top_of m.old }
{
    match copy(m, args[0], args[1], args[2]) {
        Ok(()) => Ok(silent(alloc, args[0])),
        Err(BadAddress) => Err(LibStop::Trap(TrapCause::BadAddress)),
    }
}

#[tactic(auto, unfolding(rank_range::specs::Library::library_does))]
fn memset<M: Mem>(alloc: Global, args: &[u64], m: &mut M) -> Result<LibOut, LibStop>
    requires { 3 ≤ length args.now }
    ensures done { Tells (library_does lib.Memset args.now (areas_of (M.rank_of m.old) (M.top_of m.old) (M.bytes_of m.old))) (areas_of (M.rank_of m.old) (M.top_of m.old) (M.bytes_of m.new)) result }
    ensures rest { OnOk result (LeavesTheRest (M.rank_of m.old) (M.top_of m.old) (M.bytes_of m.old) (M.bytes_of m.new)) }
    ensures marks { OnOk result (MarksChanges (M.bytes_of m.old) (M.bytes_of m.new) (M.marks_of m.old) (M.marks_of m.new)) }
    ensures same { OnErr result (M.bytes_of m.new ≡ M.bytes_of m.old) }
    ensures same_marks { OnErr result (M.marks_of m.new ≡ M.marks_of m.old) }
    ensures owner { M.rank_of m.new ≡ M.rank_of m.old }
    ensures stack { M.top_of m.new ≡ M.top_of m.old }
{
    match fill(m, args[0], args[2], (args[1] % 256) as u8) {
        Ok(()) => Ok(silent(alloc, args[0])),
        Err(BadAddress) => Err(LibStop::Trap(TrapCause::BadAddress)),
    }
}

#[tactic(auto, unfolding(rank_range::specs::Library::library_does))]
fn strcpy<M: Mem>(alloc: Global, args: &[u64], m: &mut M) -> Result<LibOut, LibStop>
    requires { 2 ≤ length args.now }
    ensures done { Tells (library_does lib.Strcpy args.now (areas_of (M.rank_of m.old) (M.top_of m.old) (M.bytes_of m.old))) (areas_of (M.rank_of m.old) (M.top_of m.old) (M.bytes_of m.new)) result }
    ensures rest { OnOk result (LeavesTheRest (M.rank_of m.old) (M.top_of m.old) (M.bytes_of m.old) (M.bytes_of m.new)) }
    ensures marks { OnOk result (MarksChanges (M.bytes_of m.old) (M.bytes_of m.new) (M.marks_of m.old) (M.marks_of m.new)) }
    ensures same { OnErr result (M.bytes_of m.new ≡ M.bytes_of m.old) }
    ensures same_marks { OnErr result (M.marks_of m.new ≡ M.marks_of m.old) }
    ensures owner { M.rank_of m.new ≡ M.rank_of m.old }
    ensures stack { M.top_of m.new ≡ M.top_of m.old }
{
    let n = match text_at(m, args[1]) {
        Some(text) => text.len() as u64 + 1,
        None => return Err(LibStop::Trap(TrapCause::BadAddress)),
    };
    match copy(m, args[0], args[1], n) {
        Ok(()) => Ok(silent(alloc, args[0])),
        Err(BadAddress) => Err(LibStop::Trap(TrapCause::BadAddress)),
    }
}
