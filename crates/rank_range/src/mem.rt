//! What the memory of a rank is.

ghost use Rattle.std.specs.Prelude.{◌≡◌, ◌↔◌, ◌+◌, ◌-◌, ◌<◌, ◌≤◌, ◌^◌, ℕ, Bool, List, length, replicate, IsTrue, IfOk, OnOk, OnErr};
ghost use Rattle.rank_range.specs.Layout.{Accessible, base_of, range_bytes, stack_start, IsRange, IsZeroed, IsMarked, MarksChanges};
ghost use Rattle.rank_range.specs.Numbers.{bytes_in, number_at, with_number};
ghost use Rattle.rank_range.specs.Parts.{part, with_part};

use crate::Width;
use am_base::RankId;
use std::alloc::{AllocError, Global};
use thiserror::Error;

/// The bytes are not all in one accessible area of the rank.
#[derive(Clone, Copy, Debug, PartialEq, Eq, Error)]
#[error("bad address")]
pub struct BadAddress;

/// The memory of one rank: 1,048,576 bytes from its base on, the top of its data stack, and a mark for each of its 256
/// pages of 4,096 bytes. A call that changes a byte marks its page, and only `clean` takes marks away. Only `fresh`
/// takes memory of the host. The layout is this profile's own.
pub trait Mem {
    // The number of the rank whose memory it is.
    ghost rank_of: { Self → ℕ };

    // The offset at which the data stack ends.
    ghost top_of: { Self → ℕ };

    // All bytes.
    ghost bytes_of: { Self → List ℕ };

    // The mark of each page.
    ghost marks_of: { Self → ℕ → Bool };

    /// The rank's memory with every byte zero, an empty data stack and all pages marked.
    fn fresh(alloc: Global, rank: RankId) -> Result<Self, AllocError>
    where
        Self: Sized,
        ensures owner { IfOk result (λ m. rank_of m ≡ rank.0) }
        ensures empty { IfOk result (λ m. top_of m ≡ stack_start) }
        ensures zeroed { IfOk result (λ m. IsZeroed (bytes_of m)) }
        ensures marked { IfOk result (λ m. (page : ℕ) → page < 256 → IsMarked (marks_of m) page) };

    /// The rank whose memory it is.
    fn rank(&self) -> RankId
        ensures value { result.0 ≡ rank_of self.now }
        ensures range { IsRange (top_of self.now) (bytes_of self.now) };

    /// The offset at which the data stack ends.
    fn top(&self) -> u32
        ensures value { result ≡ top_of self.now }
        ensures range { IsRange (top_of self.now) (bytes_of self.now) };

    /// Whether the page has its mark.
    fn dirty(&self, page: u32) -> bool
        requires { page < 256 }
        ensures { IsTrue result ↔ IsMarked (marks_of self.now) page };

    /// Whether the `n` bytes from the address `a` on are all in one accessible area.
    fn accessible(&self, a: u64, n: u64) -> bool
        ensures { IsTrue result ↔ Accessible (rank_of self.now) (top_of self.now) a n };

    /// The number at the address `a`, refused just where its bytes are not all in one accessible area.
    fn load(&self, a: u64, width: Width) -> Result<u64, BadAddress>
        ensures value { IfOk result (λ v. v ≡ number_at (bytes_of self.now) (a - base_of (rank_of self.now)) (bytes_in width)) }
        ensures fits { IfOk result (λ v. v < 256 ^ bytes_in width) }
        ensures ok { OnOk result (Accessible (rank_of self.now) (top_of self.now) a (bytes_in width)) }
        ensures refused { OnErr result (Accessible (rank_of self.now) (top_of self.now) a (bytes_in width) → ⊥) };

    /// Puts the lowest bytes of `value` at the address `a`, refused just where its bytes are not all in one accessible
    /// area. A refused store changes nothing.
    fn store(&mut self, a: u64, width: Width, value: u64) -> Result<(), BadAddress>
        ensures bytes { OnOk result (bytes_of self.new ≡ with_number (bytes_of self.old) (a - base_of (rank_of self.old)) (bytes_in width) value) }
        ensures ok { OnOk result (Accessible (rank_of self.old) (top_of self.old) a (bytes_in width)) }
        ensures marks { OnOk result (MarksChanges (bytes_of self.old) (bytes_of self.new) (marks_of self.old) (marks_of self.new)) }
        ensures refused { OnErr result (Accessible (rank_of self.old) (top_of self.old) a (bytes_in width) → ⊥) }
        ensures same_bytes { OnErr result (bytes_of self.new ≡ bytes_of self.old) }
        ensures same_marks { OnErr result (marks_of self.new ≡ marks_of self.old) }
        ensures owner { rank_of self.new ≡ rank_of self.old }
        ensures stack { top_of self.new ≡ top_of self.old };

    /// The `n` bytes from the address `a` on, refused just where they are not all in one accessible area.
    fn view(&self, a: u64, n: u64) -> Result<&[u8], BadAddress>
        ensures value { IfOk result (λ bytes. bytes.now ≡ part (bytes_of self.now) (a - base_of (rank_of self.now)) n) }
        ensures ok { OnOk result (Accessible (rank_of self.now) (top_of self.now) a n) }
        ensures refused { OnErr result (Accessible (rank_of self.now) (top_of self.now) a n → ⊥) };

    /// Puts the bytes at the address `a`, refused just where they wouldn't all be in one accessible area. A refused call
    /// changes nothing; so it is with `copy` and `fill`.
    fn write(&mut self, a: u64, bytes: &[u8]) -> Result<(), BadAddress>
        ensures bytes { OnOk result (bytes_of self.new ≡ with_part (bytes_of self.old) (a - base_of (rank_of self.old)) bytes.now) }
        ensures ok { OnOk result (Accessible (rank_of self.old) (top_of self.old) a (length bytes.now)) }
        ensures marks { OnOk result (MarksChanges (bytes_of self.old) (bytes_of self.new) (marks_of self.old) (marks_of self.new)) }
        ensures refused { OnErr result (Accessible (rank_of self.old) (top_of self.old) a (length bytes.now) → ⊥) }
        ensures same_bytes { OnErr result (bytes_of self.new ≡ bytes_of self.old) }
        ensures same_marks { OnErr result (marks_of self.new ≡ marks_of self.old) }
        ensures owner { rank_of self.new ≡ rank_of self.old }
        ensures stack { top_of self.new ≡ top_of self.old };

    /// Puts the `n` bytes from the address `from` on to the address `to`, as if by a buffer. It is refused just where the ones
    /// or the others are not all in one accessible area.
    fn copy(&mut self, to: u64, from: u64, n: u64) -> Result<(), BadAddress>
        ensures bytes { OnOk result (bytes_of self.new ≡ with_part (bytes_of self.old) (to - base_of (rank_of self.old)) (part (bytes_of self.old) (from - base_of (rank_of self.old)) n)) }
        ensures there { OnOk result (Accessible (rank_of self.old) (top_of self.old) from n) }
        ensures room { OnOk result (Accessible (rank_of self.old) (top_of self.old) to n) }
        ensures marks { OnOk result (MarksChanges (bytes_of self.old) (bytes_of self.new) (marks_of self.old) (marks_of self.new)) }
        ensures refused { OnErr result (Accessible (rank_of self.old) (top_of self.old) from n → Accessible (rank_of self.old) (top_of self.old) to n → ⊥) }
        ensures same_bytes { OnErr result (bytes_of self.new ≡ bytes_of self.old) }
        ensures same_marks { OnErr result (marks_of self.new ≡ marks_of self.old) }
        ensures owner { rank_of self.new ≡ rank_of self.old }
        ensures stack { top_of self.new ≡ top_of self.old };

    /// Puts the byte into the `n` places from the address `a` on, refused just where they are not all in one accessible area.
    fn fill(&mut self, a: u64, n: u64, byte: u8) -> Result<(), BadAddress>
        ensures bytes { OnOk result (bytes_of self.new ≡ with_part (bytes_of self.old) (a - base_of (rank_of self.old)) (replicate n byte)) }
        ensures ok { OnOk result (Accessible (rank_of self.old) (top_of self.old) a n) }
        ensures marks { OnOk result (MarksChanges (bytes_of self.old) (bytes_of self.new) (marks_of self.old) (marks_of self.new)) }
        ensures refused { OnErr result (Accessible (rank_of self.old) (top_of self.old) a n → ⊥) }
        ensures same_bytes { OnErr result (bytes_of self.new ≡ bytes_of self.old) }
        ensures same_marks { OnErr result (marks_of self.new ≡ marks_of self.old) }
        ensures owner { rank_of self.new ≡ rank_of self.old }
        ensures stack { top_of self.new ≡ top_of self.old };

    /// The number at any offset of the range.
    fn raw(&self, at: u32, width: Width) -> u64
        requires { at + bytes_in width ≤ range_bytes }
        ensures value { result ≡ number_at (bytes_of self.now) at (bytes_in width) }
        ensures fits { result < 256 ^ bytes_in width };

    /// Puts the lowest bytes of `value` at any offset of the range.
    fn set_raw(&mut self, at: u32, width: Width, value: u64)
        requires { at + bytes_in width ≤ range_bytes }
        ensures bytes { bytes_of self.new ≡ with_number (bytes_of self.old) at (bytes_in width) value }
        ensures marks { MarksChanges (bytes_of self.old) (bytes_of self.new) (marks_of self.old) (marks_of self.new) }
        ensures owner { rank_of self.new ≡ rank_of self.old }
        ensures stack { top_of self.new ≡ top_of self.old };

    /// Ends the data stack at the offset `top`, which lies in the data stack or at its end.
    fn set_top(&mut self, top: u32)
        requires above { stack_start ≤ top }
        requires below { top ≤ range_bytes }
        ensures stack { top_of self.new ≡ top }
        ensures owner { rank_of self.new ≡ rank_of self.old }
        ensures bytes { bytes_of self.new ≡ bytes_of self.old }
        ensures marks { marks_of self.new ≡ marks_of self.old };

    /// Takes marks away, as many as the kind of memory can do without. It changes no byte and adds no mark.
    fn clean(&mut self)
        ensures bytes { bytes_of self.new ≡ bytes_of self.old }
        ensures marks { (page : ℕ) → page < 256 → IsMarked (marks_of self.new) page → IsMarked (marks_of self.old) page }
        ensures owner { rank_of self.new ≡ rank_of self.old }
        ensures stack { top_of self.new ≡ top_of self.old };
}
