//! A rank's state, packed into its image and unpacked from it.

ghost use Rattle.std.specs.Prelude.{◌≡◌, ◌<◌, ◌≤◌, ◌++◌, ℕ, List, true, false, MatchOption, IfOk, OnOk};
ghost use Rattle.byte_formats.specs.Lawful.{Spells};
ghost use Rattle.rank_range.specs.Layout.{IsMarked};
ghost use Rattle.rank_image.specs.Middle.{middle, tail};
ghost use Rattle.rank_image.specs.Requests.{requests};
ghost use Rattle.rank_image.specs.Image.{Rank, image, is_image, IsImage, rank_number, rank_made, top_at, middle_with, tail_with};
ghost use Rattle.rank_image.specs.State.{rank_of, IsSound, IsUnpacked};

use crate::head::{Head, put_head};
use crate::image::{Parts, Rest, take_image};
use crate::load::Load;
use crate::memory::{memory_of, put_memory};
use crate::middle::{Middle, put_communicators, put_joined};
use crate::records::top_at;
use crate::request_list::put_requests;
use crate::requests::Requests;
use crate::tail::{Tail, put_arrived, put_held, put_pairs, put_tree};
use am_base::{Bytes, RankId};
use byte_formats::{Cursor, Unspelled, put_u16, take_u16};
use mpi_types::{BookLists, MatchBook, MpiState, OwnData, Phase, Reorder, Sequence, Sweep};
use rank_range::{Ending, Mem, Regs};
use std::alloc::{AllocError, Global};
use std::marker::Model;

/// A rank between its ticks.
#[derive(Drop)]
pub struct RankState<M: Mem, B: MatchBook> {
    /// All its bytes, and whose memory it is.
    pub memory: M,
    pub regs: Regs,
    pub ending: Ending,
    pub load: Load,
    pub mpi: MpiState<B>,
    /// The number of the next message to each rank, in the order of ranks.
    pub sent: Sequence<u64>,
    pub reorder: Reorder,
}

/// The bytes of an image.
#[derive(Debug, Drop)]
pub struct ImageBytes {
    bytes: Bytes,
}

impl Model for ImageBytes {
    ghost use Rattle.std.specs.Prelude.{List, ℕ};
    ghost use Rattle.rank_image.specs.Image.{IsImage};

    ghost Value = { List ℕ };

    ghost view = { λ i. i.bytes };

    ghost invariant = { λ i. IsImage i.bytes };
}

impl ImageBytes {
    /// A copy of the bytes, where they are an image.
    ///
    /// # Errors
    ///
    /// Only want of memory.
    pub fn of(alloc: Global, bytes: &[u8]) -> Result<Option<ImageBytes>, AllocError>
        ensures { IfOk result (λ o. MatchOption o (is_image bytes.now ≡ false) (λ i. (i ≡ bytes.now) × (is_image bytes.now ≡ true))) }
    {
        if !is_image(alloc, bytes)? {
            return Ok(None);
        }
        let copy = Bytes::from_slice(alloc, bytes)?;
        Ok(Some(ImageBytes { bytes: copy }))
    }

    /// The rank whose image it is.
    pub fn rank(&self) -> RankId
        ensures value { result.0 ≡ rank_number self.now }
        ensures owner { (r : Rank) → Spells image self.now r → result ≡ r.rank }
    {
        let mut cursor = Cursor {
            rest: self.as_slice(),
        };
        match take_u16(&mut cursor) {
            Ok(number) => RankId(number),
            Err(Unspelled::Bad) => unreachable!(),
            Err(Unspelled::Memory) => unreachable!(),
        }
    }

    /// The bytes, which are the image of one rank.
    pub fn as_slice(&self) -> &[u8]
        ensures value { result.now ≡ self.now }
        ensures image { IsImage self.now }
    {
        self.bytes.as_slice()
    }
}

/// Whether the bytes are an image. It fails only for want of memory.
#[tactic(auto, unfolding(crate::specs::Image::is_image))]
fn is_image(alloc: Global, bytes: &[u8]) -> Result<bool, AllocError>
    ensures told { IfOk result (λ b. b ≡ is_image bytes.now) }
    ensures yes { IfOk result (λ b. b ≡ true → IsImage bytes.now) }
{
    let mut cursor = Cursor { rest: bytes };
    match take_image(alloc, &mut cursor) {
        Ok(parts) => {
            drop(parts);
            Ok(cursor.rest.is_empty())
        }
        Err(Unspelled::Bad) => Ok(false),
        Err(Unspelled::Memory) => Err(AllocError),
    }
}

/// The image of a sound state.
///
/// # Errors
///
/// Only want of memory.
pub fn pack<M: Mem, B: MatchBook>(
    alloc: Global,
    s: &RankState<M, B>,
) -> Result<ImageBytes, AllocError>
    requires { IsSound (rank_of (M.rank_of s.now.memory) (M.bytes_of s.now.memory) s.now.regs s.now.ending s.now.load s.now.mpi.own s.now.mpi.sweep (B.held s.now.mpi.book) s.now.sent s.now.reorder) (M.top_of s.now.memory) }
    ensures { IfOk result (λ b. Spells image b (rank_of (M.rank_of s.now.memory) (M.bytes_of s.now.memory) s.now.regs s.now.ending s.now.load s.now.mpi.own s.now.mpi.sweep (B.held s.now.mpi.book) s.now.sent s.now.reorder)) }
{
    let lists = s.mpi.book.lists(alloc)?;
    let mut out = Bytes::new(alloc);
    let put = put_state(&mut out, s, &lists);
    drop(lists);
    match put {
        Ok(()) => Ok(ImageBytes { bytes: out }),
        Err(error) => {
            drop(out);
            Err(error)
        }
    }
}

/// Appends the image of a state whose book stands for these lists.
#[tactic(auto, unfolding(crate::specs::Image::image, crate::specs::Middle::rank))]
fn put_state<M: Mem, B: MatchBook>(
    out: &mut Bytes,
    s: &RankState<M, B>,
    lists: &BookLists,
) -> Result<(), AllocError>
    requires { image.fits (rank_of (M.rank_of s.now.memory) (M.bytes_of s.now.memory) s.now.regs s.now.ending s.now.load s.now.mpi.own s.now.mpi.sweep lists.now s.now.sent s.now.reorder) ≡ true }
    ensures { OnOk result (out.new ≡ out.old ++ image.spell (rank_of (M.rank_of s.now.memory) (M.bytes_of s.now.memory) s.now.regs s.now.ending s.now.load s.now.mpi.own s.now.mpi.sweep lists.now s.now.sent s.now.reorder)) }
{
    put_u16(out, s.memory.rank().0)?;
    put_memory(out, &s.memory)?;
    put_head(out, &s.regs, &s.ending, s.mpi.own.phase, &s.load)?;
    put_middle(out, &s.mpi.own, &s.mpi.sweep, lists)?;
    put_tail(out, &s.sent, &s.reorder, &s.mpi.sweep, lists)
}

/// Appends a rank's requests, its communicators, and the collective that it joined.
#[tactic(auto, unfolding(crate::specs::Middle::middle))]
fn put_middle(
    out: &mut Bytes,
    own: &OwnData,
    sweep: &Sweep,
    lists: &BookLists,
) -> Result<(), AllocError>
    requires { middle.fits (middle_with own.now sweep.now lists.now) ≡ true }
    ensures { OnOk result (out.new ≡ out.old ++ middle.spell (middle_with own.now sweep.now lists.now)) }
{
    put_requests(
        out,
        own.next,
        own.complete.as_slice(),
        lists.posted.as_slice(),
        lists.matched.as_slice(),
    )?;
    put_communicators(out, own.communicators.as_slice())?;
    put_joined(out, &sweep.joined)
}

/// Appends what a rank keeps of other ranks.
#[tactic(auto, unfolding(crate::specs::Middle::tail))]
fn put_tail(
    out: &mut Bytes,
    sent: &Sequence<u64>,
    reorder: &Reorder,
    sweep: &Sweep,
    lists: &BookLists,
) -> Result<(), AllocError>
    requires { tail.fits (tail_with sent.now reorder.now sweep.now lists.now) ≡ true }
    ensures { OnOk result (out.new ≡ out.old ++ tail.spell (tail_with sent.now reorder.now sweep.now lists.now)) }
{
    put_pairs(out, sent.as_slice(), reorder.expected.as_slice())?;
    put_held(out, reorder.held.as_slice())?;
    put_arrived(out, lists.arrived.as_slice())?;
    put_tree(out, sweep.tree.as_slice())
}

/// The state whose image the bytes are, with all pages marked. There is none just where they are no image.
///
/// # Errors
///
/// Only want of memory.
pub fn unpack<M: Mem + Drop, B: MatchBook>(
    alloc: Global,
    b: &[u8],
) -> Result<Option<RankState<M, B>>, AllocError>
    ensures unpacked { IfOk result (λ o. MatchOption o ((r : Rank) → Spells image b.now r → ⊥)
        (λ s. IsUnpacked b.now (rank_of (M.rank_of s.memory) (M.bytes_of s.memory) s.regs s.ending s.load s.mpi.own s.mpi.sweep (B.held s.mpi.book) s.sent s.reorder) (M.top_of s.memory))) }
    ensures marked { IfOk result (λ o. MatchOption o (Unit {0}) (λ s. (page : ℕ) → page < 256 → IsMarked (M.marks_of s.memory) page)) }
{
    let mut cursor = Cursor { rest: b };
    match take_image(alloc, &mut cursor) {
        Ok(parts) => {
            let Parts { rank, bytes, rest } = parts;
            if cursor.rest.is_empty() {
                return match with_memory(alloc, rank, bytes, rest) {
                    Ok(state) => Ok(Some(state)),
                    Err(error) => Err(error),
                };
            }
            drop(rest);
            Ok(None)
        }
        Err(Unspelled::Bad) => Ok(None),
        Err(Unspelled::Memory) => Err(AllocError),
    }
}

/// The state of an image, with all pages marked.
///
/// # Errors
///
/// Only want of memory.
pub fn unpack_image<M: Mem + Drop, B: MatchBook>(
    alloc: Global,
    b: &ImageBytes,
) -> Result<RankState<M, B>, AllocError>
    ensures unpacked { IfOk result (λ s. IsUnpacked b.now (rank_of (M.rank_of s.memory) (M.bytes_of s.memory) s.regs s.ending s.load s.mpi.own s.mpi.sweep (B.held s.mpi.book) s.sent s.reorder) (M.top_of s.memory)) }
    ensures marked { IfOk result (λ s. (page : ℕ) → page < 256 → IsMarked (M.marks_of s.memory) page) }
{
    match unpack(alloc, b.as_slice()) {
        Ok(Some(state)) => Ok(state),
        Ok(None) => unreachable!(),
        Err(error) => Err(error),
    }
}

/// The state of an image's parts: its memory is made first.
fn with_memory<M: Mem + Drop, B: MatchBook>(
    alloc: Global,
    rank: RankId,
    bytes: &[u8],
    rest: Rest,
) -> Result<RankState<M, B>, AllocError>
    requires { image.fits (rank_made ((rank, bytes.now), (rest.head, (rest.middle, rest.tail)))) ≡ true }
    ensures state { IfOk result (λ s. rank_of (M.rank_of s.memory) (M.bytes_of s.memory) s.regs s.ending s.load s.mpi.own s.mpi.sweep (B.held s.mpi.book) s.sent s.reorder ≡ rank_made ((rank, bytes.now), (rest.head, (rest.middle, rest.tail)))) }
    ensures stack { IfOk result (λ s. M.top_of s.memory ≡ top_at bytes.now rest.head.regs.depth) }
    ensures marked { IfOk result (λ s. (page : ℕ) → page < 256 → IsMarked (M.marks_of s.memory) page) }
{
    let top = top_at(bytes, rest.head.regs.depth) as u32;
    match memory_of::<M>(alloc, rank, bytes, top) {
        Ok(memory) => with_rest(alloc, memory, rest),
        Err(error) => {
            drop(rest);
            Err(error)
        }
    }
}

/// What a state has of MPI, with the lists of its book.
#[derive(Drop)]
struct MpiParts {
    own: OwnData,
    sweep: Sweep,
    lists: BookLists,
    sent: Sequence<u64>,
    reorder: Reorder,
}

/// What a state has of MPI, of the parts of an image.
fn mpi_of(phase: Phase, middle: Middle, tail: Tail) -> MpiParts
    ensures { (number : ℕ) (bytes : List ℕ) (regs : Regs) (ending : Ending) (load : Load) → rank_of number bytes regs ending load result.own result.sweep result.lists result.sent result.reorder ≡ rank_made ((record { 0 = number }, bytes), (record { regs = regs; ending = ending; phase = phase; load = load }, (middle, tail))) }
{
    let Middle {
        requests,
        communicators,
        joined,
    } = middle;
    let Requests {
        next,
        complete,
        posted,
        matched,
    } = requests;
    let Tail {
        sent,
        expected,
        held,
        arrived,
        tree,
    } = tail;
    let own = OwnData {
        phase,
        next,
        complete,
        communicators,
    };
    let lists = BookLists {
        posted,
        matched,
        arrived,
    };
    let sweep = Sweep { joined, tree };
    let reorder = Reorder { expected, held };
    MpiParts {
        own,
        sweep,
        lists,
        sent,
        reorder,
    }
}

/// The state of a memory and of what stands behind the memory's bytes in an image.
fn with_rest<M: Mem + Drop, B: MatchBook>(
    alloc: Global,
    memory: M,
    rest: Rest,
) -> Result<RankState<M, B>, AllocError>
    requires { requests.fits rest.middle.requests ≡ true }
    ensures memory { IfOk result (λ s. s.memory ≡ memory) }
    ensures rest { IfOk result (λ s. (number : ℕ) (bytes : List ℕ) → rank_of number bytes s.regs s.ending s.load s.mpi.own s.mpi.sweep (B.held s.mpi.book) s.sent s.reorder ≡ rank_made ((record { 0 = number }, bytes), (rest.head, (rest.middle, rest.tail)))) }
{
    let Rest { head, middle, tail } = rest;
    let Head {
        regs,
        ending,
        phase,
        load,
    } = head;
    let MpiParts {
        own,
        sweep,
        lists,
        sent,
        reorder,
    } = mpi_of(phase, middle, tail);
    match B::from_lists(alloc, lists) {
        Ok(book) => Ok(RankState {
            memory,
            regs,
            ending,
            load,
            mpi: MpiState { own, sweep, book },
            sent,
            reorder,
        }),
        Err(error) => {
            drop(memory);
            drop((regs, load, own, sweep, sent, reorder));
            Err(error)
        }
    }
}
