//! A rank before its first tick.

ghost use Rattle.std.specs.Prelude.{◌≡◌, ◌≤◌, ◌<◌, [], replicate, None, IfOk};
ghost use Rattle.rank_machine.specs.Opening.{FitsGlobals};
ghost use Rattle.mpi_call.specs.Steady.{members_below, no_lists, own_at_start};
ghost use Rattle.rank_core.specs.Started.{IsStarted, no_output};

use am_base::{Bytes, LineList, RankId};
use mpi_types::{
    BookLists, COMM_WORLD, Communicator, Ctx, Group, MatchBook, MpiState, OwnData, Phase, Reorder,
    Sequence, Sweep,
};
use rank_image::{Load, RankState, Window};
use rank_machine::open;
use rank_range::{Ending, Mem, Output, Regs, Segment};
use std::alloc::{AllocError, Global};

/// What a rank has beside its memory.
struct Rest<B: MatchBook> {
    load: Load,
    mpi: MpiState<B>,
    sent: Sequence<u64>,
    reorder: Reorder,
}

/// The rank before its first tick: the memory that the segment gives it, and of MPI nothing but the world of all ranks.
///
/// # Errors
///
/// Only want of memory.
pub fn start<M: Mem + Drop, B: MatchBook>(
    alloc: Global,
    r: RankId,
    ranks: u16,
    s: &Segment,
) -> Result<RankState<M, B>, AllocError>
    requires { FitsGlobals s.now }
    ensures { IfOk result (λ x. IsStarted s.now r.0 ranks x.regs x.ending x.load x.mpi.own x.mpi.sweep (B.held x.mpi.book) x.sent x.reorder (M.rank_of x.memory) (M.top_of x.memory) (M.bytes_of x.memory)) }
{
    let mut memory = M::fresh(alloc, r)?;
    open(&mut memory, s);
    match rest_of(alloc, ranks) {
        Ok(rest) => {
            let Rest {
                load,
                mpi,
                sent,
                reorder,
            } = rest;
            Ok(RankState {
                memory,
                regs: first_regs(alloc),
                ending: Ending::Running,
                load,
                mpi,
                sent,
                reorder,
            })
        }
        Err(error) => {
            drop(memory);
            Err(error)
        }
    }
}

/// The registers of a rank that has done nothing.
fn first_regs(alloc: Global) -> Regs
    ensures { result ≡ record { position = 0; depth = 0; ticks = 0; output = no_output } }
{
    Regs {
        position: 0,
        depth: 0,
        ticks: 0,
        output: Output {
            printed: 0,
            unfinished: Bytes::new(alloc),
            next: 0,
            held: LineList::new(alloc),
        },
    }
}

/// What a rank of a world of so many ranks has beside its memory.
fn rest_of<B: MatchBook>(alloc: Global, ranks: u16) -> Result<Rest<B>, AllocError>
    ensures load { IfOk result (λ x. x.load ≡ record { current = 0; window = [] }) }
    ensures own { IfOk result (λ x. x.mpi.own ≡ own_at_start ranks) }
    ensures sweep { IfOk result (λ x. x.mpi.sweep ≡ record { joined = None; tree = [] }) }
    ensures lists { IfOk result (λ x. B.held x.mpi.book ≡ no_lists) }
    ensures sent { IfOk result (λ x. x.sent ≡ replicate ranks 0) }
    ensures reorder { IfOk result (λ x. x.reorder ≡ record { expected = replicate ranks 0; held = [] }) }
{
    let window = Window::new(alloc)?;
    let own = first_own(alloc, ranks)?;
    let sent = zeros(alloc, ranks)?;
    let expected = zeros(alloc, ranks)?;
    let book = empty_book(alloc)?;
    Ok(Rest {
        load: Load { current: 0, window },
        mpi: MpiState {
            own,
            sweep: Sweep {
                joined: None,
                tree: Sequence::new(alloc),
            },
            book,
        },
        sent,
        reorder: Reorder {
            expected,
            held: Sequence::new(alloc),
        },
    })
}

/// A book in which nothing is posted and nothing has arrived.
fn empty_book<B: MatchBook>(alloc: Global) -> Result<B, AllocError>
    ensures { IfOk result (λ book. B.held book ≡ no_lists) }
{
    B::from_lists(
        alloc,
        BookLists {
            posted: Sequence::new(alloc),
            matched: Sequence::new(alloc),
            arrived: Sequence::new(alloc),
        },
    )
}

/// So many zeros.
fn zeros(alloc: Global, count: u16) -> Result<Sequence<u64>, AllocError>
    ensures { IfOk result (λ x. x ≡ replicate count 0) }
{
    let inner = vec![in alloc; 0u64; usize::from(count)]?;
    Ok(Sequence::from_vec(inner))
}

/// What a rank has of MPI before its first call.
#[tactic(auto, unfolding(mpi_call::specs::Steady::own_at_start))]
fn first_own(alloc: Global, ranks: u16) -> Result<OwnData, AllocError>
    ensures { IfOk result (λ own. own ≡ own_at_start ranks) }
{
    let members = members_below(alloc, ranks)?;
    let world = Communicator {
        number: COMM_WORLD as u8,
        group: Group {
            ctx: Ctx::world(alloc),
            members: Sequence::from_vec(members),
        },
        position: 0,
    };
    let mut communicators = Sequence::new(alloc);
    communicators.push(world)?;
    Ok(OwnData {
        phase: Phase::Before,
        next: 1,
        complete: Sequence::new(alloc),
        communicators,
    })
}

/// The first ranks, so many.
fn members_below(alloc: Global, ranks: u16) -> Result<Vec<RankId>, AllocError>
    ensures { IfOk result (λ members. members.items ≡ members_below ranks) }
{
    let mut members = Vec::new(alloc);
    let mut next = 0;
    while next < ranks {
        members.push(RankId(next))?;
        next += 1;
    }
    Ok(members)
}
