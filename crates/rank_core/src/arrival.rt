//! The arrival of a message.

ghost use Rattle.std.specs.Prelude.{◌≡◌, ◌+◌, [], ◌∷◌, IfOk};
ghost use Rattle.mpi_types.specs.Runs.{entries_of};
ghost use Rattle.mpi_types.specs.Book.{IsSettled};
ghost use Rattle.mpi_call.specs.Answers.{kept};
ghost use Rattle.mpi_call.specs.Steady.{IsSteady};
ghost use Rattle.rank_steps.specs.Steps.{match_of};
ghost use Rattle.rank_core.specs.Arrived.{ArrivesBy, standing};

use am_base::RankId;
use mpi_types::{Entry, EntryRun, Hit, MatchBook, Message, Sequence};
use rank_image::RankState;
use rank_range::Mem;
use std::alloc::{AllocError, Global};

/// What an arrival leads to.
#[derive(Debug, Drop)]
pub struct ArriveOut {
    /// The entries of the history, as runs.
    pub entries: Sequence<EntryRun>,
}

/// A message reaches the rank: the first posted receive that accepts it gets it, and it is kept where there is none. So it is also for
/// a rank that is ended, trapped or at the bound.
///
/// # Errors
///
/// Only want of memory. The state is then only to be dropped.
pub fn arrive<M: Mem, B: MatchBook>(
    alloc: Global,
    s: &mut RankState<M, B>,
    m: Message,
) -> Result<ArriveOut, AllocError>
    ensures arrived { IfOk result (λ out. ArrivesBy (record { 0 = M.rank_of s.old.memory }) m out.entries
        (λ code tally. standing code s.old.regs s.old.ending s.old.mpi.own s.old.mpi.sweep (B.held s.old.mpi.book) (M.rank_of s.old.memory) (M.top_of s.old.memory) (M.bytes_of s.old.memory) tally)
        (λ code tally. standing code s.new.regs s.new.ending s.new.mpi.own s.new.mpi.sweep (B.held s.new.mpi.book) (M.rank_of s.new.memory) (M.top_of s.new.memory) (M.bytes_of s.new.memory) tally)) }
    ensures memory { s.new.memory ≡ s.old.memory }
    ensures settled { IsSettled (B.held s.old.mpi.book) → IsSettled (B.held s.new.mpi.book) }
{
    let hit = s.mpi.book.arrive(m)?;
    let entries = matched(alloc, s.memory.rank(), hit)?;
    Ok(ArriveOut { entries })
}

/// The entry of a match, if there was one.
fn matched(alloc: Global, rank: RankId, hit: Option<Hit>) -> Result<Sequence<EntryRun>, AllocError>
    ensures { IfOk result (λ entries. entries_of entries ≡ match_of rank hit) }
{
    let mut entries = Sequence::new(alloc);
    match hit {
        Some(Hit { request, sender }) => {
            entries.push(EntryRun {
                entry: Entry::Match {
                    rank,
                    request,
                    sender,
                },
                times: 1,
            })?;
            Ok(entries)
        }
        None => Ok(entries),
    }
}
