//! What is known of a rank's MPI data: its communicators and its live requests.

ghost use Rattle.std.specs.Prelude.{◌≡◌, ◌<◌, ◌≤◌, Some, None, option_map};
ghost use Rattle.std.specs.Option.{option_copied};
ghost use Rattle.mpi_rules.specs.Data as data_words;
ghost use Rattle.mpi_rules.specs.Data.{data_of};
ghost use Rattle.rank_range.specs.Areas.{areas_of};
ghost use Rattle.mpi_call.specs.Lawful.{AreSized, most_ranks};

use am_base::RankId;
use mpi_rules::CommFacts;
use mpi_types::{Communicator, CompleteKind, MatchBook, MpiState, OwnData, Phase};
use rank_range::Mem;

pub fn is_running(own: &OwnData) -> bool
    ensures { result ≡ data_words.is_running own.now.phase }
{
    match own.phase {
        Phase::Running => true,
        Phase::Before | Phase::After => false,
    }
}

/// The communicator of a number.
pub fn communicator<'a>(own: &'a OwnData, number: &i32) -> Option<&'a Communicator>
    ensures { option_copied result ≡ data_words.communicator_in own.now.communicators number.now }
{
    own.communicators
        .as_slice()
        .iter()
        .find(|c| i32::from(c.number) == *number)
}

/// How many members come before the rank.
pub fn place_among(rank: RankId, members: &[RankId]) -> usize
    ensures value { result ≡ data_words.place_among rank.0 members.now }
{
    for (i, member) in members.iter().enumerate() {
        if member.0 == rank.0 {
            return i;
        }
    }
    members.len()
}

/// What is known of the communicator that a number names.
#[tactic(auto, unfolding(mpi_rules::specs::Data::comm_facts))]
pub fn comm_facts(rank: RankId, own: &OwnData, number: &i32) -> CommFacts
    ensures { result ≡ data_words.comm_facts rank.0 own.now number.now }
{
    match communicator(own, number) {
        Some(c) => CommFacts {
            known: true,
            members: c.group.members.len(),
            member: place_among(rank, c.group.members.as_slice()),
            depth: c.group.ctx.depth(),
        },
        None => CommFacts {
            known: false,
            members: 0,
            member: 0,
            depth: 0,
        },
    }
}

/// The same of the rank whose memory this is.
#[tactic(auto, unfolding(rank_range::specs::Areas::areas_of))]
pub fn facts_at<M: Mem>(own: &OwnData, m: &M, number: &i32) -> CommFacts
    requires { AreSized own.now }
    ensures value { result ≡ data_words.comm_facts (areas_of (M.rank_of m.now) (M.top_of m.now) (M.bytes_of m.now)).rank own.now number.now }
    ensures members { result.members ≤ most_ranks }
    ensures member { result.member ≤ most_ranks }
{
    comm_facts(m.rank(), own, number)
}

/// What a complete request was, if one has the number.
pub fn complete_kind(own: &OwnData, number: u32) -> Option<CompleteKind>
    ensures { result ≡ option_map (λ r. r.kind) (data_words.complete_of number own.now.complete) }
{
    own.complete
        .as_slice()
        .iter()
        .find(|r| r.number == number)
        .map(|r| r.kind)
}

/// Whether the request is live.
#[tactic(auto, unfolding(mpi_rules::specs::Data::is_live))]
pub fn is_live<B: MatchBook>(st: &MpiState<B>, number: u32) -> bool
    ensures { result ≡ data_words.is_live (data_of st.now.own st.now.sweep (B.held st.now.book)) number }
{
    complete_kind(&st.own, number).is_some() || st.book.is_live(number)
}

/// Whether as many requests are live as may be.
#[tactic(auto, unfolding(mpi_rules::specs::Data::is_full))]
pub fn is_full<B: MatchBook>(st: &MpiState<B>) -> bool
    ensures { result ≡ data_words.is_full (data_of st.now.own st.now.sweep (B.held st.now.book)) }
{
    let complete = st.own.complete.len();
    let waiting = st.book.live();
    complete >= 65_536 || complete as u64 + waiting as u64 >= 65_536
}
