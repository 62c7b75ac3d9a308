//! Get_count.

ghost use Rattle.std.specs.Prelude.{◌≡◌, ◌<◌, ◌^◌, ◌-◌, ◌||◌, negsuc, is_some, not, drop};
ghost use Rattle.mpi_rules.specs.Data as data_words;
ghost use Rattle.std.specs.Int.{w32, cast_unsigned};
ghost use Rattle.byteorder.specs.Endian.{little_number};
ghost use Rattle.rank_range.specs.Areas.{areas_of};
ghost use Rattle.mpi_rules.specs.Places as places;
ghost use Rattle.mpi_rules.specs.Requests as words;
ghost use Rattle.mpi_rules.specs.Reply as reply_words;
ghost use Rattle.mpi_call.specs.Answers.{kept, data_in, Does};

use crate::done::{CallStop, Done, writing};
use crate::numbers::{datatype_named, size_of};
use crate::own::no_faults;
use crate::places::{is_open, number_write};
use crate::state::is_running;
use am_base::TrapCause;
use mpi_rules::Faults;
use mpi_types::{MatchBook, MpiState, UNDEFINED};
use rank_range::{BadAddress, Mem, Width, access, read_number};
use std::alloc::Global;

/// The bits of the last of a status's four ints.
#[tactic(auto, unfolding(mpi_rules::specs::Places::read_at))]
fn status_bits<M: Mem>(m: &M, status: u64) -> u64
    ensures { result ≡ little_number 4 (drop 12 (places.read_at (areas_of (M.rank_of m.now) (M.top_of m.now) (M.bytes_of m.now)) status 16)) }
{
    match access::view(m, status, 16) {
        Ok(bytes) => read_number(bytes, 12, Width::Four),
        Err(BadAddress) => 0,
    }
}

/// So many bytes as elements of this size, as bits.
fn element_bits(bytes: u32, size: u32) -> u32
    requires some { 0 < size }
    requires small { bytes < 2 ^ 31 }
    ensures { result ≡ cast_unsigned w32 (words.elements_in bytes size) }
{
    if bytes % size == 0 {
        bytes / size
    } else {
        UNDEFINED.cast_unsigned()
    }
}

/// The same of so many bytes below 0.
fn negative_bits(bytes: u32, size: u32) -> u32
    requires some { 0 < size }
    requires least { 0 < bytes }
    ensures { result ≡ cast_unsigned w32 (words.count_value (negsuc (bytes - 1)) size) }
{
    if bytes % size == 0 {
        (bytes / size).wrapping_neg()
    } else {
        UNDEFINED.cast_unsigned()
    }
}

/// What the int of these bits is as a count, as bits.
#[tactic(auto, unfolding(mpi_rules::specs::Places::int_of))]
fn count_bits(bits: u64, size: u32) -> u32
    requires some { 0 < size }
    ensures { result ≡ cast_unsigned w32 (words.count_value (places.int_of bits) size) }
{
    let low = (bits % 0x1_0000_0000) as u32;
    if low < 0x8000_0000 {
        element_bits(low, size)
    } else {
        negative_bits(low.wrapping_neg(), size)
    }
}

fn count_faults<B: MatchBook>(st: &MpiState<B>, datatype: &i32) -> Faults
    ensures { result ≡ record reply_words.no_faults { other = not (data_words.is_running st.now.own.phase); datatype = not (is_some (places.datatype_named datatype.now)) } }
{
    Faults {
        other: !is_running(&st.own),
        datatype: datatype_named(datatype).is_none(),
        ..no_faults()
    }
}

fn is_closed<M: Mem>(m: &M, status: u64, to: u64) -> bool
    ensures { result ≡ (not (places.is_open (areas_of (M.rank_of m.now) (M.top_of m.now) (M.bytes_of m.now)) status 16) || not (places.is_open (areas_of (M.rank_of m.now) (M.top_of m.now) (M.bytes_of m.now)) to 4)) }
{
    !is_open(m, status, 16) || !is_open(m, to, 4)
}

#[tactic(auto, unfolding(mpi_rules::specs::Requests::count_reply))]
pub fn count<M: Mem, B: MatchBook>(
    alloc: Global,
    st: &MpiState<B>,
    m: &M,
    status: u64,
    datatype: &i32,
    to: u64,
) -> Result<Done, CallStop>
    ensures { Does (words.count_reply (areas_of (M.rank_of m.now) (M.top_of m.now) (M.bytes_of m.now)) (data_in (kept st.now.own st.now.sweep (B.held st.now.book))) status datatype.now to) (kept st.now.own st.now.sweep (B.held st.now.book)) result (kept st.now.own st.now.sweep (B.held st.now.book)) }
{
    if let Some(cause) = count_faults(st, datatype).cause() {
        return Err(CallStop::Trap(cause));
    }
    if is_closed(m, status, to) {
        return Err(CallStop::Trap(TrapCause::BadAddress));
    }
    let bits = count_bits(status_bits(m, status), size_of(datatype_named(datatype)));
    let writes = number_write(alloc, to, bits)?;
    Ok(writing(writes))
}
