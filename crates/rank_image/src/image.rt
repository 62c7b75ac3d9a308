//! The parts of an image: read from bytes, and tested to be sound.

ghost use Rattle.std.specs.Prelude.{◌≡◌, ◌≤◌, length, Some, None, IfOk, IsErrOf};
ghost use Rattle.byte_formats.specs.declared.cursor.Unspelled.TheVariants.{Bad};
ghost use Rattle.byte_formats.specs.Formats.{both};
ghost use Rattle.rank_range.specs.Layout.{range_bytes};
ghost use Rattle.rank_image.specs.Head.{head};
ghost use Rattle.rank_image.specs.Middle.{middle, tail};
ghost use Rattle.rank_image.specs.Image.{are_sound, image, rank_made};

use crate::head::{Head, take_head};
use crate::heap::is_sound_heap;
use crate::middle::{Middle, take_middle};
use crate::records::{are_ranks, fit_records};
use crate::tail::{Tail, take_tail};
use am_base::RankId;
use byte_formats::{Cursor, Unspelled, take_block, take_u16};
use rank_range::RANGE_BYTES;
use std::alloc::{AllocError, Global};

/// The parts of an image: the rank, the bytes of its memory, and what stands behind them.
#[derive(Drop)]
pub struct Parts<'a> {
    pub rank: RankId,
    pub bytes: &'a [u8],
    pub rest: Rest,
}

/// What stands behind the bytes of a rank's memory.
#[derive(Drop)]
pub struct Rest {
    pub head: Head,
    pub middle: Middle,
    pub tail: Tail,
}

/// Takes what stands behind the bytes of a rank's memory.
fn take_rest(alloc: Global, cursor: &mut Cursor<'_>) -> Result<Rest, Unspelled>
    ensures ok { IfOk result (λ x. (both head (both middle tail)).read cursor.old.rest.now ≡ Some ((x.head, (x.middle, x.tail)), cursor.new.rest.now)) }
    ensures bad { IsErrOf result Bad → (both head (both middle tail)).read cursor.old.rest.now ≡ None }
    ensures few { IfOk result (λ x. x.head.regs.depth ≤ 256) }
{
    let head = take_head(alloc, cursor)?;
    let middle = match take_middle(alloc, cursor) {
        Ok(middle) => middle,
        Err(error) => {
            drop(head);
            return Err(error);
        }
    };
    match take_tail(alloc, cursor) {
        Ok(tail) => Ok(Rest { head, middle, tail }),
        Err(error) => {
            drop(head);
            drop(middle);
            Err(error)
        }
    }
}

/// Takes an image from the front, and lends the bytes of the memory.
///
/// # Errors
///
/// `Bad` just where no image stands in front, else want of memory.
#[tactic(auto, unfolding(crate::specs::Image::image, crate::specs::Image::are_sound, crate::specs::Middle::rank))]
pub fn take_image<'a>(alloc: Global, cursor: &mut Cursor<'a>) -> Result<Parts<'a>, Unspelled>
    ensures ok { IfOk result (λ x. image.read cursor.old.rest.now ≡ Some (rank_made ((x.rank, x.bytes.now), (x.rest.head, (x.rest.middle, x.rest.tail))), cursor.new.rest.now)) }
    ensures bad { IsErrOf result Bad → image.read cursor.old.rest.now ≡ None }
{
    let rank = RankId(take_u16(cursor)?);
    let bytes = take_block(cursor, RANGE_BYTES as usize)?;
    let rest = take_rest(alloc, cursor)?;
    match are_sound(alloc, rank, bytes, &rest) {
        Ok(true) => Ok(Parts { rank, bytes, rest }),
        Ok(false) => {
            drop(rest);
            Err(Unspelled::Bad)
        }
        Err(_) => {
            drop(rest);
            Err(Unspelled::Memory)
        }
    }
}

/// Whether the parts of an image are sound together.
#[tactic(auto, unfolding(crate::specs::Image::are_sound))]
fn are_sound(alloc: Global, rank: RankId, bytes: &[u8], rest: &Rest) -> Result<bool, AllocError>
    requires whole { length bytes.now ≡ range_bytes }
    requires few { rest.now.head.regs.depth ≤ 256 }
    ensures { IfOk result (λ b. b ≡ are_sound ((rank, bytes.now), (rest.now.head, (rest.now.middle, rest.now.tail)))) }
{
    if !fit_records(bytes, rest.head.regs.depth) {
        return Ok(false);
    }
    if !is_sound_heap(alloc, bytes)? {
        return Ok(false);
    }
    Ok(are_ranks(rank, &rest.middle, &rest.tail))
}
