//! Images behind their lengths, ascending by rank.

ghost use Rattle.std.specs.Prelude.{◌≡◌, ◌++◌, true, length, Some, None, IfOk, OnOk, IsErrOf};
ghost use Rattle.byte_formats.specs.declared.cursor.Unspelled.TheVariants.{Bad};
ghost use Rattle.packet.specs.Packets.{is_copy_before, sized_image, copies};
ghost use Rattle.packet.specs.PacketLaws.{sized_image_is};

use am_base::Bytes;
use byte_formats::{
    Cursor, Spelling, Unspelled, put_count16, put_many, put_u64, take_block, take_many, take_u16,
    take_u64,
};
use mpi_types::Sequence;
use rank_image::{ImageBytes, Order, ascend_in};
use std::alloc::{AllocError, Global};

/// Images behind their lengths.
pub struct SizedImage;

impl Spelling for SizedImage {
    type Value = ImageBytes;

    ghost format = { sized_image };

    #[tactic(auto, unfolding(crate::specs::Packets::sized_image))]
    fn take(alloc: Global, cursor: &mut Cursor<'_>) -> Result<ImageBytes, Unspelled> {
        let size = take_u64(cursor)?;
        let bytes = take_block(cursor, size as usize)?;
        match ImageBytes::of(alloc, bytes) {
            Ok(Some(image)) => Ok(image),
            Ok(None) => Err(Unspelled::Bad),
            Err(_) => Err(Unspelled::Memory),
        }
    }

    #[tactic(auto, unfolding(crate::specs::Packets::sized_image))]
    fn put(out: &mut Bytes, value: &ImageBytes) -> Result<(), AllocError> {
        let bytes = value.as_slice();
        put_u64(out, bytes.len() as u64)?;
        out.append(bytes)
    }

    ghost is_format = { sized_image_is };
}

/// Images by rank.
struct ByRank;

impl Order for ByRank {
    type Value = ImageBytes;

    ghost test = { is_copy_before };

    fn is_before(a: &ImageBytes, b: &ImageBytes) -> bool {
        a.rank().0 < b.rank().0
    }
}

/// Takes images, which ascend by rank.
#[tactic(auto, unfolding(crate::specs::Packets::copies))]
pub fn take_copies(
    alloc: Global,
    cursor: &mut Cursor<'_>,
) -> Result<Sequence<ImageBytes>, Unspelled>
    ensures ok { IfOk result (λ x. copies.read cursor.old.rest.now ≡ Some (x, cursor.new.rest.now)) }
    ensures bad { IsErrOf result Bad → copies.read cursor.old.rest.now ≡ None }
{
    let count = take_u16(cursor)?;
    let found = take_many::<SizedImage>(alloc, cursor, count as usize)?;
    if ascend_in::<ByRank>(found.as_slice()) {
        return Ok(Sequence::from_vec(found));
    }
    drop(found);
    Err(Unspelled::Bad)
}

/// Appends images, which ascend by rank.
#[tactic(auto, unfolding(crate::specs::Packets::copies))]
pub fn put_copies(out: &mut Bytes, value: &Sequence<ImageBytes>) -> Result<(), AllocError>
    requires { copies.fits value.now ≡ true }
    ensures { OnOk result (out.new ≡ out.old ++ copies.spell value.now) }
{
    put_count16(out, value.len())?;
    put_many::<SizedImage>(out, value.as_slice())
}
