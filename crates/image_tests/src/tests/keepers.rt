//! The ranks of 64 processors that are lost with two of them, and copies that are kept until a commit.

use super::made::start_image;
use am_base::{ProcId, RankId};
use buddy_ckpt::{Keepers, Pair, ProcSet, Store, lost_both};
use rank_image::ImageBytes;
use std::alloc::{AllocError, Global};
use std::test::Fail;

/// Each rank of 128 is kept by the processor of its number and the one behind that, of 64.
fn ring(alloc: Global) -> Result<Keepers, AllocError> {
    let mut keepers = Keepers::new(alloc);
    for rank in 0..128u8 {
        keepers.push(Pair {
            saver: ProcId(rank % 64),
            buddy: ProcId(behind(rank % 64)),
        })?;
    }
    Ok(keepers)
}

/// The processor behind this one of 64.
fn behind(place: u8) -> u8 {
    if place < 63 { place + 1 } else { 0 }
}

/// The rank that is lost with these two processors of the ring.
fn lost_with(first: u8, second: u8) -> Option<(RankId, ProcId, ProcId)> {
    let (saver, buddy) = if second == behind(first) {
        (first, second)
    } else if first == behind(second) {
        (second, first)
    } else {
        return None;
    };
    Some((RankId(u16::from(saver)), ProcId(saver), ProcId(buddy)))
}

fn are_least(keepers: &Keepers) -> bool {
    if keepers.as_slice().len() > 65_536 {
        return false;
    }
    for first in 0..64u8 {
        for second in 0..64u8 {
            let lost = (1u64 << first) | (1u64 << second);
            let live = ProcSet(u64::MAX ^ lost);
            if lost_both(keepers, &live) != lost_with(first, second) {
                return false;
            }
        }
    }
    lost_both(keepers, &ProcSet(0)) == Some((RankId(0), ProcId(0), ProcId(1)))
        && lost_both(keepers, &ProcSet(u64::MAX)).is_none()
}

fn image(alloc: Global) -> Result<Option<ImageBytes>, AllocError> {
    let bytes = start_image(alloc)?;
    ImageBytes::of(alloc, bytes.as_slice())
}

/// New copies stand beside the old ones until a commit, and go where there is none.
fn are_kept(alloc: Global) -> Result<bool, AllocError> {
    let mut store = Store::new(alloc)?;
    let Some(first) = image(alloc)? else {
        return Ok(false);
    };
    let Some(second) = image(alloc)? else {
        drop(first);
        return Ok(false);
    };
    store.keep_new(RankId(1), first)?;
    let mut is_right = store.has_new(RankId(1)) && store.old(RankId(1)).is_none();
    is_right = is_right && !store.has_new(RankId(0));
    store.turn();
    is_right = is_right && !store.has_new(RankId(1)) && store.old(RankId(1)).is_some();
    store.keep_new(RankId(0), second)?;
    is_right = is_right && store.old(RankId(0)).is_none() && store.old(RankId(1)).is_some();
    store.drop_new();
    is_right = is_right && !store.has_new(RankId(0)) && store.old(RankId(1)).is_some();
    store.turn();
    Ok(is_right && store.old(RankId(1)).is_none())
}

#[test]
fn a_rank_is_lost_with_both_keepers(rt: HostRuntime) -> Result<(), Fail> {
    let alloc = rt.alloc();
    let keepers = ring(alloc)?;
    assert!(rt; are_least(&keepers));
    assert!(rt; are_kept(alloc)?);
    Ok(())
}
