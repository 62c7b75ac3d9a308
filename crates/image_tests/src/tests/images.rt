//! Images that are unpacked and packed again, cut at each length, and changed at one place.

use super::made::{full_rest, image_with, start_image};
use am_base::Bytes;
use matcher::ListBook;
use rank_image::{pack, unpack};
use rank_range::FlatMem;
use std::alloc::{AllocError, Global};
use std::test::Fail;

/// Where the bytes of the memory end in an image, and where its nodes and its first record stand.
const REST: usize = 1_048_578;

const NODES: usize = 77_826;

const RECORD: usize = 4_098;

/// A byte of the full image, what it is changed to, and what is then wrong.
const WRONG: [(usize, u8, &str); 35] = [
    (REST + 5, 1, "257 calls"),
    (REST + 6, 3, "an ending that isn't one"),
    (REST + 7, 0, "a cause that isn't one"),
    (REST + 21, 3, "a phase that isn't one"),
    (REST + 31, 7, "the last line isn't below the next one"),
    (REST + 39, 3, "lines that don't ascend by 1"),
    (REST + 56, 51, "intervals of more ticks than there were"),
    (REST + 64, 9, "nine intervals"),
    (REST + 85, 3, "one request less than there are"),
    (REST + 89, 4, "requests that don't ascend"),
    (REST + 89, 3, "two requests of one number"),
    (REST + 93, 4, "a kind of request that isn't one"),
    (REST + 174, 65, "65 communicators"),
    (REST + 175, 2, "communicators that don't ascend"),
    (REST + 188, 17, "17 levels"),
    (REST + 203, 2, "a member that is no rank"),
    (REST + 205, 3, "a collective part that isn't one"),
    (REST + 213, 13, "a collective that isn't one"),
    (REST + 297, 0, "no rank"),
    (REST + 298, 2, "514 ranks"),
    (REST + 374, 0, "early messages that don't ascend"),
    (REST + 401, 2, "a sender that is no rank"),
    (REST + 456, 1, "messages of trees that don't ascend"),
    (REST + 494, 2, "a direction that isn't one"),
    (0, 2, "a rank that isn't the run's"),
    (RECORD + 10, 0x0d, "a frame below the data stack"),
    (RECORD + 18, 0x11, "a frame above the data stack"),
    (RECORD + 24, 33, "33 operands"),
    (10, 1, "a live block that isn't there"),
    (14, 2, "a hole that isn't there"),
    (18, 1, "a byte behind the header"),
    (NODES + 4, 1, "a hole that doesn't reach the heap's end"),
    (NODES + 12, 2, "a block that isn't counted"),
    (NODES + 13, 1, "a byte behind a node"),
    (NODES + 26, 1, "a node that names itself"),
];

/// A byte of the full image that may be anything.
const FREE: [(usize, u8); 6] = [
    (REST, 255),
    (RECORD + 16, 0),
    (REST + 22, 9),
    (RECORD, 8),
    (NODES + 16, 9),
    (300_000, 77),
];

fn is_exact(alloc: Global, bytes: &[u8]) -> Result<bool, AllocError> {
    let Some(state) = unpack::<FlatMem, ListBook>(alloc, bytes)? else {
        return Ok(false);
    };
    let image = pack(alloc, &state);
    drop(state);
    Ok(image?.as_slice() == bytes)
}

fn is_none(alloc: Global, bytes: &[u8]) -> Result<bool, AllocError> {
    match unpack::<FlatMem, ListBook>(alloc, bytes)? {
        Some(state) => {
            drop(state);
            Ok(false)
        }
        None => Ok(true),
    }
}

/// The bytes with another one at a place.
fn changed(alloc: Global, bytes: &[u8], at: usize, byte: u8) -> Result<Bytes, AllocError> {
    let mut out = Vec::from_slice(alloc, bytes)?;
    if let Some(place) = out.get_mut(at) {
        *place = byte;
    }
    Ok(Bytes::from_vec(out))
}

/// Whether no first part of the image is one that has the whole memory.
fn none_is_cut(alloc: Global, image: &[u8]) -> Result<bool, AllocError> {
    for n in REST..image.len() {
        if !is_none(alloc, &image[..n])? {
            return Ok(false);
        }
    }
    Ok(true)
}

fn all_are_wrong(alloc: Global, image: &[u8]) -> Result<bool, AllocError> {
    for (at, byte, _wrong) in WRONG {
        let other = changed(alloc, image, at, byte)?;
        if !is_none(alloc, other.as_slice())? {
            return Ok(false);
        }
    }
    Ok(true)
}

fn all_are_free(alloc: Global, image: &[u8]) -> Result<bool, AllocError> {
    for (at, byte) in FREE {
        let other = changed(alloc, image, at, byte)?;
        if !is_exact(alloc, other.as_slice())? {
            return Ok(false);
        }
    }
    Ok(true)
}

/// A rank before its first tick, in a run of two ranks: 1,048,651 and 18 bytes a rank.
fn starts(alloc: Global) -> Result<bool, AllocError> {
    let image = start_image(alloc)?;
    let mut longer = Bytes::from_slice(alloc, image.as_slice())?;
    longer.push(0)?;
    Ok(
        image.len() == 1_048_651 + 36
            && is_exact(alloc, image.as_slice())?
            && is_none(alloc, longer.as_slice())?
            && none_is_cut(alloc, image.as_slice())?,
    )
}

/// A rank that has something of each kind.
fn is_full(alloc: Global) -> Result<bool, AllocError> {
    let rest = full_rest(alloc)?;
    let image = image_with(alloc, rest.as_slice())?;
    let mut longer = Bytes::from_slice(alloc, image.as_slice())?;
    longer.push(0)?;
    Ok(
        is_exact(alloc, image.as_slice())?
            && is_none(alloc, longer.as_slice())?
            && none_is_cut(alloc, image.as_slice())?
            && all_are_wrong(alloc, image.as_slice())?
            && all_are_free(alloc, image.as_slice())?,
    )
}

#[test]
fn images_are_unpacked_one_way(rt: HostRuntime) -> Result<(), Fail> {
    let alloc = rt.alloc();
    assert!(rt; starts(alloc)? && is_full(alloc)?);
    Ok(())
}
