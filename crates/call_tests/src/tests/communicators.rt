//! The groups of duplicates and splits.

ghost use Rattle.std.specs.Prelude.{ℕ, ◌≡◌, ◌<◌, ◌≤◌, IfOk, length, slice_index_or};
ghost use Rattle.mpi_types.specs.declared.group.SplitArg.{SplitArg};

use am_base::RankId;
use comms::{dup, split};
use mpi_types::{Ctx, Group, Level, Sequence, SplitArg, UNDEFINED};
use std::alloc::{AllocError, Global};
use std::test::Fail;

const NUMBERS: [u16; 8] = [0, 1, 2, 3, 4, 5, 6, 7];

const ABOVE: Level = Level {
    position: 6,
    colour: 2,
};

/// The colours and keys of all members, a member, and the old numbers of the members of its new group in their order.
const SPLITS: [(&[(i32, i32)], u16, Option<&[u16]>); 16] = [
    (&[(0, 0)], 0, Some(&[0])),
    (&[(UNDEFINED, 0)], 0, None),
    (&[(1, 5), (1, 4)], 0, Some(&[1, 0])),
    (&[(1, 5), (1, 4)], 1, Some(&[1, 0])),
    (&[(1, 5), (2, 4)], 1, Some(&[1])),
    (&[(0, 7), (0, 7), (0, 7)], 2, Some(&[0, 1, 2])),
    (&[(0, -1), (0, 0), (0, -2)], 1, Some(&[2, 0, 1])),
    (&[(0, 0), (UNDEFINED, 0), (0, -2)], 1, None),
    (&[(0, 0), (UNDEFINED, 0), (0, -2)], 0, Some(&[2, 0])),
    (
        &[(3, 0), (4, 0), (3, 0), (4, 0), (3, 0), (4, 0), (3, 0)],
        5,
        Some(&[1, 3, 5]),
    ),
    (
        &[(3, 0), (4, 0), (3, 0), (4, 0), (3, 0), (4, 0), (3, 0)],
        6,
        Some(&[0, 2, 4, 6]),
    ),
    (
        &[(0, 1), (0, 0), (0, 1), (0, 0), (0, 1), (0, 0), (0, 1)],
        0,
        Some(&[1, 3, 5, 0, 2, 4, 6]),
    ),
    (
        &[
            (9, 2_147_483_647),
            (9, -2_147_483_648),
            (9, 0),
            (9, -1),
            (9, 1),
            (9, 0),
            (8, 0),
            (9, -2_147_483_648),
        ],
        4,
        Some(&[1, 7, 3, 2, 5, 4, 0]),
    ),
    (
        &[
            (2, 7),
            (2, 6),
            (2, 5),
            (2, 4),
            (2, 3),
            (2, 2),
            (2, 1),
            (2, 0),
        ],
        3,
        Some(&[7, 6, 5, 4, 3, 2, 1, 0]),
    ),
    (
        &[
            (UNDEFINED, 0),
            (UNDEFINED, 1),
            (UNDEFINED, 2),
            (UNDEFINED, 3),
            (UNDEFINED, 4),
            (UNDEFINED, 5),
            (UNDEFINED, 6),
            (UNDEFINED, 7),
        ],
        7,
        None,
    ),
    (
        &[
            (2, 1),
            (0, 1),
            (2, 1),
            (1, 0),
            (2, 0),
            (1, 1),
            (0, 0),
            (2, 1),
        ],
        7,
        Some(&[4, 0, 2, 7]),
    ),
];

/// The ranks in the world of members with these numbers: that of member n is 2 n + 3.
fn ranks_of(alloc: Global, numbers: &[u16]) -> Result<Vec<RankId>, AllocError>
    ensures { IfOk result (λ ranks. length ranks.items ≡ length numbers.now) }
{
    let mut ranks = Vec::new(alloc);
    for number in numbers {
        ranks.push(RankId(number.wrapping_mul(2).wrapping_add(3)))?;
    }
    Ok(ranks)
}

/// A group of so many members, whose context has one level.
fn group_of(alloc: Global, count: usize) -> Result<Group, AllocError>
    requires { count ≤ 8 }
    ensures ctx { IfOk result (λ group. length group.ctx ≡ 1) }
    ensures members { IfOk result (λ group. length group.members ≡ count) }
{
    let world = Ctx::world(alloc);
    let ctx = world.child(alloc, ABOVE)?;
    let members = ranks_of(alloc, &NUMBERS[..count])?;
    Ok(Group {
        ctx,
        members: Sequence::from_vec(members),
    })
}

/// What the members give, in member order.
fn split_args(alloc: Global, given: &[(i32, i32)]) -> Result<Vec<SplitArg>, AllocError>
    requires { length given.now ≤ 8 }
    ensures one_each { IfOk result (λ list. length list.items ≡ length given.now) }
    ensures in_order { IfOk result (λ list. (k : ℕ) (d : SplitArg) → k < length list.items → (slice_index_or list.items k d).member ≡ k) }
{
    let mut list = Vec::new(alloc);
    for (i, (colour, key)) in given.iter().enumerate() {
        list.push(SplitArg {
            member: i as u16,
            colour: *colour,
            key: *key,
        })?;
    }
    Ok(list)
}

/// Whether the group has these members, and a context with one level more.
fn is_group(
    alloc: Global,
    group: &Group,
    level: Level,
    numbers: &[u16],
) -> Result<bool, AllocError> {
    let ranks = ranks_of(alloc, numbers)?;
    Ok(
        group.ctx.levels() == [ABOVE, level].as_slice()
            && group.members.as_slice() == ranks.as_slice(),
    )
}

/// Whether the member of the group gets this.
fn gives(
    alloc: Global,
    given: &[(i32, i32)],
    member: u16,
    want: Option<&[u16]>,
) -> Result<bool, AllocError>
    requires members { length given.now ≤ 8 }
    requires member { member < length given.now }
{
    let group = group_of(alloc, given.len())?;
    let list = split_args(alloc, given)?;
    let colour = list[usize::from(member)].colour;
    let made = split(alloc, &group, 11, list.as_slice(), member)?;
    match (made, want) {
        (Some(made), Some(numbers)) => is_group(
            alloc,
            &made,
            Level {
                position: 11,
                colour,
            },
            numbers,
        ),
        (None, None) => Ok(true),
        (Some(_), None) | (None, Some(_)) => Ok(false),
    }
}

#[test]
fn splits_are_by_colour_and_key(rt: HostRuntime) -> Result<(), Fail> {
    for (given, member, want) in SPLITS {
        assert!(rt; given.len() <= 8 && usize::from(member) < given.len());
        assert!(rt;
            gives(rt.alloc(), given, member, want)?,
            "{member} of {}",
            given.len()
        );
    }
    Ok(())
}

#[test]
fn duplicates_have_the_same_members(rt: HostRuntime) -> Result<(), Fail> {
    for count in [1, 2, 3, 7, 8] {
        let group = group_of(rt.alloc(), count)?;
        let made = dup(rt.alloc(), &group, 4)?;
        let level = Level {
            position: 4,
            colour: 0,
        };
        assert!(rt;
            is_group(rt.alloc(), &made, level, &NUMBERS[..count])?,
            "{count}"
        );
    }
    Ok(())
}
