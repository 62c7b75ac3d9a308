//! Packets that follow a rank's trail, where a packet goes by what a processor knows, and packets that wait.

ghost use Rattle.std.specs.Prelude.{◌≡◌, IfOk, length};

use super::packets::{data, tree, update};
use am_base::{Bytes, ProcId, RankId};
use forwarding::{Room, Route, route};
use location::Table;
use packet::{Content, Packet, decode};
use std::alloc::{AllocError, Global};
use std::test::Fail;

/// A processor that rank 1 left, how often it had moved then, and where to.
const MOVES: [(u8, (u32, u8)); 4] = [(4, (1, 2)), (2, (2, 0)), (0, (3, 5)), (5, (4, 63))];

/// Where rank 1 is.
const END: u8 = 63;

/// What processor 2 knows of rank 1, a packet's floor, whether the rank is resident, and where the packet goes.
const ROUTES: [((u32, u8), u32, bool, Route); 9] = [
    ((0, 4), 0, false, Route::Wait),
    ((0, 4), 7, true, Route::Accept),
    ((3, 5), 0, true, Route::Accept),
    (
        (3, 5),
        2,
        false,
        Route::Forward {
            floor: 3,
            place: ProcId(5),
        },
    ),
    ((3, 5), 3, false, Route::Wait),
    ((3, 5), 4, false, Route::Wait),
    ((3, 2), 0, false, Route::Wait),
    ((3, 2), 3, true, Route::Accept),
    (
        (4_294_967_295, 63),
        4_294_967_294,
        false,
        Route::Forward {
            floor: 4_294_967_295,
            place: ProcId(63),
        },
    ),
];

/// A table that knows this pair of rank 1.
fn table(alloc: Global, pair: (u32, u8)) -> Result<Table, AllocError>
    ensures { IfOk result (λ t. length t.homes ≡ 2) }
{
    let mut table = Table::new(alloc, &[ProcId(9), ProcId(4)])?;
    table.learn(RankId(1), pair.0, ProcId(pair.1));
    Ok(table)
}

fn goes(
    alloc: Global,
    here: u8,
    pair: (u32, u8),
    floor: u32,
    resident: bool,
) -> Result<Route, AllocError> {
    let table = table(alloc, pair)?;
    Ok(route(&table, ProcId(here), RankId(1), floor, resident))
}

/// What a processor knows of rank 1, which began at processor 4.
fn known_at(here: u8) -> (u32, u8) {
    for (left, pair) in MOVES {
        if left == here {
            return pair;
        }
    }
    (0, 4)
}

/// The floor at which a packet from this processor reaches rank 1, and how often it is sent on.
fn arrival(alloc: Global, first: u8) -> Result<Option<(u32, u32)>, AllocError> {
    let mut here = first;
    let mut floor = 0;
    for hops in 0..6u32 {
        match goes(alloc, here, known_at(here), floor, here == END)? {
            Route::Accept => return Ok(Some((floor, hops))),
            Route::Forward {
                floor: higher,
                place,
            } => {
                floor = higher;
                here = place.0;
            }
            Route::Wait => return Ok(None),
        }
    }
    Ok(None)
}

/// Whether the bytes are those of a packet, which then waits in the room.
fn waits(alloc: Global, room: &mut Room, bytes: &Bytes) -> Result<bool, AllocError> {
    let Some(packet) = decode(alloc, bytes.as_slice())? else {
        return Ok(false);
    };
    room.hold(packet)?;
    Ok(true)
}

/// The floor of a packet of a message, or 0.
fn floor_of(packet: &Packet) -> u32 {
    match &packet.content {
        Content::Data(data) => data.floor,
        Content::Tree(tree) => tree.floor,
        Content::Image(_) => 0,
        Content::Update(_) => 0,
        Content::Copy(_) => 0,
    }
}

/// Whether the packets with these floors, and no others, are released for the rank.
fn releases(room: &mut Room, rank: u16, floors: &[u32]) -> Result<bool, AllocError> {
    let given = room.release(RankId(rank))?;
    let packets = given.as_slice();
    let mut is_right = packets.len() == floors.len();
    for (packet, floor) in packets.iter().zip(floors) {
        is_right = is_right && floor_of(packet) == *floor;
    }
    drop(given);
    Ok(is_right)
}

/// Packets for two ranks and where a rank is, which wait in between.
fn are_released(alloc: Global) -> Result<bool, AllocError> {
    let mut room = Room::new(alloc)?;
    let all = [
        data(alloc, 0, 3)?,
        update(alloc)?,
        data(alloc, 1, 5)?,
        tree(alloc)?,
        data(alloc, 0, 1)?,
    ];
    let mut is_right = room.is_empty();
    for bytes in &all {
        is_right = waits(alloc, &mut room, bytes)? && is_right;
    }
    is_right = releases(&mut room, 0, &[3, 2, 1])? && is_right;
    is_right = releases(&mut room, 0, &[])? && is_right;
    is_right = releases(&mut room, 1, &[5])? && is_right && !room.is_empty();
    room.clear();
    Ok(is_right && room.is_empty())
}

#[test]
fn packets_follow_a_trail(rt: HostRuntime) -> Result<(), Fail> {
    let alloc = rt.alloc();
    for (pair, floor, resident, wanted) in ROUTES {
        assert!(rt;
            goes(alloc, 2, pair, floor, resident)? == wanted,
            "{} {floor}",
            pair.0
        );
    }
    for (first, wanted) in [
        (4, Some((4, 4))),
        (2, Some((4, 3))),
        (0, Some((4, 2))),
        (5, Some((4, 1))),
        (63, Some((0, 0))),
        (1, None),
    ] {
        assert!(rt; arrival(alloc, first)? == wanted, "{first}");
    }
    assert!(rt; are_released(alloc)?);
    Ok(())
}
