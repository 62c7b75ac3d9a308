//! What a table of places knows after what it was told.

ghost use Rattle.std.specs.Prelude.{◌≡◌, ◌<◌, length};

use am_base::{ProcId, RankId};
use location::Table;
use std::test::Fail;

/// A rank, the pair that is told of it, whether the table takes it over, and the pair that it then has. Rank 1 goes a route
/// that is told out of order; ranks 0, 1 and 3 are told equal counts.
const TOLD: [(u16, (u32, u8), bool, (u32, u8)); 9] = [
    (1, (1, 2), true, (1, 2)),
    (1, (3, 0), true, (3, 0)),
    (1, (2, 3), false, (3, 0)),
    (1, (3, 4), false, (3, 0)),
    (0, (0, 4), false, (0, 4)),
    (0, (0, 1), false, (0, 4)),
    (3, (4_294_967_295, 255), true, (4_294_967_295, 255)),
    (3, (4_294_967_295, 0), false, (4_294_967_295, 255)),
    (1, (4, 1), true, (4, 1)),
];

/// Tells the table, and whether it answers and then knows what is wanted.
fn hears(table: &mut Table, rank: u16, pair: (u32, u8), is_taken: bool, known: (u32, u8)) -> bool
    requires { rank < length table.old.homes }
    ensures { length table.new.homes ≡ length table.old.homes }
{
    let rank = RankId(rank);
    let answer = table.learn(rank, pair.0, ProcId(pair.1));
    let (count, place) = table.know(rank);
    answer == is_taken && (count, place.0) == known
}

/// Whether the rank has this home, and hasn't moved from it.
fn is_home(table: &Table, rank: u16, home: u8) -> bool
    requires { rank < length table.now.homes }
{
    let rank = RankId(rank);
    table.home(rank) == ProcId(home) && table.know(rank) == (0, ProcId(home))
}

#[test]
fn the_greatest_count_is_known(rt: HostRuntime) -> Result<(), Fail> {
    let homes = [ProcId(4), ProcId(5), ProcId(6), ProcId(7)];
    let mut table = Table::new(rt.alloc(), &homes)?;
    assert!(rt; is_home(&table, 0, 4) && is_home(&table, 3, 7));
    for (rank, pair, is_taken, known) in TOLD {
        assert!(rt; rank < 4);
        assert!(rt;
            hears(&mut table, rank, pair, is_taken, known),
            "{rank} {}",
            pair.0
        );
    }
    assert!(rt; table.home(RankId(1)) == ProcId(5) && is_home(&table, 2, 6));
    table.reset(&[ProcId(1), ProcId(1), ProcId(0), ProcId(2)]);
    assert!(rt; is_home(&table, 0, 1) && is_home(&table, 1, 1) && is_home(&table, 3, 2));
    Ok(())
}
