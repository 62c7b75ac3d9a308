//! The alternatives that are spelled as a number of one byte.

ghost use Rattle.std.specs.Prelude.{◌≡◌};
ghost use Rattle.rank_image.specs.Codes.{cause_of, collective_of, direction_of, phase_of, phase_number};
ghost use Rattle.mpi_types.specs.Order.{direction_number};

use am_base::TrapCause;
use mpi_types::{Collective, Direction, Phase};

/// The cause of a trap of that number.
pub fn cause_of(number: u8) -> Option<TrapCause>
    ensures { result ≡ cause_of number }
{
    TrapCause::of_number(number)
}

/// The collective of that number.
pub fn collective_of(number: u8) -> Option<Collective>
    ensures { result ≡ collective_of number }
{
    Collective::of_number(number)
}

/// The direction of that number.
pub fn direction_of(number: u8) -> Option<Direction>
    ensures { result ≡ direction_of number }
{
    match number {
        0 => Some(Direction::Up),
        1 => Some(Direction::Down),
        _ => None,
    }
}

/// The number of a direction.
pub fn direction_number(direction: Direction) -> u8
    ensures { result ≡ direction_number direction }
{
    match direction {
        Direction::Up => 0,
        Direction::Down => 1,
    }
}

/// How far a rank is with MPI, by its number.
pub fn phase_of(number: u8) -> Option<Phase>
    ensures { result ≡ phase_of number }
{
    match number {
        0 => Some(Phase::Before),
        1 => Some(Phase::Running),
        2 => Some(Phase::After),
        _ => None,
    }
}

/// The number of that.
pub fn phase_number(phase: Phase) -> u8
    ensures { result ≡ phase_number phase }
{
    match phase {
        Phase::Before => 0,
        Phase::Running => 1,
        Phase::After => 2,
    }
}
