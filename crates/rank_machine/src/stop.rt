//! What a run tells.

ghost use Rattle.rank_machine.specs.Told.{Tells, NeedsCall};

use crate::halt::{Halt, Rest};
use crate::lines::{Line, line_of};
use crate::work::Work;
use am_base::TrapCause;
use rank_range::{CallOut, WordList};
use std::alloc::Global;
use vm_code::{Code, Instr};

/// Where a run of a rank stops.
#[derive(Debug, Drop)]
pub enum Stop {
    /// The rank is ended, by the return of `main` or by `exit`.
    Ended {
        status: i32,
    },
    /// The rank is trapped: the source by its number from 0, and the line in it from 1.
    Trap {
        cause: TrapCause,
        unit: u8,
        line: u32,
    },
    /// The next tick point is this call of MPI, whose tick isn't counted yet.
    Call(CallOut),
    /// All ticks of the budget were taken, and the next tick point is no call of MPI.
    Paused,
    /// The host has no memory left. The rank stands at a tick point.
    Memory,
}

/// What is told of a machine that came to rest so.
pub fn stop_of(alloc: Global, rest: Rest, code: &Code, work: &Work) -> Stop
    requires { NeedsCall code.now work.now rest }
    ensures { Tells code.now work.now rest result }
{
    match rest {
        Rest::Paused => Stop::Paused,
        Rest::Memory => Stop::Memory,
        Rest::Calls => stop_at_call(alloc, code, work),
        Rest::Halted(halt) => stop_at(halt, code, work),
    }
}

fn stop_at(halt: Halt, code: &Code, work: &Work) -> Stop
    requires { NeedsCall code.now work.now (Rest.Halted halt) }
    ensures { Tells code.now work.now (Rest.Halted halt) result }
{
    match halt {
        Halt::Returned(status) => Stop::Ended { status },
        Halt::Exited(status) => Stop::Ended { status },
        Halt::Trapped(cause) => {
            let Line { unit, line } = line_of(code, work.place);
            Stop::Trap { cause, unit, line }
        }
        Halt::Lost => unreachable!(),
    }
}

/// Tells of the call of MPI at which the machine stands.
fn stop_at_call(alloc: Global, code: &Code, work: &Work) -> Stop
    requires { NeedsCall code.now work.now Rest.Calls }
    ensures { Tells code.now work.now Rest.Calls result }
{
    let instr = code.instrs.as_slice()[work.place as usize];
    match instr {
        Instr::Mpi {
            call,
            arguments,
            second,
        } => {
            let words = work.operands.top(arguments as usize);
            let Line { unit, line } = line_of(code, work.place);
            match Vec::from_slice(alloc, words) {
                Ok(arguments) => Stop::Call(CallOut {
                    call,
                    arguments: WordList::from_vec(arguments),
                    second,
                    unit,
                    line,
                }),
                Err(_) => Stop::Memory,
            }
        }
        _ => unreachable!(),
    }
}
