//! Putting a piece, with the room for it.
ghost use Rattle.std.specs.Prelude.{◌≡◌, ◌≤◌, [], IsOk, OnOk, IsErrOf};
ghost use Rattle.std.specs.Io.KnownBytes.{Appends, Keeps};
ghost use Rattle.am_io.specs.Faults.{Rose};
ghost use Rattle.am_io.specs.Pieces.{AppendsPart};

use crate::{Sink, SinkFailed};
use std::alloc::AllocError;
use thiserror::Error;

/// Why a piece was not said.
#[derive(Debug, Drop, Error)]
pub enum SayError {
    #[error("the output could not be written")]
    Failed,
    #[error("there is not enough memory")]
    Memory,
}

impl From<AllocError> for SayError {
    ghost use Rattle.std.specs.Prelude.{◌≡◌};
    ghost use Rattle.am_io.specs.declared.saying.SayError.TheVariants.{Memory};

    ghost from_gives = { λ _ e. e ≡ Memory };

    fn from(_error: AllocError) -> SayError {
        SayError::Memory
    }
}

/// Makes room for the piece and puts it. An empty piece isn't put.
pub fn say<K: Sink>(sink: &mut K, piece: &[u8]) -> Result<(), SayError>
    ensures ok { OnOk result (Appends (K.written sink.old) (K.written sink.new) piece.now) }
    ensures kept { OnOk result (K.faults sink.new ≡ K.faults sink.old) }
    ensures failed { IsErrOf result SayError.Failed
        → AppendsPart (K.written sink.old) (K.written sink.new) piece.now
        × Rose (K.faults sink.old) (K.faults sink.new) }
    ensures memory { IsErrOf result SayError.Memory
        → Keeps (K.written sink.old) (K.written sink.new)
        × (K.faults sink.new ≡ K.faults sink.old) }
    ensures later { K.faults sink.old ≤ K.faults sink.new }
    ensures empty { piece.now ≡ [] → IsOk result × (sink.new ≡ sink.old) }
{
    if piece.is_empty() {
        return Ok(());
    }
    if let Err(AllocError) = sink.room(piece.len()) {
        return Err(SayError::Memory);
    }
    match sink.put(piece) {
        Ok(()) => Ok(()),
        Err(SinkFailed) => Err(SayError::Failed),
    }
}
