//! Copies of receives, pairs and messages.

ghost use Rattle.std.specs.Prelude.{◌≡◌, IfOk};

use mpi_types::{MatchedPair, Message, Posted, Sequence};
use std::alloc::{AllocError, Global};

pub fn copied_receives(alloc: Global, posted: &[Posted]) -> Result<Sequence<Posted>, AllocError>
    ensures { IfOk result (λ s. s ≡ posted.now) }
{
    let mut copies = Sequence::new(alloc);
    for receive in posted {
        copies.push(receive.copied(alloc)?)?;
    }
    Ok(copies)
}

pub fn copied_pairs(
    alloc: Global,
    matched: &[MatchedPair],
) -> Result<Sequence<MatchedPair>, AllocError>
    ensures { IfOk result (λ s. s ≡ matched.now) }
{
    let mut copies = Sequence::new(alloc);
    for pair in matched {
        copies.push(pair.copied(alloc)?)?;
    }
    Ok(copies)
}

pub fn copied_messages(alloc: Global, arrived: &[Message]) -> Result<Sequence<Message>, AllocError>
    ensures { IfOk result (λ s. s ≡ arrived.now) }
{
    let mut copies = Sequence::new(alloc);
    for message in arrived {
        copies.push(message.copied(alloc)?)?;
    }
    Ok(copies)
}
