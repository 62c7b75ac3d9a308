//! A sink that need not be there.
ghost use Rattle.std.specs.Prelude.{◌-◌, ◌^◌, unwrap_or, option_and_then};
ghost use Rattle.std.specs.Option.{option_map};

use crate::{NullSink, Sink, SinkFailed};
use std::alloc::AllocError;

/// A sink that need not be there: without one every piece is taken and none is kept.
impl<K: Sink> Sink for Option<K> {
    ghost written = { λ s. option_and_then K.written s };

    ghost faults = { λ s. unwrap_or (option_map K.faults s) 0 };

    ghost spare = { λ s. unwrap_or (option_map K.spare s) (2 ^ 64 - 1) };

    fn room(&mut self, n: usize) -> Result<(), AllocError> {
        match self {
            Some(sink) => sink.room(n),
            None => NullSink.room(n),
        }
    }

    fn put(&mut self, piece: &[u8]) -> Result<(), SinkFailed> {
        match self {
            Some(sink) => sink.put(piece),
            None => NullSink.put(piece),
        }
    }
}
