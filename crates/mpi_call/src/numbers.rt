//! Numbers of arguments, and what they name.

ghost use Rattle.std.specs.Prelude.{◌≡◌, ◌<◌, ◌≤◌, ◌^◌, length};
ghost use Rattle.mpi_rules.specs.Places as places;
ghost use Rattle.mpi_rules.specs.Messages as messages;
ghost use Rattle.mpi_types.specs.Collected as collected;

use mpi_rules::MessageArgs;
use mpi_types::{Datatype, Operation};

/// The int that a word holds: its low 32 bits.
#[tactic(auto, unfolding(mpi_rules::specs::Places::int_of))]
pub fn int_of(word: u64) -> i32
    ensures { result ≡ places.int_of word }
{
    ((word % 0x1_0000_0000) as u32).cast_signed()
}

/// The argument at a place, as an int.
pub fn int_at(words: &[u64], i: usize) -> i32
    requires { i < length words.now }
    ensures { result ≡ places.int_at words.now i }
{
    int_of(words[i])
}

/// A count as a number; a negative one is 0.
pub fn count_of(count: &i32) -> u32
    ensures value { result ≡ places.count_of count.now }
    ensures fits { result < 2 ^ 31 }
{
    u32::try_from(*count).unwrap_or(0)
}

/// The number of a byte; one that is no such number is 0.
pub fn byte_of(number: &i32) -> u8
    ensures { result ≡ places.byte_of number.now }
{
    u8::try_from(*number).unwrap_or(0)
}

/// The datatype of a number.
pub fn datatype_named(number: &i32) -> Option<Datatype>
    ensures { result ≡ places.datatype_named number.now }
{
    match u8::try_from(*number) {
        Ok(byte) => Datatype::of_byte(byte),
        Err(_) => None,
    }
}

/// The operation of a number.
pub fn operation_named(number: &i32) -> Option<Operation>
    ensures { result ≡ places.operation_named number.now }
{
    match u8::try_from(*number) {
        Ok(byte) => Operation::of_byte(byte),
        Err(_) => None,
    }
}

/// How many bytes an element has; one of no datatype has none.
pub fn size_of(datatype: Option<Datatype>) -> u32
    ensures value { result ≡ collected.size_of datatype }
    ensures small { result ≤ 8 }
{
    match datatype {
        Some(datatype) => datatype.size(),
        None => 0,
    }
}

/// How many bytes so many elements of a datatype have.
pub fn bytes_of(count: &i32, datatype: &i32) -> u64
    ensures value { result ≡ places.bytes_of count.now datatype.now }
    ensures fits { result < 2 ^ 34 }
{
    count_of(count) as u64 * size_of(datatype_named(datatype)) as u64
}

/// The arguments of a send or of a receive.
pub fn message_args(words: &[u64]) -> MessageArgs
    requires { 6 ≤ length words.now }
    ensures { result ≡ messages.message_args words.now }
{
    MessageArgs {
        buffer: words[0],
        count: int_at(words, 1),
        datatype: int_at(words, 2),
        peer: int_at(words, 3),
        tag: int_at(words, 4),
        comm: int_at(words, 5),
    }
}
