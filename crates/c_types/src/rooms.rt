//! Places behind one another, each aligned.

ghost use Rattle.std.specs.Prelude.{◌≡◌, ◌+◌, ◌^◌, ◌<◌};
ghost use Rattle.std.specs.Int.{next_multiple_of};
ghost use Rattle.rank_range.specs.Numbers.{bytes_in};
ghost use Rattle.c_types.specs.Rooms.{no_rooms, offset_behind, with_room, padded, frame_bytes, wider, NextIsLeast};

use rank_range::Width;

/// Rooms of bytes that lie one behind another, each aligned: the members of a structure, or the locals of a frame.
#[derive(Clone, Copy, Debug, PartialEq, Eq)]
pub struct Rooms {
    /// Where the last one ends.
    pub end: u64,
    /// The greatest alignment.
    pub align: Width,
}

impl Rooms {
    pub fn none() -> Rooms
        ensures { result ≡ no_rooms }
    {
        Rooms {
            end: 0,
            align: Width::One,
        }
    }

    /// Takes a room of so many bytes, and gives its offset.
    pub fn take(&mut self, size: u64, align: Width) -> u64
        requires { self.old.end + size + 8 < 2 ^ 64 }
        ensures offset { result ≡ offset_behind align self.old }
        ensures taken { self.new ≡ with_room size align self.old }
    {
        let offset = next_multiple(self.end, align);
        self.end = offset + size;
        self.align = wider(self.align, align);
        offset
    }

    /// How many bytes a structure of these members has.
    pub fn padded(self) -> u64
        requires { self.end + 8 < 2 ^ 64 }
        ensures { result ≡ padded self }
    {
        next_multiple(self.end, self.align)
    }

    /// How many bytes a frame of these parameters and locals has.
    pub fn frame_bytes(self) -> u64
        requires { self.end + 16 < 2 ^ 64 }
        ensures { result ≡ frame_bytes self }
    {
        self.end.next_multiple_of(16)
    }
}

/// The least multiple of an alignment that isn't below a number.
fn next_multiple(from: u64, align: Width) -> u64
    requires { from + 8 < 2 ^ 64 }
    ensures value { result ≡ next_multiple_of from (bytes_in align) }
    ensures near { result < from + 8 }
{
    match align {
        Width::One => from,
        Width::Two => from.next_multiple_of(2),
        Width::Four => from.next_multiple_of(4),
        Width::Eight => from.next_multiple_of(8),
    }
}

/// The greater of two alignments.
fn wider(a: Width, b: Width) -> Width
    ensures { result ≡ wider a b }
{
    if a.bytes() < b.bytes() { b } else { a }
}

/// A law: what `next_multiple_of` says in contracts is the least multiple that isn't below.
pub fn next_is_least()
    ensures { NextIsLeast }
{}
