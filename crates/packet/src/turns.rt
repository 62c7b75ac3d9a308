//! Messages of a pair of ranks, put into their order.

ghost use Rattle.std.specs.Prelude.{◌≡◌, ◌+◌, ◌<◌, ◌^◌, ◌++◌, [], ◌∷◌, length, slice_index, set, IfOk, OnOk};
ghost use Rattle.mpi_types.specs.Order.{is_held_before};
ghost use Rattle.packet.specs.TurnSteps.{turns_from, with_held};
ghost use Rattle.packet.specs.Turns.{put_held, place_of, is_turn, turns_of, kept_of, next_of, messages_of, ComesInOrder, TurnsAreNumbered, TurnsAreLongest, NoneIsLost};

use am_base::RankId;
use mpi_types::{HeldMessage, Message, MessageList, Reorder, Sequence};
use rank_image::{ByTurn, Order};
use std::alloc::{AllocError, Global};
use std::mem;

/// The messages that are now in order, when a message comes with its number among those of its sender. Its number isn't below the
/// one that is expected next, and isn't held. After an error `b` is only to be dropped.
///
/// # Errors
///
/// Only want of memory.
pub fn in_order(
    alloc: Global,
    b: &mut Reorder,
    sender: RankId,
    number: u64,
    m: Message,
) -> Result<MessageList, AllocError>
    requires rank { sender.0 < length b.old.expected }
    requires room { slice_index b.old.expected sender.0 + length b.old.held + 1 < 2 ^ 64 }
    ensures { IfOk result (λ given. ComesInOrder b.old sender.0 (record { number = number; message = m }) given b.new) }
{
    let held = mem::replace(&mut b.held, Sequence::new(alloc));
    let expected = mem::replace(&mut b.expected, Sequence::new(alloc));
    let all = match put_held(held, HeldMessage { number, message: m }) {
        Ok(all) => all,
        Err(error) => {
            drop(expected);
            return Err(error);
        }
    };
    let mut numbers = expected.into_vec();
    let first = numbers[sender.0 as usize];
    let turns = match sorted_out(alloc, sender, first, all) {
        Ok(turns) => turns,
        Err(error) => {
            drop(numbers);
            return Err(error);
        }
    };
    let Turns { given, kept, next } = turns;
    numbers[sender.0 as usize] = next;
    b.expected = Sequence::from_vec(numbers);
    b.held = kept;
    Ok(given)
}

/// Where a message is to stand among those that are held.
fn place_of(h: &HeldMessage, held: &[HeldMessage]) -> usize
    ensures { result ≡ place_of h.now held.now }
{
    for (place, other) in held.iter().enumerate() {
        if ByTurn::is_before(h, other) {
            return place;
        }
    }
    held.len()
}

/// Puts a message among those that are held.
fn put_held(
    held: Sequence<HeldMessage>,
    h: HeldMessage,
) -> Result<Sequence<HeldMessage>, AllocError>
    ensures { IfOk result (λ new. new ≡ put_held h held) }
{
    let mut messages = held.into_vec();
    let place = place_of(&h, &messages);
    messages.insert(place, h)?;
    Ok(Sequence::from_vec(messages))
}

/// The messages whose turn has come, the others, and the number that is expected next.
#[derive(Drop)]
struct Turns {
    given: MessageList,
    kept: Sequence<HeldMessage>,
    next: u64,
}

impl Turns {
    /// Puts a message where it belongs. After an error it is only to be dropped.
    fn put(&mut self, sender: RankId, h: HeldMessage) -> Result<(), AllocError>
        requires { self.old.next + 1 < 2 ^ 64 }
        ensures { OnOk result (self.new ≡ with_held sender.0 self.old h) }
    {
        if h.message.sender.0 == sender.0 && h.number == self.next {
            self.next += 1;
            return self.given.push(h.message);
        }
        self.kept.push(h)
    }
}

/// The messages of a sender whose turn has come, from a number on, and the others.
fn sorted_out(
    alloc: Global,
    sender: RankId,
    first: u64,
    all: Sequence<HeldMessage>,
) -> Result<Turns, AllocError>
    requires { first + length all < 2 ^ 64 }
    ensures { IfOk result (λ t. t ≡ turns_from sender.0 first all) }
{
    let mut left = all.into_vec();
    left.as_mut_slice().reverse();
    let mut turns = Turns {
        given: Sequence::new(alloc),
        kept: Sequence::new(alloc),
        next: first,
    };
    while let Some(h) = left.pop() {
        match turns.put(sender, h) {
            Ok(()) => {}
            Err(error) => {
                drop(turns);
                drop(left);
                return Err(error);
            }
        }
    }
    drop(left);
    Ok(turns)
}

/// Laws: what is given is a run of the sender's messages from the expected number on, each once; it is the longest; and each
/// message is given or kept.
pub fn turns_are_in_order()
    ensures numbered { TurnsAreNumbered }
    ensures longest { TurnsAreLongest }
    ensures lost { NoneIsLost }
{}
