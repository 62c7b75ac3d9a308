//! Messages of a pair of ranks that come in every order.

use am_base::{Bytes, RankId};
use mpi_types::{Ctx, Message, Reorder, Sequence};
use packet::in_order;
use std::alloc::{AllocError, Global};
use std::test::Fail;

/// What stands for a wrong answer: more messages than ever come.
const WRONG: usize = 1000;

/// A message of rank 1 with its number as its tag.
fn message(alloc: Global, number: u8) -> Message {
    Message {
        sender: RankId(1),
        ctx: Ctx::world(alloc),
        member: 1,
        tag: i32::from(number),
        body: Bytes::new(alloc),
    }
}

/// How many messages are in order when that of this number comes, where it may come and they come by their tags from this one on.
fn comes(alloc: Global, b: &mut Reorder, number: u8, first: u8) -> Result<usize, AllocError> {
    if b.expected.len() != 2 || b.held.len() > WRONG || b.expected.as_slice()[1] > 1000 {
        return Ok(WRONG);
    }
    let given = in_order(
        alloc,
        b,
        RankId(1),
        u64::from(number),
        message(alloc, number),
    )?;
    let mut tag = i32::from(first);
    for message in given.as_slice() {
        if message.tag != tag {
            return Ok(WRONG);
        }
        tag = tag.saturating_add(1);
    }
    Ok(given.len())
}

/// The digits of a number in base 5.
fn digits(code: u16) -> [u8; 5] {
    [
        (code % 5) as u8,
        (code / 5 % 5) as u8,
        (code / 25 % 5) as u8,
        (code / 125 % 5) as u8,
        (code / 625 % 5) as u8,
    ]
}

/// How many of the numbers from this one on are among those, one behind the other.
fn run_from(next: u8, numbers: &[u8]) -> u8 {
    let mut end = next;
    for _ in numbers {
        if numbers.contains(&end) {
            end = end.saturating_add(1);
        }
    }
    end.saturating_sub(next)
}

/// Whether the numbers are the least ones, each once.
fn are_each_once(numbers: &[u8]) -> bool {
    usize::from(run_from(0, numbers)) == numbers.len()
}

/// Whether messages that come in this order are given as soon as all before them have come, and none is held at the end.
fn are_given(alloc: Global, numbers: &[u8]) -> Result<bool, AllocError> {
    let mut b = Reorder {
        expected: Sequence::from_vec(vec![in alloc; 0u64, 0]?),
        held: Sequence::new(alloc),
    };
    let mut next = 0u8;
    let mut at = 0usize;
    for number in numbers {
        at = at.saturating_add(1);
        let Some(come) = numbers.get(..at) else {
            return Ok(false);
        };
        let run = run_from(next, come);
        let given = comes(alloc, &mut b, *number, next)?;
        next = next.saturating_add(run);
        if given != usize::from(run) || b.held.len() != at.saturating_sub(usize::from(next)) {
            return Ok(false);
        }
    }
    Ok(b.held.is_empty() && b.expected.as_slice() == [0, u64::from(next)].as_slice())
}

/// How many orders there are of so many messages, where they are given in each as they should.
fn orders(alloc: Global, count: usize) -> Result<u32, AllocError> {
    let mut orders = 0u32;
    for code in 0..3125 {
        let digits = digits(code);
        let Some((numbers, rest)) = digits.split_at_checked(count) else {
            return Ok(0);
        };
        if are_each_once(numbers) && rest.iter().all(|digit| *digit == 0) {
            if !are_given(alloc, numbers)? {
                return Ok(0);
            }
            orders = orders.saturating_add(1);
        }
    }
    Ok(orders)
}

#[test]
fn messages_come_in_every_order(rt: HostRuntime) -> Result<(), Fail> {
    let alloc = rt.alloc();
    for (count, wanted) in [(1, 1), (2, 2), (3, 6), (4, 24), (5, 120)] {
        assert!(rt; orders(alloc, count)? == wanted, "{count}");
    }
    Ok(())
}
