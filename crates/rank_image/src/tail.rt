//! What a rank keeps of other ranks, with its readers and writers.

ghost use Rattle.std.specs.Prelude.{◌≡◌, ◌++◌, true, Some, None, IfOk, OnOk, IsErrOf};
ghost use Rattle.byte_formats.specs.declared.cursor.Unspelled.TheVariants.{Bad};
ghost use Rattle.byte_formats.specs.Formats.{both};
ghost use Rattle.mpi_types.specs.Order.{is_held_before};
ghost use Rattle.rank_image.specs.Middle.{pairs, held_message, held, arrived, tree, tail};
ghost use Rattle.rank_image.specs.MiddleLaws.{held_message_is};

use crate::messages::{MessageFormat, TreeMessage};
use crate::order::{Order, ascend_in};
use crate::trees::ByPlace;
use am_base::Bytes;
use byte_formats::{
    Cursor, Number64, Spelling, Unspelled, put_count16, put_count32, put_many, put_u64, take_many,
    take_u16, take_u32, take_u64,
};
use mpi_types::{HeldMessage, Message, Sequence, TreeMsg};
use std::alloc::{AllocError, Global};

/// What a rank keeps of other ranks: the next number to each and the next one expected from each, the messages that came
/// before their turn, those that have arrived and that no receive has taken, and those of trees.
#[derive(Drop)]
pub struct Tail {
    pub sent: Sequence<u64>,
    pub expected: Sequence<u64>,
    pub held: Sequence<HeldMessage>,
    pub arrived: Sequence<Message>,
    pub tree: Sequence<TreeMsg>,
}

/// Takes the numbers of messages to each rank, and from each rank.
#[tactic(auto, unfolding(crate::specs::Middle::pairs, crate::specs::Middle::ranks_number))]
fn take_pairs(
    alloc: Global,
    cursor: &mut Cursor<'_>,
) -> Result<(Sequence<u64>, Sequence<u64>), Unspelled>
    ensures ok { IfOk result (λ x. pairs.read cursor.old.rest.now ≡ Some (x, cursor.new.rest.now)) }
    ensures bad { IsErrOf result Bad → pairs.read cursor.old.rest.now ≡ None }
{
    let count = take_u16(cursor)?;
    if count < 1 || count > 256 {
        return Err(Unspelled::Bad);
    }
    let sent = take_many::<Number64>(alloc, cursor, count as usize)?;
    match take_many::<Number64>(alloc, cursor, count as usize) {
        Ok(expected) => Ok((Sequence::from_vec(sent), Sequence::from_vec(expected))),
        Err(error) => {
            drop(sent);
            Err(error)
        }
    }
}

/// Appends the numbers of messages to each rank, and from each rank.
#[tactic(auto, unfolding(crate::specs::Middle::pairs, crate::specs::Middle::ranks_number))]
pub fn put_pairs(out: &mut Bytes, sent: &[u64], expected: &[u64]) -> Result<(), AllocError>
    requires { pairs.fits (sent.now, expected.now) ≡ true }
    ensures { OnOk result (out.new ≡ out.old ++ pairs.spell (sent.now, expected.now)) }
{
    put_count16(out, sent.len())?;
    put_many::<Number64>(out, sent)?;
    put_many::<Number64>(out, expected)
}

/// Messages that came before their turn.
pub struct HeldFormat;

impl Spelling for HeldFormat {
    type Value = HeldMessage;

    ghost format = { held_message };

    #[tactic(auto, unfolding(crate::specs::Middle::held_message))]
    fn take(alloc: Global, cursor: &mut Cursor<'_>) -> Result<HeldMessage, Unspelled> {
        let number = take_u64(cursor)?;
        let message = MessageFormat::take(alloc, cursor)?;
        Ok(HeldMessage { number, message })
    }

    #[tactic(auto, unfolding(crate::specs::Middle::held_message))]
    fn put(out: &mut Bytes, value: &HeldMessage) -> Result<(), AllocError> {
        put_u64(out, value.number)?;
        MessageFormat::put(out, &value.message)
    }

    ghost is_format = { held_message_is };
}

/// Those by sender and number.
pub struct ByTurn;

impl Order for ByTurn {
    type Value = HeldMessage;

    ghost test = { is_held_before };

    fn is_before(a: &HeldMessage, b: &HeldMessage) -> bool {
        a.message.sender.0 < b.message.sender.0
            || (a.message.sender.0 == b.message.sender.0 && a.number < b.number)
    }
}

/// Takes the messages that came before their turn, which ascend by sender and number.
#[tactic(auto, unfolding(crate::specs::Middle::held))]
fn take_held(alloc: Global, cursor: &mut Cursor<'_>) -> Result<Sequence<HeldMessage>, Unspelled>
    ensures ok { IfOk result (λ x. held.read cursor.old.rest.now ≡ Some (x, cursor.new.rest.now)) }
    ensures bad { IsErrOf result Bad → held.read cursor.old.rest.now ≡ None }
{
    let count = take_u32(cursor)?;
    let found = take_many::<HeldFormat>(alloc, cursor, count as usize)?;
    if ascend_in::<ByTurn>(found.as_slice()) {
        return Ok(Sequence::from_vec(found));
    }
    drop(found);
    Err(Unspelled::Bad)
}

/// Appends the messages that came before their turn.
#[tactic(auto, unfolding(crate::specs::Middle::held))]
pub fn put_held(out: &mut Bytes, value: &[HeldMessage]) -> Result<(), AllocError>
    requires { held.fits value.now ≡ true }
    ensures { OnOk result (out.new ≡ out.old ++ held.spell value.now) }
{
    put_count32(out, value.len())?;
    put_many::<HeldFormat>(out, value)
}

/// Takes the messages that have arrived.
#[tactic(auto, unfolding(crate::specs::Middle::arrived))]
fn take_arrived(alloc: Global, cursor: &mut Cursor<'_>) -> Result<Sequence<Message>, Unspelled>
    ensures ok { IfOk result (λ x. arrived.read cursor.old.rest.now ≡ Some (x, cursor.new.rest.now)) }
    ensures bad { IsErrOf result Bad → arrived.read cursor.old.rest.now ≡ None }
{
    let count = take_u32(cursor)?;
    let found = take_many::<MessageFormat>(alloc, cursor, count as usize)?;
    Ok(Sequence::from_vec(found))
}

/// Appends the messages that have arrived.
#[tactic(auto, unfolding(crate::specs::Middle::arrived))]
pub fn put_arrived(out: &mut Bytes, value: &[Message]) -> Result<(), AllocError>
    requires { arrived.fits value.now ≡ true }
    ensures { OnOk result (out.new ≡ out.old ++ arrived.spell value.now) }
{
    put_count32(out, value.len())?;
    put_many::<MessageFormat>(out, value)
}

/// Takes the messages of trees, which stand in their order.
#[tactic(auto, unfolding(crate::specs::Middle::tree))]
fn take_tree(alloc: Global, cursor: &mut Cursor<'_>) -> Result<Sequence<TreeMsg>, Unspelled>
    ensures ok { IfOk result (λ x. tree.read cursor.old.rest.now ≡ Some (x, cursor.new.rest.now)) }
    ensures bad { IsErrOf result Bad → tree.read cursor.old.rest.now ≡ None }
{
    let count = take_u32(cursor)?;
    let found = take_many::<TreeMessage>(alloc, cursor, count as usize)?;
    if ascend_in::<ByPlace>(found.as_slice()) {
        return Ok(Sequence::from_vec(found));
    }
    drop(found);
    Err(Unspelled::Bad)
}

/// Appends the messages of trees.
#[tactic(auto, unfolding(crate::specs::Middle::tree))]
pub fn put_tree(out: &mut Bytes, value: &[TreeMsg]) -> Result<(), AllocError>
    requires { tree.fits value.now ≡ true }
    ensures { OnOk result (out.new ≡ out.old ++ tree.spell value.now) }
{
    put_count32(out, value.len())?;
    put_many::<TreeMessage>(out, value)
}

/// Takes what a rank keeps of other ranks.
#[tactic(auto, unfolding(crate::specs::Middle::tail))]
pub fn take_tail(alloc: Global, cursor: &mut Cursor<'_>) -> Result<Tail, Unspelled>
    ensures ok { IfOk result (λ x. tail.read cursor.old.rest.now ≡ Some (x, cursor.new.rest.now)) }
    ensures bad { IsErrOf result Bad → tail.read cursor.old.rest.now ≡ None }
{
    let (sent, expected) = take_pairs(alloc, cursor)?;
    let held = match take_held(alloc, cursor) {
        Ok(held) => held,
        Err(error) => {
            drop(sent);
            drop(expected);
            return Err(error);
        }
    };
    match take_kept(alloc, cursor) {
        Ok((arrived, tree)) => Ok(Tail {
            sent,
            expected,
            held,
            arrived,
            tree,
        }),
        Err(error) => {
            drop(sent);
            drop(expected);
            drop(held);
            Err(error)
        }
    }
}

/// Takes the messages that have arrived, and those of trees.
fn take_kept(
    alloc: Global,
    cursor: &mut Cursor<'_>,
) -> Result<(Sequence<Message>, Sequence<TreeMsg>), Unspelled>
    ensures ok { IfOk result (λ x. (both arrived tree).read cursor.old.rest.now ≡ Some (x, cursor.new.rest.now)) }
    ensures bad { IsErrOf result Bad → (both arrived tree).read cursor.old.rest.now ≡ None }
{
    let arrived = take_arrived(alloc, cursor)?;
    match take_tree(alloc, cursor) {
        Ok(tree) => Ok((arrived, tree)),
        Err(error) => {
            drop(arrived);
            Err(error)
        }
    }
}
