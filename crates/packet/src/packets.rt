//! What packets hold.

use am_base::{ProcId, RankId};
use mpi_types::{Message, Sequence, TreeMsg};
use rank_image::ImageBytes;

/// A message of one rank to another.
#[derive(Debug, Drop)]
pub struct DataPacket {
    pub to: RankId,
    /// The count of the pair by which it was sent here.
    pub floor: u32,
    /// Its number among the messages of its sender to its destination.
    pub number: u64,
    pub message: Message,
}

/// A message of a collective's tree.
#[derive(Debug, Drop)]
pub struct TreePacket {
    pub from: RankId,
    pub to: RankId,
    /// The count of the pair by which it was sent here.
    pub floor: u32,
    pub message: TreeMsg,
}

/// A rank that was sent off.
#[derive(Debug, Drop)]
pub struct ImagePacket {
    pub rank: RankId,
    /// How often the rank was sent off.
    pub count: u32,
    pub image: ImageBytes,
}

/// Where a rank is.
#[derive(Clone, Copy, Debug)]
pub struct UpdatePacket {
    pub rank: RankId,
    /// How often the rank was sent off.
    pub count: u32,
    pub place: ProcId,
}

/// What a packet holds.
#[derive(Debug, Drop)]
pub enum Content {
    Data(DataPacket),
    Tree(TreePacket),
    Image(ImagePacket),
    Update(UpdatePacket),
    /// New copies of ranks, ascending by rank.
    Copy(Sequence<ImageBytes>),
}

/// A packet: the incarnation in which it was sent, the processor that first sent it, and what it holds.
#[derive(Debug, Drop)]
pub struct Packet {
    pub incarnation: u32,
    pub origin: ProcId,
    pub content: Content,
}
