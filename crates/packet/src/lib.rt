//! What goes from processor to processor: packets, and their bytes both ways.
#![tactic(auto)]

mod coding;
mod copies;
mod laws;
mod packets;
mod parts;
mod turns;

pub use coding::{PacketBytes, decode, decode_packet, encode};
pub use laws::packets_are_one;
pub use packets::{Content, DataPacket, ImagePacket, Packet, TreePacket, UpdatePacket};
pub use turns::{in_order, turns_are_in_order};
