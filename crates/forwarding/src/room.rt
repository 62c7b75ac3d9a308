//! The packets that wait at a processor for a rank that is on its way to it.

ghost use Rattle.std.specs.Prelude.{◌≡◌, ◌↔◌, ◌+◌, ◌<◌, ◌≤◌, ◌++◌, ◌∷◌, [], length, vec_len, vec_capacity, MatchOption, IsTrue, IfOk, OnOk, OnErr};
ghost use Rattle.forwarding.specs.Waiting.{is_for, those_for, others_than, IsFirstFor};

use am_base::RankId;
use mpi_types::Sequence;
use packet::{Content, Packet};
use std::alloc::{AllocError, Global};
use std::marker::Model;

/// Packets in order.
pub type PacketList = Sequence<Packet>;

/// The packets that wait, in order of arrival.
#[derive(Debug, Drop)]
pub struct Room {
    alloc: Global,
    packets: Vec<Packet>,
}

impl Model for Room {
    ghost use Rattle.std.specs.Prelude.{List};
    ghost use Rattle.packet.specs.declared.packets.Packet.{Packet};

    ghost Value = { List Packet };

    ghost view = { λ r. r.packets.items };
}

impl Room {
    /// A room in which nothing waits.
    pub fn new(alloc: Global) -> Result<Room, AllocError>
        ensures { IfOk result (λ r. r ≡ []) }
    {
        Ok(Room {
            alloc,
            packets: Vec::new(alloc),
        })
    }

    /// Lets a packet wait behind the others.
    ///
    /// # Errors
    ///
    /// Only want of memory. The room is then as it was.
    pub fn hold(&mut self, p: Packet) -> Result<(), AllocError>
        ensures ok { OnOk result (self.new ≡ self.old ++ p ∷ []) }
        ensures err { OnErr result (self.new ≡ self.old) }
    {
        self.packets.push(p)?;
        Ok(())
    }

    /// Takes out the packets for the rank, in order of arrival.
    ///
    /// # Errors
    ///
    /// Only want of memory. The room is then as it was.
    pub fn release(&mut self, r: RankId) -> Result<PacketList, AllocError>
        ensures given { IfOk result (λ ps. ps ≡ those_for r.0 self.old) }
        ensures kept { OnOk result (self.new ≡ others_than r.0 self.old) }
        ensures err { OnErr result (self.new ≡ self.old) }
    {
        let mut given = Vec::with_capacity(self.alloc, self.packets.len())?;
        move_out(&mut self.packets, r, &mut given);
        Ok(Sequence::from_vec(given))
    }

    /// Whether nothing waits. It takes no memory, as `clear`.
    pub fn is_empty(&self) -> bool
        ensures { IsTrue result ↔ (self.now ≡ []) }
    {
        self.packets.is_empty()
    }

    /// Drops all packets.
    pub fn clear(&mut self)
        ensures { self.new ≡ [] }
    {
        self.packets.clear();
    }
}

/// Whether the packet is for the rank.
fn is_for(r: RankId, p: &Packet) -> bool
    ensures { result ≡ is_for r.0 p.now }
{
    match &p.content {
        Content::Data(data) => data.to.0 == r.0,
        Content::Tree(tree) => tree.to.0 == r.0,
        Content::Image(_) => false,
        Content::Update(_) => false,
        Content::Copy(_) => false,
    }
}

/// Where the first packet for the rank stands.
fn first_for(packets: &[Packet], r: RankId) -> Option<usize>
    ensures { MatchOption result (those_for r.0 packets.now ≡ []) (λ at. IsFirstFor r.0 packets.now at) }
{
    for i in 0..packets.len() {
        if is_for(r, &packets[i]) {
            return Some(i);
        }
    }
    None
}

/// Moves the packets for the rank behind those that are given.
fn move_out(packets: &mut Vec<Packet>, r: RankId, given: &mut Vec<Packet>)
    requires { vec_len given.old + vec_len packets.old ≤ vec_capacity given.old }
    ensures given { given.new.items ≡ given.old.items ++ those_for r.0 packets.old.items }
    ensures kept { packets.new.items ≡ others_than r.0 packets.old.items }
{
    loop {
        match first_for(packets.as_slice(), r) {
            Some(at) => {
                let packet = packets.remove(at);
                put_last(given, packet);
            }
            None => return,
        }
    }
}

/// Puts a packet behind the others, where there is room.
fn put_last(given: &mut Vec<Packet>, packet: Packet)
    requires { vec_len given.old < vec_capacity given.old }
    ensures items { given.new.items ≡ given.old.items ++ packet ∷ [] }
    ensures len { vec_len given.new ≡ vec_len given.old + 1 }
    ensures room { vec_capacity given.old ≤ vec_capacity given.new }
{
    given.push(packet).unwrap();
}
