//! The law of packets' bytes.

ghost use Rattle.packet.specs.Laws.{IsOnePacket, HasOneSpelling};

/// A law: bytes are those of one packet at most, and a packet has one spelling.
pub fn packets_are_one()
    ensures packet { IsOnePacket }
    ensures bytes { HasOneSpelling }
{}
