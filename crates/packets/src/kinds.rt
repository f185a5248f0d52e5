// The kinds of packets as numbers: the rows of the tables in the documents name them so.
ghost use Rattle.std.specs.Prelude.{◌≡◌, [], ◌≤◌};
ghost use Rattle.packets.specs.Content.{content_of};
ghost use Rattle.packets.specs.Kind.{kind_of};

use crate::Packet;

// The number of a packet's kind, which does not depend on the bytes at its places.
#[tactic(auto, unfolding(crate::specs::Kind::kind_of, crate::specs::Content::content_of))]
pub fn kind_of(packet: Packet) -> usize
    ensures { (result ≡ kind_of (content_of [] packet)) × (result ≤ 18) }
{
    match packet {
        Packet::RR => 0,
        Packet::RF => 1,
        Packet::AF => 2,
        Packet::AT => 3,
        Packet::CA => 4,
        Packet::RT => 5,
        Packet::SI => 6,
        Packet::RI(_) => 7,
        Packet::HD(_) => 8,
        Packet::DT(_) => 9,
        Packet::EF => 10,
        Packet::ET => 11,
        Packet::NR(_) => 12,
        Packet::RE(_) => 13,
        Packet::CN(_) => 14,
        Packet::TX(_) => 15,
        Packet::Malformed(_) => 16,
        Packet::Dropped(_) => 17,
        Packet::Open => 18,
    }
}
