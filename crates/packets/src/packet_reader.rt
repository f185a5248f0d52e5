// YAPP packets read.
ghost use Rattle.std.specs.Prelude.{◌≡◌};
ghost use Rattle.packets.specs.Packet.{resume_read, nak_by, is_sound, acknowledge_of, whole_of, packet_in, packet_of, front_data};

use crate::spans::Span;
use crate::{Block, Packet, header_reader, resume_reader, spans};
use fields::Place;

// Whether the byte behind the data is their checksum.
#[tactic(auto, unfolding(crate::specs::Packet::is_sound))]
fn is_sound(checked: bool, place: Place, b: &[u8]) -> bool
    ensures { result ≡ is_sound checked place b.now }
{
    if !checked {
        return true;
    }
    let rest = fields::part(b, place.start, b.len());
    let data = fields::part(rest, 0, place.len);
    crate::checksum(data) == fields::byte_at(rest, place.len)
}

// A NAK whose data are not a resume is a Not Ready. By `let .. else`, as document 01 asks. Not inlined, for the reason that a header is not.
#[inline(never)]
fn nak_packet(d: &[u8], place: Place) -> Packet
    ensures { result ≡ nak_by (resume_read d.now) place }
{
    let Some(r) = resume_reader::resume_read(d) else {
        return Packet::NR(place);
    };
    Packet::RE(r)
}

// The acknowledgements, by their second byte.
#[tactic(auto, unfolding(crate::specs::Packet::acknowledge_of))]
fn acknowledge_of(second: u8) -> Packet
    ensures { result ≡ acknowledge_of second }
{
    match second {
        1 => Packet::RR,
        2 => Packet::RF,
        3 => Packet::AF,
        4 => Packet::AT,
        5 => Packet::CA,
        _ => Packet::RT,
    }
}

// What b says, which is one whole packet.
#[tactic(auto, unfolding(crate::specs::Packet::whole_of))]
fn whole_of(b: &[u8], checked: bool) -> Packet
    ensures { result ≡ whole_of checked b.now }
{
    let place = crate::place_of(b, checked);
    let data = fields::bytes_at(b, place);
    let second = fields::byte_at(b, 1);
    match fields::byte_at(b, 0) {
        1 => header_reader::header_packet(data),
        2 => Packet::DT(Block {
            place,
            sound: is_sound(checked, place, b),
        }),
        3 => Packet::EF,
        4 => Packet::ET,
        5 if second == 1 => Packet::SI,
        5 => Packet::RI(place),
        6 => acknowledge_of(second),
        0x10 => Packet::TX(place),
        0x15 => nak_packet(data, place),
        _ => Packet::CN(place),
    }
}

// What stands at the front of b, where its span is known.
pub fn packet_in(found: Span, b: &[u8], checked: bool) -> Packet
    ensures { result ≡ packet_in checked found b.now }
{
    match found {
        Span::Open => Packet::Open,
        Span::Drop(n) => Packet::Dropped(n),
        Span::Whole(n) => whole_of(fields::part(b, 0, n), checked),
    }
}

// What stands at the front of b: of a capture held whole, lend the part from a packet's first byte on.
pub fn packet_of(b: &[u8], checked: bool) -> Packet
    ensures { result ≡ packet_of checked b.now }
{
    packet_in(spans::span_of(b, checked), b, checked)
}

// The data of the packet at the front of b, as that stretch of b; empty where no whole packet stands there.
pub fn data_of(b: &[u8], checked: bool) -> &[u8]
    ensures { result.now ≡ front_data checked b.now }
{
    match spans::span_of(b, checked) {
        Span::Whole(n) => {
            let whole = fields::part(b, 0, n);
            fields::bytes_at(whole, crate::place_of(whole, checked))
        }
        Span::Open | Span::Drop(_) => &[],
    }
}
