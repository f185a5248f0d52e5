// The data of a header read: name, size, stamp.
ghost use Rattle.std.specs.Prelude.{◌≡◌};
ghost use Rattle.packets.specs.Packet.{stamp_of, header_read, header_packet};

use crate::{Header, Packet};
use fields::{Place, names};
use numbers::digit_reader;

// A header's option: exactly eight hex digits and a zero are a stamp.
#[tactic(auto, unfolding(crate::specs::Packet::stamp_of))]
fn stamp_of(option: &[u8]) -> Option<u32>
    ensures { result ≡ stamp_of option.now }
{
    match option {
        [digits @ .., 0] => digit_reader::read_hex(digits),
        _ => None,
    }
}

// A header's data: the name, a zero, the size, a zero, the option.
#[tactic(auto, unfolding(crate::specs::Packet::header_read, crate::specs::Packet::header_size))]
fn header_read(d: &[u8]) -> Option<Header>
    ensures { result ≡ header_read d.now }
{
    let (name, rest) = crate::split_at_zero(d)?;
    if !names::is_name(name) {
        return None;
    }
    let (digits, option) = crate::split_at_zero(rest)?;
    Some(Header {
        name: Place {
            start: 2,
            len: name.len(),
        },
        size: digit_reader::read_size(digits)?,
        stamp: stamp_of(option),
    })
}

// The packet that a header is. Not inlined, since a function clears its locals as it begins: one that reads a stream's packets and holds all of
// this clears its pending bytes for each, though headers are rare.
#[inline(never)]
pub fn header_packet(d: &[u8]) -> Packet
    ensures { result ≡ header_packet d.now }
{
    match header_read(d) {
        Some(h) => Packet::HD(h),
        None => Packet::Malformed(faults::header_fault(d)),
    }
}
