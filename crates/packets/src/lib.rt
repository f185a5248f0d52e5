// YAPP packets: what their bytes say; where the data stand, and their checksum.
#![tactic(auto)]

ghost use Rattle.std.specs.Prelude.{◌≡◌, ◌≤◌, ◌<◌, ◌+◌, length, drop};
ghost use Rattle.std.specs.Option.{MatchOption};
ghost use Rattle.fields.specs.Lists.{up_to};
ghost use Rattle.packets.specs.Span.{lead as lead_of, trail as trail_of};
ghost use Rattle.packets.specs.Packet.{checksum as checksum_of, place_of};

use fields::{Fault, Place};

mod header_reader;
pub mod kinds;
pub mod packet_reader;
pub mod resume_reader;
pub mod spans;

// A header: where the name stands in the packet, the size of the file, the stamp.
#[derive(Clone, Copy)]
pub struct Header {
    pub name: Place,
    pub size: u32,
    // The DOS date times 65,536 plus the time, where there is one.
    pub stamp: Option<u32>,
}

// What a resume asks for.
#[derive(Clone, Copy)]
pub struct Resume {
    pub position: u32,
    // Whether `C` stands: YappC from here on.
    pub checked: bool,
}

// The data of a DT.
#[derive(Clone, Copy)]
pub struct Block {
    pub place: Place,
    // Whether the checksum agrees; true where there is none.
    pub sound: bool,
}

// A packet. Places count from the packet's first byte.
#[derive(Clone, Copy)]
pub enum Packet {
    RR,
    RF,
    AF,
    AT,
    CA,
    RT,
    SI,
    RI(Place),
    HD(Header),
    // A malformed header: what is wrong, and where in its data.
    Malformed(Fault),
    DT(Block),
    EF,
    ET,
    NR(Place),
    RE(Resume),
    CN(Place),
    TX(Place),
    // 1 or 2 bytes that start no packet.
    Dropped(usize),
    // Not finished yet.
    Open,
}

// How many bytes stand before the data.
#[tactic(auto, unfolding(crate::specs::Span::lead))]
fn lead(first: u8, second: u8) -> usize
    ensures { (result ≡ lead_of first second) × (result ≤ 3) }
{
    if first == 5 && second == 2 { 3 } else { 2 }
}

// How many bytes stand behind the data.
#[tactic(auto, unfolding(crate::specs::Span::trail))]
fn trail(checked: bool, first: u8) -> usize
    ensures { (result ≡ trail_of checked first) × (result ≤ 1) }
{
    usize::from(first == 2 && checked)
}

// Where the data of the packet stand that b is.
#[tactic(auto, unfolding(crate::specs::Span::place_at))]
pub fn place_of(b: &[u8], checked: bool) -> Place
    ensures { result ≡ place_of checked b.now }
{
    let first = fields::byte_at(b, 0);
    let start = lead(first, fields::byte_at(b, 1));
    let len = b.len().saturating_sub(start + trail(checked, first));
    Place { start, len }
}

// The sum of the bytes modulo 256.
#[tactic(auto, unfolding(crate::specs::Packet::checksum))]
pub fn checksum(d: &[u8]) -> u8
    ensures { result ≡ checksum_of d.now }
{
    d.iter().fold(0, |sum: u8, &x| sum.wrapping_add(x))
}

// The bytes before the first zero, and those behind it.
fn split_at_zero(s: &[u8]) -> Option<(&[u8], &[u8])>
    ensures { MatchOption result (length s.now ≤ length (up_to 0 s.now)) (λ p. (p.0.now ≡ up_to 0 s.now) × (p.1.now ≡ drop (length (up_to 0 s.now) + 1) s.now) × (length (up_to 0 s.now) < length s.now)) }
{
    let k = fields::find(s, 0);
    if k < s.len() {
        Some((&s[..k], &s[k + 1..]))
    } else {
        None
    }
}
