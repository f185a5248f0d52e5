// What packets, lines and records share: places, stamps, limits, parts of a slice; file names; bytes written into a lent buffer.
#![tactic(auto)]

ghost use Rattle.std.specs.Prelude.{◌≡◌, ◌≤◌, length, get_or};
ghost use Rattle.fields.specs.Lists.{part as part_of, bytes_at, up_to};

pub mod buffers;
pub mod names;

// Why a writer wrote none; one that writes answers how many bytes it wrote.
#[derive(Clone, Copy, PartialEq, Eq, Debug)]
pub enum WriteError {
    // The buffer is too small (20).
    Small,
    // There is no form for it (22).
    Formless,
}

// A stretch of bytes: where it starts and how many there are.
#[derive(Clone, Copy, PartialEq, Eq, Debug)]
pub struct Place {
    pub start: usize,
    pub len: usize,
}

// What is wrong with a header, a line or an OK. (Change request 2026-02.)
#[derive(Clone, Copy, PartialEq, Eq, Debug)]
pub enum Flaw {
    // 71: no closing byte behind the name.
    NameOpen,
    // 72: the name is empty or too long.
    NameLength,
    // 73: a forbidden byte in the name.
    NameByte,
    // 74: no digits.
    NoDigits,
    // 75: too many digits.
    ManyDigits,
    // 76: no closing bytes behind the size.
    SizeOpen,
    // 7: a line's CRC, stamp or other marks, and everything in an OK.
    Other,
}

// What is wrong, and where: the offset of the first offending byte, in the data of a header or in the frame; the length where they simply end.
#[derive(Clone, Copy, PartialEq, Eq, Debug)]
pub struct Fault {
    pub flaw: Flaw,
    pub offset: usize,
}

// The limits of document 01. A name for them alone: nothing makes one.
#[derive(Clone, Copy)]
pub struct Limits {}

impl Limits {
    // The longest file name.
    pub const NAME: usize = 64;
    // The largest file.
    pub const FILE: usize = 99_999_999;
    // The longest block of a file that is sent at once.
    pub const BLOCK: usize = 256;
    // The longest frame.
    pub const FRAME: usize = 256;
    // The shortest reply buffer (document 01: reply room).
    pub const REPLY: usize = 259;
    // The shortest buffer that a record is written into.
    pub const RECORD: usize = 81;
}

// The byte of s at index i; 0 past the end.
pub fn byte_at(s: &[u8], i: usize) -> u8
    ensures { result ≡ get_or s.now i 0 }
{
    s.get(i).copied().unwrap_or(0)
}

// Up to count bytes of s from index from on: as many as there are.
pub fn part(s: &[u8], from: usize, count: usize) -> &[u8]
    ensures { result.now ≡ part_of from count s.now }
{
    let rest = s.get(from..).unwrap_or(&[]);
    &rest[..count.min(rest.len())]
}

// The bytes of s at a place: as many as there are.
pub fn bytes_at(s: &[u8], place: Place) -> &[u8]
    ensures { result.now ≡ bytes_at s.now place }
{
    part(s, place.start, place.len)
}

// Where the first x stands in s; the length where there is none.
pub fn find(s: &[u8], x: u8) -> usize
    ensures { (result ≡ length (up_to x s.now)) × (result ≤ length s.now) }
{
    s.iter().position(|&c| c == x).unwrap_or(s.len())
}
