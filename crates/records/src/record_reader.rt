// The saved record read.
ghost use Rattle.std.specs.Prelude.{◌≡◌, ◌≤◌};
ghost use Rattle.records.specs.Record.{number_at, named_at, kind_read, record_of};

use crate::Record;
use fields::{Limits, Place, names};
use numbers::little_reader;

// The little-endian number of width bytes at index from.
fn number_at(b: &[u8], from: usize, width: usize) -> u32
    requires { width ≤ 4 }
    ensures { result ≡ number_at from width b.now }
{
    little_reader::read_little(fields::part(b, from, width)).unwrap_or(0)
}

// The record whose name length stands at index at.
#[tactic(auto, unfolding(crate::specs::Record::named_at))]
fn named_at(b: &[u8], at: usize, stamp: Option<u32>) -> Option<Record>
    requires { at ≤ 16 }
    ensures { result ≡ named_at at stamp b.now }
{
    let name = Place {
        start: at + 1,
        len: number_at(b, at, 1) as usize,
    };
    let size = number_at(b, 4, 4);
    let kept = number_at(b, 8, 4);
    if name.start + name.len == b.len()
        && names::is_name(fields::bytes_at(b, name))
        && size as usize <= Limits::FILE
    {
        Some(Record {
            size,
            kept,
            stamp,
            name,
        })
    } else {
        None
    }
}

// The record of a kind: 1 without a stamp, 2 with one.
#[tactic(auto, unfolding(crate::specs::Record::kind_read))]
fn kind_read(b: &[u8], kind: u32) -> Option<Record>
    ensures { result ≡ kind_read kind b.now }
{
    match kind {
        1 => named_at(b, 12, None),
        2 => named_at(b, 16, Some(number_at(b, 12, 4))),
        _ => None,
    }
}

// The record that b is. A kept count over the size is read.
#[tactic(auto, unfolding(crate::specs::Record::record_of))]
pub fn record_of(b: &[u8]) -> Option<Record>
    ensures { result ≡ record_of b.now }
{
    let count = number_at(b, 0, 2) as usize;
    if 2 + count == b.len() {
        kind_read(b, number_at(b, 2, 2))
    } else {
        None
    }
}
