// What a receiver keeps of a file: whether more of it fits, whether a record matches, and how it is written.
ghost use Rattle.std.specs.Prelude.{◌≡◌, ◌+◌, leb};
ghost use Rattle.calls.specs.Saving.{saved_by, held_of, is_within, matches_of, form_by};
ghost use Rattle.calls.specs.Recording.{record_answer, record_left};

use crate::Entry;
use fields::{WriteError, names};
use records::record_writer;

// The record, whose name is no longer than the array.
pub fn held(keeping: Option<Entry>, name: &[u8]) -> Option<Entry>
    ensures { result ≡ held_of keeping name.now }
{
    let entry = keeping?;
    let named = fields::part(name, 0, entry.named).len();
    Some(Entry { named, ..entry })
}

// Whether the kept bytes are within the size, and the size within the area.
pub fn is_within(kept: u32, size: u32, room: usize) -> bool
    ensures { result ≡ is_within kept size room }
{
    kept <= size && size as usize <= room
}

// Whether n bytes more stay within the size.
pub fn fits(kept: u32, n: usize, size: u32) -> bool
    ensures { result ≡ leb (kept + n) size }
{
    kept <= size && n <= (size - kept) as usize
}

// Whether a header or line with this name and size is the record's, whose name stands in held.
pub fn matches(entry: Entry, held: &[u8], name: &[u8], size: u32) -> bool
    ensures { result ≡ matches_of entry held.now name.now size }
{
    names::same(fields::part(held, 0, entry.named), name) && entry.size == size
}

// Writes the record's bytes, where there is a record; its name stands at the front of name.
pub fn write_record(
    keeping: Option<Entry>,
    name: &[u8],
    buf: &mut [u8],
) -> Option<Result<usize, WriteError>>
    ensures { (result ≡ record_answer (form_by (saved_by keeping name.now)) buf.old) × (buf.new ≡ record_left (form_by (saved_by keeping name.now)) buf.old) }
{
    let record = keeping?;
    let own = fields::part(name, 0, record.named);
    Some(record_writer::write(buf, own, record.size, record.kept, record.stamp))
}
