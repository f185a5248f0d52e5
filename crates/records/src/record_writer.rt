// The saved record written.
ghost use Rattle.std.specs.Prelude.{◌≡◌, true, ◌+◌, ◌≤◌, length};
ghost use Rattle.fields.specs.Buffer.{over, appended, appended_end, written_of, left_of};
ghost use Rattle.records.specs.Saved.{saved, kind_of, stamp_bytes, record_bytes, stamp_fits, record_form};

use fields::{Limits, WriteError, buffers, names};
use numbers::little_writer;

#[tactic(auto, unfolding(crate::specs::Saved::kind_of))]
fn kind_of(stamp: Option<u32>) -> u32
    ensures { result ≡ kind_of stamp }
{
    match stamp {
        Some(_) => 2,
        None => 1,
    }
}

// How many bytes follow the length.
fn count_of(name: usize, stamp: Option<u32>) -> usize
    requires { name ≤ 64 }
    ensures { result ≡ 11 + length (stamp_bytes stamp) + name }
{
    match stamp {
        Some(_) => 15 + name,
        None => 11 + name,
    }
}

// The stamp from index at on, where there is one.
fn append_stamp(buf: &mut [u8], at: usize, stamp: Option<u32>) -> usize
    ensures { (result ≡ appended_end at (stamp_bytes stamp) buf.old) × (buf.new ≡ appended at (stamp_bytes stamp) buf.old) × (stamp_fits stamp ≡ true) }
{
    match stamp {
        Some(v) => little_writer::append_little(buf, at, 4, v),
        None => at,
    }
}

// Writes a record over the beginning of buf, and returns how many bytes it has.
fn put_record(buf: &mut [u8], name: &[u8], size: u32, kept: u32, stamp: Option<u32>) -> usize
    requires { (length name.now ≤ 64) × (81 ≤ length buf.old) }
    ensures { (result ≡ length (record_bytes (saved name.now size kept stamp))) × (buf.new ≡ over 0 (record_bytes (saved name.now size kept stamp)) buf.old) × (stamp_fits stamp ≡ true) }
{
    let count = count_of(name.len(), stamp);
    let counted = little_writer::append_little(buf, 0, 2, count as u32);
    let sorted = little_writer::append_little(buf, counted, 2, kind_of(stamp));
    let sized = little_writer::append_little(buf, sorted, 4, size);
    let held = little_writer::append_little(buf, sized, 4, kept);
    let stamped = append_stamp(buf, held, stamp);
    let named = little_writer::append_little(buf, stamped, 1, name.len() as u32);
    buffers::append_bytes(buf, named, name)
}

// Writes the record of a name, a size, a kept count and a stamp. A buffer under 81 bytes is 20, a name or size outside the
// limits is 22; a refusal leaves the buffer as it was, and so does a record all bytes behind it.
#[tactic(auto, unfolding(fields::specs::Buffer::written_of, fields::specs::Buffer::left_of, crate::specs::Saved::record_form, crate::specs::Saved::is_saved))]
pub fn write(
    buf: &mut [u8],
    name: &[u8],
    size: u32,
    kept: u32,
    stamp: Option<u32>,
) -> Result<usize, WriteError>
    ensures { (result ≡ written_of 81 (record_form (saved name.now size kept stamp)) buf.old) × (buf.new ≡ left_of 81 (record_form (saved name.now size kept stamp)) buf.old) }
{
    if buf.len() < Limits::RECORD {
        return Err(WriteError::Small);
    }
    if !names::is_name(name) || Limits::FILE < size as usize {
        return Err(WriteError::Formless);
    }
    Ok(put_record(buf, name, size, kept, stamp))
}
