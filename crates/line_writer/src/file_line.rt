// Writes the two lines that announce a file, basic and extended.
ghost use Rattle.std.specs.Prelude.{◌≡◌, ◌≤◌, length};
ghost use Rattle.fields.specs.Buffer.{over, appended, appended_end, written_of, left_of};
ghost use Rattle.numbers.specs.Writing.{decimal};
ghost use Rattle.line_writer.specs.Starts.{line_size};
ghost use Rattle.lines.specs.Element.{resume_mark, basic_form, line_form};

use fields::{Limits, WriteError, buffers};
use numbers::{hex_writer, numerals};

// `#BIN#`size, and the byte behind it.
fn put_size(reply: &mut [u8], size: u32, end: u8) -> usize
    requires { (size ≤ 99999999) × (259 ≤ length reply.old) }
    ensures { (result ≡ length (line_size (decimal size) end)) × (reply.new ≡ over 0 (line_size (decimal size) end) reply.old) }
{
    let start = buffers::put_bytes(reply, b"#BIN#");
    numerals::append_decimal(reply, start, u64::from(size), end)
}

// A basic line: the size.
#[tactic(auto, unfolding(fields::specs::Buffer::written_of, fields::specs::Buffer::left_of, lines::specs::Element::basic_form, lines::specs::Element::basic_bytes))]
pub fn write_basic(reply: &mut [u8], size: u32) -> Result<usize, WriteError>
    ensures { (result ≡ written_of 259 (basic_form size) reply.old) × (reply.new ≡ left_of 259 (basic_form size) reply.old) }
{
    crate::check_room(reply)?;
    crate::check_form(size as usize <= Limits::FILE)?;
    Ok(put_size(reply, size, b'\r'))
}

// `?` where resume is possible.
#[tactic(auto, using(crate::proofs::Laying::none_end, crate::proofs::Laying::none_bytes))]
fn append_resume(buf: &mut [u8], at: usize, resumable: bool) -> usize
    ensures { (result ≡ appended_end at (resume_mark resumable) buf.old) × (buf.new ≡ appended at (resume_mark resumable) buf.old) }
{
    if resumable {
        buffers::append_byte(buf, at, b'?')
    } else {
        at
    }
}

// An extended line: `#BIN#`size`#|`crc`#$`stamp`?#`name`\r`.
#[tactic(auto, using(crate::proofs::Laying::name_fits), unfolding(fields::specs::Buffer::written_of, fields::specs::Buffer::left_of, lines::specs::Element::line_form))]
pub fn write_line(
    reply: &mut [u8],
    size: u32,
    crc: u16,
    stamp: u32,
    resumable: bool,
    name: &[u8],
) -> Result<usize, WriteError>
    ensures { (result ≡ written_of 259 (line_form size crc stamp resumable name.now) reply.old) × (reply.new ≡ left_of 259 (line_form size crc stamp resumable name.now) reply.old) }
{
    crate::check_room(reply)?;
    crate::check_form(crate::is_file(name, size))?;
    let sized = put_size(reply, size, b'#');
    let crc_start = buffers::append_byte(reply, sized, b'|');
    let crc_end = numerals::append_decimal(reply, crc_start, u64::from(crc), b'#');
    let stamp_start = buffers::append_byte(reply, crc_end, b'$');
    let stamp_end = hex_writer::append_hex(reply, stamp_start, stamp);
    let resume = append_resume(reply, stamp_end, resumable);
    let name_start = buffers::append_byte(reply, resume, b'#');
    let name_end = buffers::append_bytes(reply, name_start, name);
    Ok(buffers::append_byte(reply, name_end, b'\r'))
}
