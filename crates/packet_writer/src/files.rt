// Writes the YAPP packets that begin a file: HD and RE.
ghost use Rattle.std.specs.Prelude.{◌≡◌, true, ◌≤◌, length};
ghost use Rattle.fields.specs.Buffer.{over, written_of, left_of};
ghost use Rattle.packets.specs.Content.{stamp_fits, header_data, header_form, resume_data, resume_form};
ghost use Rattle.packet_writer.specs.Front.{front};

use crate::texts;
use fields::{Limits, WriteError, buffers, names};
use numbers::{hex_writer, numerals};

// Room for the data of HD: name, size and stamp, a zero behind each. Those of RE are shorter.
const ROOM: usize = 83;

// Lays a 00 n 00 over the beginning of room: so begin the data of HD and of RE.
fn put_front(room: &mut [u8], a: &[u8], n: u32) -> usize
    requires { (length a.now ≤ 64) × (n ≤ 99999999) × (83 ≤ length room.old) }
    ensures { (result ≡ length (front a.now n)) × (room.new ≡ over 0 (front a.now n) room.old) }
{
    let named = buffers::append_bytes(room, 0, a);
    let at = buffers::append_byte(room, named, 0);
    numerals::append_decimal(room, at, u64::from(n), 0)
}

// Lays name 00 size 00 option over the beginning of room.
fn put_header(room: &mut [u8], name: &[u8], size: u32, stamp: Option<u32>) -> usize
    requires { (length name.now ≤ 64) × (size ≤ 99999999) × (83 ≤ length room.old) }
    ensures { (result ≡ length (header_data name.now size stamp)) × (room.new ≡ over 0 (header_data name.now size stamp) room.old) × (stamp_fits stamp ≡ true) }
{
    let next = put_front(room, name, size);
    match stamp {
        Some(v) => {
            let stamped = hex_writer::append_hex(room, next, v);
            buffers::append_byte(room, stamped, 0)
        }
        None => next,
    }
}

// HD with the name, the size and the stamp.
#[tactic(auto, unfolding(fields::specs::Buffer::written_of, fields::specs::Buffer::left_of, packets::specs::Content::header_form))]
pub fn write_hd(
    reply: &mut [u8],
    name: &[u8],
    size: u32,
    stamp: Option<u32>,
) -> Result<usize, WriteError>
    ensures { (result ≡ written_of 259 (header_form name.now size stamp) reply.old) × (reply.new ≡ left_of 259 (header_form name.now size stamp) reply.old) }
{
    crate::check_room(reply)?;
    if !names::is_name(name) || size as usize > Limits::FILE {
        return Err(WriteError::Formless);
    }
    let mut data = [0; ROOM];
    let n = put_header(&mut data, name, size, stamp);
    texts::write_text(reply, &[1], &data[..n])
}

// Lays `R` 00 position 00, and with checksums `C` 00, over the beginning of room.
fn put_resume(room: &mut [u8], position: u32, checked: bool) -> usize
    requires { (position ≤ 99999999) × (83 ≤ length room.old) }
    ensures { (result ≡ length (resume_data position checked)) × (room.new ≡ over 0 (resume_data position checked) room.old) }
{
    let next = put_front(room, b"R", position);
    if checked {
        buffers::append_bytes(room, next, &[b'C', 0])
    } else {
        next
    }
}

// RE at a position, with `C` where checksums are wanted.
#[tactic(auto, unfolding(fields::specs::Buffer::written_of, fields::specs::Buffer::left_of, packets::specs::Content::resume_form))]
pub fn write_re(reply: &mut [u8], position: u32, checked: bool) -> Result<usize, WriteError>
    ensures { (result ≡ written_of 259 (resume_form position checked) reply.old) × (reply.new ≡ left_of 259 (resume_form position checked) reply.old) }
{
    crate::check_room(reply)?;
    if position as usize > Limits::FILE {
        return Err(WriteError::Formless);
    }
    let mut data = [0; ROOM];
    let n = put_resume(&mut data, position, checked);
    texts::write_text(reply, &[0x15], &data[..n])
}
