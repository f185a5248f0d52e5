// Writes the three OKs.
ghost use Rattle.std.specs.Prelude.{◌≡◌, []};
ghost use Rattle.fields.specs.Buffer.{bytes as bytes_form, written_of, left_of};
ghost use Rattle.lines.specs.Element.{ok_bytes, ok_name_form, ok_kept_form};

use fields::{WriteError, buffers, names};
use numbers::numerals;

// The first OK.
#[tactic(auto, using(crate::proofs::Laying::whole_count, crate::proofs::Laying::whole_bytes), unfolding(fields::specs::Buffer::written_of, fields::specs::Buffer::left_of, lines::specs::Element::ok_bytes))]
pub fn write_ok(reply: &mut [u8]) -> Result<usize, WriteError>
    ensures { (result ≡ written_of 259 (bytes_form (ok_bytes [])) reply.old) × (reply.new ≡ left_of 259 (bytes_form (ok_bytes [])) reply.old) }
{
    crate::check_room(reply)?;
    Ok(buffers::put_bytes(reply, b"#OK#\r"))
}

// The second OK: the name.
#[tactic(auto, using(crate::proofs::Laying::name_fits), unfolding(fields::specs::Buffer::written_of, fields::specs::Buffer::left_of, lines::specs::Element::ok_name_form, lines::specs::Element::ok_bytes))]
pub fn write_ok_name(reply: &mut [u8], name: &[u8]) -> Result<usize, WriteError>
    ensures { (result ≡ written_of 259 (ok_name_form name.now) reply.old) × (reply.new ≡ left_of 259 (ok_name_form name.now) reply.old) }
{
    crate::check_room(reply)?;
    crate::check_form(names::is_name(name))?;
    Ok(crate::put_text(reply, b"#OK#", name, b"\r"))
}

// The third OK: the name, how many bytes are kept, and their CRC.
#[tactic(auto, using(crate::proofs::Laying::name_fits), unfolding(fields::specs::Buffer::written_of, fields::specs::Buffer::left_of, lines::specs::Element::ok_kept_form, lines::specs::Element::kept_bytes))]
pub fn write_ok_kept(
    reply: &mut [u8],
    name: &[u8],
    kept: u32,
    crc: u16,
) -> Result<usize, WriteError>
    ensures { (result ≡ written_of 259 (ok_kept_form name.now kept crc) reply.old) × (reply.new ≡ left_of 259 (ok_kept_form name.now kept crc) reply.old) }
{
    crate::check_room(reply)?;
    crate::check_form(crate::is_file(name, kept))?;
    let kept_start = crate::put_text(reply, b"#OK#", name, b"#$");
    let crc_start = numerals::append_decimal(reply, kept_start, u64::from(kept), b'#');
    Ok(numerals::append_decimal(reply, crc_start, u64::from(crc), b'\r'))
}
