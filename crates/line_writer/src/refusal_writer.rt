// Writes what breaks a transfer off: the refusal (NO) and the stop frame.
ghost use Rattle.std.specs.Prelude.{◌≡◌};
ghost use Rattle.fields.specs.Buffer.{bytes as bytes_form, written_of, left_of};
ghost use Rattle.lines.specs.Frame.{stop_frame};
ghost use Rattle.lines.specs.Element.{no_form};

use fields::{WriteError, buffers};

// A refusal, with at most 80 bytes of text.
#[tactic(auto, unfolding(fields::specs::Buffer::written_of, fields::specs::Buffer::left_of, lines::specs::Element::no_form, lines::specs::Element::no_bytes))]
pub fn write_no(reply: &mut [u8], text: &[u8]) -> Result<usize, WriteError>
    ensures { (result ≡ written_of 259 (no_form text.now) reply.old) × (reply.new ≡ left_of 259 (no_form text.now) reply.old) }
{
    crate::check_room(reply)?;
    crate::check_form(text.len() <= 80)?;
    Ok(crate::put_text(reply, b"#NO#", text, b"\r"))
}

// The stop frame.
#[tactic(auto, using(crate::proofs::Laying::whole_count, crate::proofs::Laying::whole_bytes), unfolding(fields::specs::Buffer::written_of, fields::specs::Buffer::left_of))]
pub fn write_stop(reply: &mut [u8]) -> Result<usize, WriteError>
    ensures { (result ≡ written_of 259 (bytes_form stop_frame) reply.old) × (reply.new ≡ left_of 259 (bytes_form stop_frame) reply.old) }
{
    crate::check_room(reply)?;
    Ok(buffers::put_bytes(reply, b"\r#ABORT#\r"))
}
