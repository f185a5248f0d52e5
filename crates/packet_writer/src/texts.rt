// Writes the YAPP packets that count what they carry: all but DT and those of two bytes.
ghost use Rattle.std.specs.Prelude.{◌≡◌, ◌≤◌, ◌∷◌, ◌++◌, length, leb};
ghost use Rattle.fields.specs.Buffer.{form_if, written_of, left_of};
ghost use Rattle.packets.specs.Content.{refusal_form};

use fields::{WriteError, buffers};
use packets::resume_reader;

// The leading bytes, the length, and at most 255 bytes of text.
#[tactic(auto, unfolding(fields::specs::Buffer::written_of, fields::specs::Buffer::left_of))]
pub fn write_text(reply: &mut [u8], lead: &[u8], text: &[u8]) -> Result<usize, WriteError>
    requires { length lead.now ≤ 3 }
    ensures { (result ≡ written_of 259 (form_if (leb (length text.now) 255) (lead.now ++ (length text.now ∷ text.now))) reply.old) × (reply.new ≡ left_of 259 (form_if (leb (length text.now) 255) (lead.now ++ (length text.now ∷ text.now))) reply.old) }
{
    crate::check_room(reply)?;
    if text.len() > 255 {
        return Err(WriteError::Formless);
    }
    let end = buffers::append_bytes(reply, 0, lead);
    let end = buffers::append_byte(reply, end, text.len() as u8);
    Ok(buffers::append_bytes(reply, end, text))
}

// NR with a reason. One that would read as a resume has no form.
#[tactic(auto, unfolding(fields::specs::Buffer::written_of, fields::specs::Buffer::left_of, packets::specs::Content::refusal_form))]
pub fn write_nr(reply: &mut [u8], reason: &[u8]) -> Result<usize, WriteError>
    ensures { (result ≡ written_of 259 (refusal_form reason.now) reply.old) × (reply.new ≡ left_of 259 (refusal_form reason.now) reply.old) }
{
    crate::check_room(reply)?;
    if resume_reader::resume_read(reason).is_some() {
        return Err(WriteError::Formless);
    }
    write_text(reply, &[0x15], reason)
}
