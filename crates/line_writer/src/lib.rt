// Writes the elements of #BIN#, each into a reply buffer (document 01: reply room) of at least 259 bytes. Every byte of the buffer behind the
// element stays, and a refusal leaves all as it was: a buffer under 259 bytes is 20, an element that has no form is 22.
#![tactic(auto)]

ghost use Rattle.std.specs.Prelude.{◌≡◌, ◌≤◌, ◌+◌, ◌++◌, ◌&&◌, length, ltb, leb, Ok, Err};
ghost use Rattle.fields.specs.Name.{is_name};
ghost use Rattle.fields.specs.Pick.{pick};
ghost use Rattle.fields.specs.Buffer.{over};
ghost use Rattle.fields.specs.declared.WriteError.TheVariants.{Small, Formless};

use fields::{Limits, WriteError, buffers, names};

pub mod file_line;
pub mod ok_writer;
pub mod refusal_writer;

// Whether the reply has room. It is asked before the element's form, which may take a look at each byte of a name.
fn check_room(reply: &[u8]) -> Result<(), WriteError>
    ensures { result ≡ pick (ltb (length reply.now) 259) (Err Small) (Ok tt) }
{
    if reply.len() < Limits::REPLY {
        Err(WriteError::Small)
    } else {
        Ok(())
    }
}

// Whether an element has a form.
fn check_form(has_form: bool) -> Result<(), WriteError>
    ensures { result ≡ pick has_form (Ok tt) (Err Formless) }
{
    if has_form {
        Ok(())
    } else {
        Err(WriteError::Formless)
    }
}

// Whether a file can have this name and this size.
fn is_file(name: &[u8], size: u32) -> bool
    ensures { result ≡ (leb size 99999999 && is_name name.now) }
{
    size as usize <= Limits::FILE && names::is_name(name)
}

// A mark, a text and what follows it. By index, as the writers of `fields` and `numbers` are.
fn put_text(reply: &mut [u8], mark: &[u8], text: &[u8], end: &[u8]) -> usize
    requires { (length mark.now + (length text.now + length end.now) ≤ 259) × (259 ≤ length reply.old) }
    ensures { (result ≡ length (mark.now ++ (text.now ++ end.now))) × (reply.new ≡ over 0 (mark.now ++ (text.now ++ end.now)) reply.old) }
{
    let text_start = buffers::put_bytes(reply, mark);
    let text_end = buffers::append_bytes(reply, text_start, text);
    buffers::append_bytes(reply, text_end, end)
}
