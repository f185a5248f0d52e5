// What a #BIN# receiver says, laid into a reply buffer.
ghost use Rattle.std.specs.Prelude.{◌≡◌, length, ◌≤◌};
ghost use Rattle.fields.specs.Buffer.{over};
ghost use Rattle.lines.specs.Element.{no};
ghost use Rattle.bin.specs.Steps.{joined, says};
ghost use Rattle.bin_receiver.specs.Step.{frames_of};

use crate::step::Out;
use line_writer::{ok_writer, refusal_writer};

fn put_no(reply: &mut [u8], text: &[u8]) -> usize
    requires { 259 ≤ length reply.old }
    ensures { (result ≡ length (joined (says (no text.now)))) × (reply.new ≡ over 0 (joined (says (no text.now))) reply.old) }
{
    calls::count(refusal_writer::write_no(reply, text))
}

// Writes what is said, with a name, and returns how many bytes it has.
pub fn put(reply: &mut [u8], out: Out, name: &[u8]) -> usize
    requires { 259 ≤ length reply.old }
    ensures { (result ≡ length (joined (frames_of name.now out))) × (reply.new ≡ over 0 (joined (frames_of name.now out)) reply.old) }
{
    match out {
        Out::Silent => 0,
        Out::Format => put_no(reply, b"format"),
        Out::Room => put_no(reply, b"room"),
        Out::Have => put_no(reply, b"have"),
        Out::Differs => put_no(reply, b"differs"),
        Out::FirstOk => calls::count(ok_writer::write_ok(reply)),
        Out::SecondOk => calls::count(ok_writer::write_ok_name(reply, name)),
        Out::ThirdOk { kept, crc } => calls::count(ok_writer::write_ok_kept(
            reply, name, kept, crc,
        )),
        Out::Stop => calls::count(refusal_writer::write_stop(reply)),
    }
}
