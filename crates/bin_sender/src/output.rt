// The frame that a step sends, laid into the reply buffer.
ghost use Rattle.std.specs.Prelude.{◌≤◌, length};
ghost use Rattle.bin.specs.Steps.{joined, line_of};
ghost use Rattle.bin_sender.specs.Sender.{settings_of};
ghost use Rattle.bin_sender.specs.Step.{frames_by, Laid};

use crate::step::Out;
use crate::{Sender, step};
use bin::Announce;
use fields::buffers;
use line_writer::{file_line, refusal_writer};

// The line is the frame; the name stands at the front of the array.
fn put_line(sender: Sender, file: &[u8], reply: &mut [u8]) -> usize
    requires { 259 ≤ length reply.old }
    ensures { Laid (line_of (settings_of sender) file.now) reply.old reply.new result }
{
    let core = sender.core;
    match core.announce {
        Announce::Basic => calls::count(file_line::write_basic(reply, core.size)),
        Announce::Extended {
            stamp,
            resumes,
            reading,
        } => {
            let own = fields::part(&sender.name, 0, core.named);
            let crc = crc::crc_by(reading, file);
            calls::count(file_line::write_line(reply, core.size, crc, stamp, resumes, own))
        }
    }
}

// Lays what is sent into the reply buffer, and returns how many bytes that are.
pub fn put(sender: Sender, out: Out, file: &[u8], reply: &mut [u8]) -> usize
    requires { 259 ≤ length reply.old }
    ensures { Laid (joined (frames_by sender file.now out)) reply.old reply.new result }
{
    match out {
        Out::Nothing => 0,
        Out::Line => put_line(sender, file, reply),
        Out::Data { from } => {
            buffers::append_bytes(reply, 0, step::next(sender.core.block, file, from))
        }
        Out::Stop => calls::count(refusal_writer::write_stop(reply)),
    }
}
