// What a YAPP sender sends, laid into the reply buffer.
ghost use Rattle.std.specs.Prelude.{◌≤◌, length};
ghost use Rattle.yapp.specs.Steps.{writes};
ghost use Rattle.yapp_sender.specs.Sender.{settings_of};
ghost use Rattle.yapp_sender.specs.Step.{contents_of};
ghost use Rattle.yapp_sender.specs.Output.{Laid};

use crate::Sender;
use crate::step::{Out, Step};

// Lays what is sent into the reply buffer, and returns how many bytes that are.
pub fn put(sender: &Sender, step: Step, file: &[u8], reply: &mut [u8]) -> usize
    requires { 259 ≤ length reply.old }
    ensures { Laid (writes step.checked (contents_of (settings_of sender.now) file.now step.out)) reply.old reply.new result }
{
    let core = sender.core;
    match step.out {
        Out::Nothing => 0,
        Out::HD => {
            let name = fields::part(&sender.name, 0, core.named);
            calls::count(packet_writer::write_hd(reply, name, core.size, core.stamp))
        }
        Out::DT { from } => {
            let data = fields::part(file, from, core.block);
            calls::count(packet_writer::write_dt(reply, data, step.checked))
        }
        Out::Of(packet) => calls::count(packet_writer::write(packet, b"", step.checked, reply)),
    }
}
