// What a #BIN# receiver does with a frame that has arrived. Only the bytes of the file are stored on the way.
ghost use Rattle.std.specs.Prelude.{◌≡◌, length, ◌<◌};
ghost use Rattle.bin.specs.Steps.{receiver_takes};
ghost use Rattle.bin_receiver.specs.Receiver.{settings_of, saved_in};
ghost use Rattle.bin_receiver.specs.Step.{move_by};

use crate::step::Step;
use crate::{Receiver, frame, line, step};
use bin::ReceiverState;

// A frame that is not empty.
fn take_some(receiver: Receiver, frame: &[u8], area: &mut [u8]) -> Step
    requires { 0 < length frame.now }
    ensures { receiver_takes (settings_of receiver) receiver.core.state (saved_in receiver) area.old frame.now ≡ move_by receiver frame.now area.new result }
{
    match receiver.core.state {
        ReceiverState::Waiting => line::hear(receiver, frame, area),
        ReceiverState::Basic { size, kept } => frame::take_basic(receiver, size, kept, frame, area),
        ReceiverState::Extended { crc } => frame::take_extended(receiver, crc, frame, area),
        ReceiverState::Ended { .. } => step::stays(receiver),
    }
}

// A frame has come; an empty one changes nothing.
pub fn take(receiver: Receiver, frame: &[u8], area: &mut [u8]) -> Step
    ensures { receiver_takes (settings_of receiver) receiver.core.state (saved_in receiver) area.old frame.now ≡ move_by receiver frame.now area.new result }
{
    if frame.is_empty() {
        return step::stays(receiver);
    }
    take_some(receiver, frame, area)
}
