// What a #BIN# receiver does with a frame once a line is accepted: the storing of the file.
ghost use Rattle.std.specs.Prelude.{◌≡◌, List, length, ℕ, ◌<◌};
ghost use Rattle.bin.specs.Steps.{ReceiverMove, sorted, takes_frame, takes_basic_frame};
ghost use Rattle.bin_receiver.specs.Receiver.{saved_in};
ghost use Rattle.bin_receiver.specs.Step.{move_by, move_or};

use crate::step::{Out, Step};
use crate::{Receiver, step};
use calls::{Entry, Outcome, saving};
use fields::buffers;

// A frame of the file is stored directly behind the kept bytes, and is counted as kept in the same step.
#[tactic(auto, unfolding(bin::specs::Steps::takes_frame))]
fn store(receiver: Receiver, crc: u16, frame: &[u8], area: &mut [u8]) -> Step
    requires { 0 < length frame.now }
    ensures { takes_frame receiver.core.reading crc (saved_in receiver) area.old frame.now ≡ move_by receiver frame.now area.new result }
{
    let Some(entry) = receiver.core.keeping else {
        return step::end(receiver, Outcome::PastSize, Out::Stop);
    };
    let n = frame.len();
    if saving::fits(entry.kept, n, entry.size) {
        buffers::append_bytes(area, entry.kept as usize, frame);
        let next = Entry {
            kept: entry.kept + n as u32,
            ..entry
        };
        return step::judge_whole(receiver, crc, next, None, Out::Silent, n, area);
    }
    step::end(receiver, Outcome::PastSize, Out::Stop)
}

// The same in a basic transfer.
#[tactic(auto, unfolding(bin::specs::Steps::takes_basic_frame))]
fn store_basic(receiver: Receiver, size: u32, kept: u32, frame: &[u8], area: &mut [u8]) -> Step
    ensures { takes_basic_frame size kept (saved_in receiver) area.old frame.now ≡ move_by receiver frame.now area.new result }
{
    let n = frame.len();
    if saving::fits(kept, n, size) {
        buffers::append_bytes(area, kept as usize, frame);
        return step::basic_at(receiver, size, kept + n as u32, Out::Silent, n);
    }
    step::end(receiver, Outcome::PastSize, Out::Stop)
}

// What a frame does that is not of the file: one for display changes nothing, and the stop frame ends it.
fn aside(receiver: Receiver, frame: &[u8]) -> Option<Step>
    ensures { (file : ReceiverMove) (a : List ℕ) → sorted receiver.core.state (saved_in receiver) a frame.now file ≡ move_or receiver frame.now a file result }
{
    if lines::is_display(frame) {
        Some(step::stays(receiver))
    } else if lines::is_stop(frame) {
        Some(step::end(receiver, Outcome::Cancelled, Out::Silent))
    } else {
        None
    }
}

// A frame of an extended transfer that was accepted.
pub fn take_extended(receiver: Receiver, crc: u16, frame: &[u8], area: &mut [u8]) -> Step
    requires { 0 < length frame.now }
    ensures { sorted receiver.core.state (saved_in receiver) area.old frame.now (takes_frame receiver.core.reading crc (saved_in receiver) area.old frame.now) ≡ move_by receiver frame.now area.new result }
{
    match aside(receiver, frame) {
        Some(step) => step,
        None => store(receiver, crc, frame, area),
    }
}

// The same in a basic transfer.
pub fn take_basic(receiver: Receiver, size: u32, kept: u32, frame: &[u8], area: &mut [u8]) -> Step
    ensures { sorted receiver.core.state (saved_in receiver) area.old frame.now (takes_basic_frame size kept (saved_in receiver) area.old frame.now) ≡ move_by receiver frame.now area.new result }
{
    match aside(receiver, frame) {
        Some(step) => step,
        None => store_basic(receiver, size, kept, frame, area),
    }
}
