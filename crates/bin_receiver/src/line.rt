// What a #BIN# receiver decides on a frame while it waits: the judging of a line.
ghost use Rattle.std.specs.Prelude.{◌≡◌, List, length, ℕ, Some};
ghost use Rattle.fields.specs.Lists.{bytes_at};
ghost use Rattle.bin.specs.Steps.{heard, judge_extended, judge_basic, receiver_hears};
ghost use Rattle.bin_receiver.specs.Receiver.{settings_of, saved_in};
ghost use Rattle.bin_receiver.specs.Step.{move_by};

use crate::step::{Out, Step};
use crate::{Receiver, step};
use bin::ReceiverState;
use calls::{Entry, Outcome, saving};
use lines::{Frame, Line, line_reader};

// The record of a line, with a kept count.
fn entry_of(line: Line, frame: &[u8], kept: u32) -> Entry
    ensures { result ≡ record { named = length (bytes_at frame.now line.name); size = line.size; kept = kept; stamp = Some line.stamp } }
{
    Entry {
        named: fields::bytes_at(frame, line.name).len(),
        size: line.size,
        kept,
        stamp: Some(line.stamp),
    }
}

// An extended line.
#[tactic(auto, unfolding(bin::specs::Steps::judge_extended, bin::specs::Steps::judge_record))]
fn judge_extended(receiver: Receiver, line: Line, frame: &[u8], area: &[u8]) -> Step
    ensures { judge_extended (settings_of receiver) (saved_in receiver) area.now line.size line.crc line.stamp line.resumable (bytes_at frame.now line.name) ≡ move_by receiver frame.now area.now result }
{
    let core = receiver.core;
    if core.room < line.size as usize {
        return step::end(receiver, Outcome::NoRoom, Out::Room);
    }
    let renamed = Some(line.name);
    let Some(entry) = core.keeping else {
        let next = entry_of(line, frame, 0);
        return step::judge_whole(receiver, line.crc, next, renamed, Out::SecondOk, 0, area);
    };
    if !(line.resumable && core.resumes) {
        return step::end(receiver, Outcome::HaveFile, Out::Have);
    }
    let name = fields::bytes_at(frame, line.name);
    if !saving::matches(entry, &receiver.name, name, line.size) {
        return step::end(receiver, Outcome::Differs, Out::Differs);
    }
    let kept = entry.kept;
    let crc = crc::crc_by(core.reading, fields::part(area, 0, kept as usize));
    let next = entry_of(line, frame, kept);
    let said = Out::ThirdOk { kept, crc };
    step::judge_whole(receiver, line.crc, next, renamed, said, 0, area)
}

// A basic line.
#[tactic(auto, unfolding(bin::specs::Steps::judge_basic))]
fn judge_basic(receiver: Receiver, size: u32) -> Step
    ensures { (f a : List ℕ) → judge_basic (settings_of receiver) (saved_in receiver) a size ≡ move_by receiver f a result }
{
    let core = receiver.core;
    if core.room < size as usize {
        return step::end(receiver, Outcome::NoRoom, Out::Room);
    }
    match core.keeping {
        Some(_) => step::end(receiver, Outcome::HaveFile, Out::Have),
        None => step::basic_at(receiver, size, 0, Out::FirstOk, 0),
    }
}

// A frame while it waits: frames that do not start with `#BIN#` are ignored.
#[tactic(auto, unfolding(bin::specs::Steps::heard, bin::specs::Steps::receiver_hears, lines::specs::Element::content_of))]
pub fn hear(receiver: Receiver, frame: &[u8], area: &[u8]) -> Step
    ensures { receiver_hears (settings_of receiver) (saved_in receiver) area.now (heard frame.now) ≡ move_by receiver frame.now area.now result }
{
    match line_reader::frame_of(frame) {
        Frame::Basic(size) => judge_basic(receiver, size),
        Frame::Extended(line) => judge_extended(receiver, line, frame, area),
        Frame::MalformedLine(fault) => {
            step::end(receiver, Outcome::Malformed(fault), Out::Format)
        }
        _ => step::go(receiver, ReceiverState::Waiting, Out::Silent, 0),
    }
}
